//! A counter that outlives its run.

use crate::{Turn, perform_twice};
use ob_check::module_text::checked_text;
use ob_text_record::write_record;
use std::test::Fail;

/// A counter.
const COUNTER: &[u8] = b"MODULE Counter;
  VAR x: INTEGER;
  PROCEDURE Inc*;
  BEGIN x := x + 1 END Inc;
  PROCEDURE Get*(VAR v: INTEGER);
  BEGIN v := x END Get;
END Counter.";

/// Process 0 is stopped, and process 1 makes both calls.
const FIRST: &str =
    "obl0 record 2\nn 2\nb 100000\nB 0.1 Inc\nB 1.1 Inc\nA 0.1 1.1\nE 1.1 done\nO 0.1 1.1\nS 0*3 1*59\nV x 2\n";

/// One process finds what they left.
const SECOND: &str =
    "obl0 record 3\nn 1\nb 100000\nI x 2\nB 0.1 Get\nA 0.1\nE 0.1 done 2\nO 0.1\nS 0*36\nV x 2\n";

#[test]
fn a_counter_goes_on(rt: HostRuntime) -> Result<(), Fail> {
    let alloc = rt.alloc();
    let first = Turn {
        processes: 2,
        scripts: b"0 Inc\n1 Inc\n",
        schedule: b"0:TRY 1:TRY 1!\n",
    };
    let second = Turn {
        processes: 1,
        scripts: b"0 Get\n",
        schedule: b"0!\n",
    };
    let (left, next) = perform_twice(alloc, COUNTER, 100_000, first, second)?;
    let checked = checked_text(alloc, COUNTER)?;
    assert!(rt; write_record(alloc, &checked, &left)?.as_str() == FIRST);
    assert!(rt; write_record(alloc, &checked, &next)?.as_str() == SECOND);
    Ok(())
}
