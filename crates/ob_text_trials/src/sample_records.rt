//! Records of a module with an array, records and BOOLEANs, read and written again.

use ob_check::module_text::checked_text;
use ob_mean::openings::opening;
use ob_text_reading::{RecordFault, read_record};
use ob_text_record::{Record, write_record};
use std::test::Fail;
use wf_table::Turns;

const MODULE: &[u8] =
    b"MODULE M; VAR a: ARRAY 2 OF RECORD x: INTEGER; on: BOOLEAN END; e: RECORD END; b: BOOLEAN; \
    PROCEDURE Hidden(x: INTEGER); END Hidden; \
    PROCEDURE Put*(i: INTEGER; VAR was: BOOLEAN; on: BOOLEAN); BEGIN was := a[i].on; a[i].on := on END Put; END M.";

const SECOND: &str =
    "obl0 record 2\nn 2\nb 100\nB 0.1 Put 1 TRUE\nE 0.1 done FALSE\nB 1.1 Put -1 FALSE\nE 1.1 trap 5\n\
    O 0.1 1.1\nS 0*3 1*59\nV a [{x=0,on=FALSE},{x=0,on=FALSE}]\nV e {}\nV b FALSE\n";

#[test]
fn a_record_that_is_read_is_written_again(rt: HostRuntime) -> Result<(), Fail> {
    let alloc = rt.alloc();
    let checked = checked_text(alloc, MODULE)?;
    let told = read_record(alloc, &checked, SECOND.as_bytes())?;
    let record = Record {
        processes: told.processes,
        budget: told.budget,
        carried: None,
        history: told.history,
        order: told.order,
        schedule: vec![in alloc;
            Turns {
                process: 0,
                count: 3
            },
            Turns {
                process: 1,
                count: 59
            },
        ]?,
        state: opening(alloc, &checked)?,
    };
    assert!(rt; write_record(alloc, &checked, &record)?.as_str() == SECOND);
    Ok(())
}

#[test]
fn version_1_has_the_greatest_budget(rt: HostRuntime) -> Result<(), Fail> {
    let alloc = rt.alloc();
    let checked = checked_text(alloc, MODULE)?;
    let told = read_record(alloc, &checked, b"obl0 record 1\nn 16\nA\nO\nS 0*3")?;
    assert!(rt; told.processes == 16 && told.budget == 1_000_000);
    Ok(())
}

#[test]
fn a_budget_over_the_greatest_is_out_of_form(rt: HostRuntime) -> Result<(), Fail> {
    let alloc = rt.alloc();
    let checked = checked_text(alloc, MODULE)?;
    let told = read_record(alloc, &checked, b"obl0 record 2\nn 16\nb 1000001\nO\nS");
    assert!(rt; matches!(told, Err(RecordFault::Form(3))));
    Ok(())
}
