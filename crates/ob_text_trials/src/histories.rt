//! Texts that are histories, and those that stop being one.

use ob_check::module_text::checked_text;
use ob_text_reading::{ReadHistory, RecordFault, read_history};
use std::alloc::Global;
use std::test::Fail;

const COUNTER: &[u8] =
    b"MODULE Counter; VAR n: INTEGER; PROCEDURE Inc*(VAR v: INTEGER); BEGIN n := n + 1; v := n END Inc; END Counter.";

const PAIR: &[u8] =
    b"MODULE Pair; VAR n, m: INTEGER; PROCEDURE Inc*(VAR v: INTEGER); BEGIN n := n + 1; v := n END Inc; END Pair.";

/// What the text tells of a module, or the line of its fault; 0 where memory runs out.
fn told(alloc: Global, module: &[u8], text: &[u8]) -> Result<ReadHistory, usize> {
    let Ok(checked) = checked_text(alloc, module) else {
        return Err(0);
    };
    match read_history(alloc, &checked, text) {
        Ok(told) => Ok(told),
        Err(RecordFault::Form(line)) => Err(line),
        Err(RecordFault::NoMemory) => Err(0),
    }
}

/// How many events there are, or the line of the fault.
fn events(alloc: Global, text: &[u8]) -> Result<usize, usize> {
    let told = told(alloc, COUNTER, text)?;
    Ok(told.history.len())
}

#[test]
fn these_are_histories(rt: HostRuntime) -> Result<(), Fail> {
    let alloc = rt.alloc();
    assert!(rt; events(alloc, b"") == Ok(0));
    assert!(rt; events(alloc, b"B 7.1 Inc\nE 7.1 done 1\n") == Ok(2));
    assert!(rt; events(alloc, b"# a comment\n\nB 123456789.1 Inc\n") == Ok(1));
    assert!(rt; events(alloc, b"n 200\nB 150.1 Inc\n") == Ok(1));
    assert!(rt; events(alloc, b"B 0.1 Inc\nO 0.1\nS 0*3\nV n 1\n") == Ok(1));
    assert!(rt; events(alloc, b"obl0 record 2\nn 2\nb 5\nB 1.1 Inc\nA 1.1\nO 1.1") == Ok(1));
    Ok(())
}

#[test]
fn these_stop_being_one(rt: HostRuntime) -> Result<(), Fail> {
    let alloc = rt.alloc();
    assert!(rt; events(alloc, b"B 1234567890.1 Inc\n") == Err(1));
    assert!(rt; events(alloc, b"E 0.1 done 1\n") == Err(1));
    assert!(rt; events(alloc, b"B 0.1 Inc\nB 0.2 Inc\n") == Err(2));
    assert!(rt; events(alloc, b"B 0.1 Inc\n\nE 0.1 done x\n") == Err(3));
    assert!(rt; events(alloc, b"b 5\nb 6\n") == Err(2));
    assert!(rt; events(alloc, b"B 0.1 Inc\nO 0.1\nB 1.1 Inc\n") == Err(3));
    Ok(())
}

/// Whether the text tells this budget, values that were carried over, and processes of these names.
fn tells(alloc: Global, text: &[u8], budget: u64, names: &[usize]) -> bool {
    match told(alloc, COUNTER, text) {
        Ok(told) => {
            told.budget == Some(budget)
                && told.carried.is_some()
                && told.processes.as_slice() == names
        }
        Err(_) => false,
    }
}

#[test]
fn processes_are_numbered_as_they_begin(rt: HostRuntime) -> Result<(), Fail> {
    let alloc = rt.alloc();
    let text = b"b 7\nI n 5\nB 9.1 Inc\nB 4.1 Inc\nE 9.1 done 6\n";
    assert!(rt; tells(alloc, text, 7, &[9, 4]));
    Ok(())
}

#[test]
fn an_opening_may_be_missing(rt: HostRuntime) -> Result<(), Fail> {
    let alloc = rt.alloc();
    assert!(rt; matches!(told(alloc, PAIR, b"I n 5\n"), Err(2)));
    assert!(rt; matches!(told(alloc, PAIR, b"I n 5\nB 0.1 Inc\n"), Err(2)));
    assert!(rt; matches!(told(alloc, PAIR, b"I n 5\nI m 6\nB 0.1 Inc\n"), Ok(_)));
    Ok(())
}

#[test]
fn there_are_at_most_1000_processes(rt: HostRuntime) -> Result<(), Fail> {
    let alloc = rt.alloc();
    let mut text = String::new(alloc);
    for process in 0..1000 {
        text.push_str(format!(in alloc; "B {process}.1 Inc\n")?.as_str())?;
    }
    assert!(rt; events(alloc, text.as_bytes()) == Ok(1000));
    text.push_str("B 1000.1 Inc\n")?;
    assert!(rt; events(alloc, text.as_bytes()) == Err(1001));
    Ok(())
}
