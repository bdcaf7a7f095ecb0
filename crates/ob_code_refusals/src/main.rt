//! Runs over compiled code that go on after a want of memory: the same call is made again. What was refused is told on standard
//! error; in the end the records are printed, each behind the numbers of its machine.
#![tactic(auto)]

mod again;
mod desks;
mod floors;
mod machine_records;
mod machine_runs;
mod sample_runs;
mod trouble;

use desks::by_desk;
use floors::by_floor;
use machine_runs::by_steps;
use sample_runs::{ROUNDS_LOST, Row, STOPPED, TRAP_IN_A_ROUND, read};
use std::process::ExitCode;
use std::sync::Wait;
use trouble::Trouble;

fn main(rt: HostRuntime) -> ExitCode {
    match run(&rt) {
        Ok(()) => ExitCode::SUCCESS,
        Err(trouble) => {
            let _ = rt.eprintln(trouble.words());
            ExitCode::from(trouble.status())
        }
    }
}

fn run<R: Wait + Print + Eprint + AllocGlobal>(rt: &R) -> Result<(), Trouble> {
    let mut text = String::new(rt.alloc());
    add(rt, &STOPPED, &mut text)?;
    add(rt, &ROUNDS_LOST, &mut text)?;
    add(rt, &TRAP_IN_A_ROUND, &mut text)?;
    rt.print(text.as_str()).map_err(|_| Trouble::Own)
}

/// The row's record and its machine's numbers, as its schedule makes them, as turns on a floor do, and as turns at a desk do.
fn add<R: Wait + Eprint + AllocGlobal>(
    rt: &R,
    row: &Row,
    text: &mut String,
) -> Result<(), Trouble> {
    let (object, calls, items) = read(rt.alloc(), row)?;
    let calls = calls.as_slice();
    by_steps(rt, &object, calls, items.as_slice(), text)?;
    by_floor(rt, &object, calls, row.turns, text)?;
    by_desk(rt, &object, calls, row.turns, text)
}
