//! Workers whom gates let pass only together, or one by the other's leave, and desks that are closed with seats that are not
//! theirs: what each comes to, a line each. Tests refuse each allocation of them in turn.
#![tactic(auto)]

mod desks;
mod gates;

use desks::{Change, Closing};
use ob_desk_serve::ServeTextFault;
use std::process::ExitCode;
use std::sync::Wait;
use std::thread::Threads;

/// Status 4: the lines could not be printed.
fn main(rt: HostRuntime) -> ExitCode {
    match run(&rt) {
        Ok(()) => ExitCode::SUCCESS,
        Err(_) => ExitCode::from(4),
    }
}

fn run<R: Threads + Wait + Sync + Print + AllocGlobal>(rt: &R) -> Result<(), std::io::Error> {
    served(rt, gates::together(rt))?;
    served(rt, gates::one_stands_still(rt))?;
    closed(rt, desks::closed(rt, Change::Nothing))?;
    closed(rt, desks::closed(rt, Change::Missing))?;
    closed(rt, desks::closed(rt, Change::OtherTag))?;
    closed(rt, desks::closed(rt, Change::OtherDesk))
}

/// Whether workers gave the record that has to come, or why they gave none.
fn served<R: Print>(rt: &R, told: Result<bool, ServeTextFault>) -> Result<(), std::io::Error> {
    match told {
        Ok(true) => rt.println("as it has to be"),
        Ok(false) => rt.println("another record"),
        Err(fault) => rt.println(fault),
    }
}

/// Whether a desk was closed, or why it was not; want of memory where it could not be opened or used.
fn closed<R: Print>(rt: &R, told: Closing) -> Result<(), std::io::Error> {
    match told {
        Ok(Ok(())) => rt.println("closed"),
        Ok(Err(fault)) => rt.println(fault),
        Err(_) => rt.println("NoMemory"),
    }
}
