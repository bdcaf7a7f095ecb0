//! Desks at which turns are taken by hand, and which are closed with their seats or with others.

use ob_code_engine::CodeEngine;
use ob_desk_floor::{CloseFault, Desk, Seat, TakeTurn};
use ob_desk_serve::{opened_desk, read_calls};
use ob_interface::NoMemory;
use ob_object_compile::{Asked, Beginning};
use ob_object_perform::PerformFault;
use std::alloc::Global;
use std::sync::Wait;

/// Process 1 gets 1 where process 0 was there before it, and else 0.
const COUNTER: &[u8] = b"MODULE C; VAR x: INTEGER; PROCEDURE Inc*; BEGIN x := x + 1 END Inc; \
    PROCEDURE Get*(VAR v: INTEGER); BEGIN v := x END Get; END C.";

type CodeDesk = Desk<CodeEngine>;

/// Whether a desk was closed with seats, where memory did not want before that.
pub type Closing = Result<Result<(), CloseFault>, Short>;

/// What is done with a desk's seats before it is closed with them.
#[derive(Clone, Copy)]
pub enum Change {
    /// They stay as they are.
    Nothing,
    /// That of process 1 is taken away.
    Missing,
    /// One of another tag stands in the place of that of process 0.
    OtherTag,
    /// That of process 1 is of a desk at which it took its turns first, so that it has another answer.
    OtherDesk,
}

/// Memory wanted before a desk was closed.
#[derive(Clone, Copy)]
pub struct Short;

impl From<NoMemory> for Short {
    fn from(_: NoMemory) -> Short {
        Short
    }
}

impl From<PerformFault> for Short {
    fn from(_: PerformFault) -> Short {
        Short
    }
}

/// A desk of two processes, and its seats.
fn opened(alloc: Global) -> Result<(CodeDesk, Vec<Seat>), Short> {
    let asked = Asked {
        text: COUNTER,
        processes: 2,
        budget: 100,
        beginning: Beginning::Body,
    };
    let (object, calls) = read_calls(alloc, asked, b"0 Inc\n1 Get\n")?;
    Ok(opened_desk(alloc, &object, calls.as_slice())?)
}

/// A hundred turns of a process.
fn take_turns<R: Wait>(
    rt: &R,
    desk: &CodeDesk,
    seats: &mut Vec<Seat>,
    process: usize,
) -> Result<(), NoMemory> {
    for _ in 0..100 {
        if let Some(seat) = seats.get_mut(process)
            && seat.turns() < u128::MAX
        {
            desk.turn(rt, seat)?;
        }
    }
    Ok(())
}

/// A desk at which the first process took its turns before the other one.
fn used<R: Wait + AllocGlobal>(
    rt: &R,
    first: usize,
    other: usize,
) -> Result<(CodeDesk, Vec<Seat>), Short> {
    let (desk, mut seats) = opened(rt.alloc())?;
    take_turns(rt, &desk, &mut seats, first)?;
    take_turns(rt, &desk, &mut seats, other)?;
    Ok((desk, seats))
}

/// What closing a desk comes to, with its seats so changed.
pub fn closed<R: Wait + AllocGlobal>(rt: &R, change: Change) -> Closing {
    let (desk, mut seats) = used(rt, 0, 1)?;
    make(rt, change, &mut seats)?;
    Ok(close(desk, seats))
}

/// Makes a change of seats.
fn make<R: Wait + AllocGlobal>(rt: &R, change: Change, seats: &mut Vec<Seat>) -> Result<(), Short> {
    match change {
        Change::Nothing => {}
        Change::Missing => {
            seats.pop();
        }
        Change::OtherTag => {
            let own = seats.pop();
            seats.clear();
            add(seats, Some(Seat::new(rt.alloc(), 0, 8)))?;
            add(seats, own)?;
        }
        Change::OtherDesk => {
            let (_, mut others) = used(rt, 1, 0)?;
            seats.pop();
            add(seats, others.pop())?;
        }
    }
    Ok(())
}

/// Adds a seat, where there is one.
fn add(seats: &mut Vec<Seat>, seat: Option<Seat>) -> Result<(), NoMemory> {
    seats.extend(seat)?;
    Ok(())
}

/// What closing a desk with seats comes to.
fn close(desk: CodeDesk, seats: Vec<Seat>) -> Result<(), CloseFault> {
    desk.close(seats.as_slice())?;
    Ok(())
}
