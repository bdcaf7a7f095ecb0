//! Runs by turns at a desk.

ghost use Rattle.std.specs.Prelude.{◌-◌, ◌<◌, ◌≤◌, ◌^◌, All};
ghost use Rattle.ob_code_correct.specs.Compiled.{IsFitting};
ghost use Rattle.ob_object_compile.specs.Sound.{IsSoundObject};
ghost use Rattle.ob_object_compile.specs.View.{object_in};
ghost use Rattle.ob_text_words.specs.ScriptCalls.{object_call, script_call_of};

use crate::machine_records::add_record;
use crate::trouble::Trouble;
use ob_code_engine::CodeEngine;
use ob_desk_floor::{Desk, Seat, TakeTurn};
use ob_desk_serve::opened_desk;
use ob_object_compile::Object;
use ob_text_words::script_call::ScriptCall;
use std::sync::Wait;

/// Adds the numbers and the record of a desk of the object with these calls, at which these turns are taken.
pub fn by_desk<R: Wait + Eprint + AllocGlobal>(
    rt: &R,
    object: &Object,
    calls: &[ScriptCall],
    turns: &[(usize, usize)],
    text: &mut String,
) -> Result<(), Trouble>
    requires sound { IsSoundObject (object_in object.now) }
    requires some { 0 < (object_in object.now).processes }
    requires few { (object_in object.now).processes ≤ 16 }
    requires callers { All (λ c. c.process < (object_in object.now).processes) calls.now }
    requires fits { All (λ c. IsFitting (object_in object.now).engine.exports (object_call (script_call_of c))) calls.now }
{
    let alloc = rt.alloc();
    let (desk, mut seats) = opened_desk(alloc, object, calls)?;
    for (process, count) in turns {
        take_turns(rt, &desk, &mut seats, *process, *count)?;
    }
    let machine = desk.close(seats.as_slice())?;
    add_record(alloc, object, machine, text)
}

/// So many turns of a process.
fn take_turns<R: Wait + Eprint>(
    rt: &R,
    desk: &Desk<CodeEngine>,
    seats: &mut Vec<Seat>,
    process: usize,
    count: usize,
) -> Result<(), Trouble> {
    for _ in 0..count {
        if let Some(seat) = seats.get_mut(process)
            && seat.turns() < u128::MAX
        {
            turn(rt, desk, seat)?;
        }
    }
    Ok(())
}

/// A turn of a seat.
fn turn<R: Wait + Eprint>(rt: &R, desk: &Desk<CodeEngine>, seat: &mut Seat) -> Result<(), Trouble>
    requires { seat.old.turns < 2 ^ 128 - 1 }
{
    if desk.turn(rt, seat).is_err() {
        let _ = rt.eprintln("refused: desk");
        let _ = desk.turn(rt, seat).map_err(|_| Trouble::Again)?;
    }
    Ok(())
}
