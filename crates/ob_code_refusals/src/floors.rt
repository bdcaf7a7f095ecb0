//! Runs by turns on a floor.

ghost use Rattle.std.specs.Prelude.{◌≡◌, ◌-◌, ◌<◌, ◌≤◌, ◌^◌, All, IfOk};
ghost use Rattle.ob_code_correct.specs.Compiled.{IsFitting};
ghost use Rattle.ob_code_scheme.specs.Layout.{encoded};
ghost use Rattle.ob_object_compile.specs.Sound.{IsSoundObject};
ghost use Rattle.ob_object_compile.specs.View.{object_in};
ghost use Rattle.ob_text_words.specs.ScriptCalls.{object_call, script_call_of};
ghost use Rattle.wf_play.specs.Played.{IsSameObject};

use crate::machine_records::add_record;
use crate::trouble::Trouble;
use ob_code_engine::CodeEngine;
use ob_desk_floor::{Floor, Opening, Seat};
use ob_desk_serve::object_desk::submissions;
use ob_layout::encode;
use ob_object_compile::Object;
use ob_text_words::script_call::ScriptCall;
use std::alloc::{AllocError, Global};

/// Adds the numbers and the record of a floor of the object with these calls, on which these turns are taken.
pub fn by_floor<R: Eprint + AllocGlobal>(
    rt: &R,
    object: &Object,
    calls: &[ScriptCall],
    turns: &[(usize, usize)],
    text: &mut String,
) -> Result<(), Trouble>
    requires sound { IsSoundObject (object_in object.now) }
    requires some { 0 < (object_in object.now).processes }
    requires few { (object_in object.now).processes ≤ 16 }
    requires callers { All (λ c. c.process < (object_in object.now).processes) calls.now }
    requires fits { All (λ c. IsFitting (object_in object.now).engine.exports (object_call (script_call_of c))) calls.now }
{
    let alloc = rt.alloc();
    let mut floor = opened(alloc, object, calls)?;
    let mut seats = two_seats(alloc)?;
    for (process, count) in turns {
        take_turns(rt, &mut floor, &mut seats, *process, *count)?;
    }
    add_record(alloc, object, floor.into_machine(), text)
}

/// A floor of the object, before any turn.
fn opened(
    alloc: Global,
    object: &Object,
    calls: &[ScriptCall],
) -> Result<Floor<CodeEngine>, Trouble>
    requires sound { IsSoundObject (object_in object.now) }
    requires some { 0 < (object_in object.now).processes }
    requires few { (object_in object.now).processes ≤ 16 }
    requires callers { All (λ c. c.process < (object_in object.now).processes) calls.now }
    requires fits { All (λ c. IsFitting (object_in object.now).engine.exports (object_call (script_call_of c))) calls.now }
    ensures code { IfOk result (λ f. f.machine.engine.parts ≡ (object_in object.now).engine) }
    ensures opening { IfOk result (λ f. f.machine.opening ≡ encoded (object_in object.now).opening) }
    ensures processes { IfOk result (λ f. f.machine.sizes.processes ≡ (object_in object.now).processes) }
{
    let engine = object.engine().copy(alloc)?;
    let opening = Opening {
        words: encode(alloc, object.opening())?,
        carried: object.carried(),
    };
    let calls = submissions(alloc, calls)?;
    Ok(Floor::new(alloc, engine, object.processes(), &opening, calls)?)
}

fn two_seats(alloc: Global) -> Result<Vec<Seat>, AllocError> {
    let mut seats = Vec::new(alloc);
    seats.push(Seat::new(alloc, 0, 0))?;
    seats.push(Seat::new(alloc, 1, 0))?;
    Ok(seats)
}

/// So many turns of a process.
fn take_turns<R: Eprint>(
    rt: &R,
    floor: &mut Floor<CodeEngine>,
    seats: &mut Vec<Seat>,
    process: usize,
    count: usize,
) -> Result<(), Trouble>
    ensures { IsSameObject floor.new.machine floor.old.machine }
{
    for _ in 0..count {
        if let Some(seat) = seats.get_mut(process)
            && seat.process() < floor.processes()
            && seat.turns() < u128::MAX
        {
            turn(rt, floor, seat)?;
        }
    }
    Ok(())
}

/// A turn of a seat.
fn turn<R: Eprint>(rt: &R, floor: &mut Floor<CodeEngine>, seat: &mut Seat) -> Result<(), Trouble>
    requires process { seat.old.process < floor.old.machine.sizes.processes }
    requires room { seat.old.turns < 2 ^ 128 - 1 }
    ensures { IsSameObject floor.new.machine floor.old.machine }
{
    if floor.turn(seat).is_err() {
        let _ = rt.eprintln("refused: floor");
        let _ = floor.turn(seat).map_err(|_| Trouble::Again)?;
    }
    Ok(())
}
