//! Calls of a machine, made again where memory was refused.

ghost use Rattle.std.specs.Prelude.{◌≡◌, ◌<◌, All};
ghost use Rattle.ob_code_correct.specs.Compiled.{IsFitting};
ghost use Rattle.ob_text_words.specs.Schedule.{process_of};
ghost use Rattle.ob_text_words.specs.ScriptCalls.{object_call, script_call_of};
ghost use Rattle.wf_play.specs.Played.{IsSameObject};

use crate::trouble::Trouble;
use ob_code_engine::CodeEngine;
use ob_text_words::Item;
use ob_text_words::script_call::ScriptCall;
use std::alloc::Global;
use wf_object::{Machine, StepOut};

/// The most steps of an item.
const MOST_STEPS: u64 = 10_000;

/// Submits the calls, in order.
pub fn submit_all<R: Eprint>(
    rt: &R,
    alloc: Global,
    machine: &mut Machine<CodeEngine>,
    calls: &[ScriptCall],
) -> Result<(), Trouble>
    requires callers { All (λ c. c.process < machine.old.sizes.processes) calls.now }
    requires fits { All (λ c. IsFitting machine.old.engine.parts.exports (object_call (script_call_of c))) calls.now }
    ensures { IsSameObject machine.new machine.old }
{
    for call in calls {
        submit(rt, alloc, machine, call)?;
    }
    Ok(())
}

/// Submits a call.
fn submit<R: Eprint>(
    rt: &R,
    alloc: Global,
    machine: &mut Machine<CodeEngine>,
    call: &ScriptCall,
) -> Result<(), Trouble>
    requires process { call.now.process < machine.old.sizes.processes }
    requires fits { IsFitting machine.old.engine.parts.exports (object_call (script_call_of call.now)) }
    ensures { IsSameObject machine.new machine.old }
{
    let asked = call.asked(alloc)?;
    if machine.submit(call.process, asked).is_err() {
        let _ = rt.eprintln("refused: submit");
        let asked = call.asked(alloc)?;
        let _ = machine
            .submit(call.process, asked)
            .map_err(|_| Trouble::Again)?;
    }
    Ok(())
}

/// Plays the items, in order.
pub fn play<R: Eprint>(
    rt: &R,
    machine: &mut Machine<CodeEngine>,
    items: &[Item],
) -> Result<(), Trouble>
    requires { All (λ item. process_of item < machine.old.sizes.processes) items.now }
    ensures { IsSameObject machine.new machine.old }
{
    for item in items {
        play_item(rt, machine, *item)?;
    }
    Ok(())
}

/// Takes steps of the item's process until it has come to its end.
fn play_item<R: Eprint>(
    rt: &R,
    machine: &mut Machine<CodeEngine>,
    item: Item,
) -> Result<(), Trouble>
    requires { process_of item < machine.old.sizes.processes }
    ensures { IsSameObject machine.new machine.old }
{
    for taken in 0..MOST_STEPS {
        if has_ended(machine, item, taken) {
            return Ok(());
        }
        let out = step(rt, machine, item.process())?;
        if is_answer(item, &out) {
            return Ok(());
        }
    }
    Err(Trouble::Endless)
}

/// Whether an item of which so many steps were taken asks for no more.
fn has_ended(machine: &Machine<CodeEngine>, item: Item, taken: u64) -> bool
    requires { process_of item < machine.now.sizes.processes }
{
    match item {
        Item::Steps { process: _, count } => taken >= count,
        Item::Until { process, label } => {
            machine.label(process) == label || machine.is_halted(process)
        }
        Item::ToAnswer { process } => machine.is_halted(process),
    }
}

/// Whether a step is the answer up to which an item goes.
fn is_answer(item: Item, out: &StepOut) -> bool {
    matches!(item, Item::ToAnswer { .. }) && matches!(out, StepOut::Answered(_, _))
}

/// A step of a process.
fn step<R: Eprint>(rt: &R, machine: &mut Machine<CodeEngine>, p: usize) -> Result<StepOut, Trouble>
    requires { p < machine.old.sizes.processes }
    ensures { IsSameObject machine.new machine.old }
{
    match machine.step(p) {
        Ok(out) => Ok(out),
        Err(_) => {
            let _ = rt.eprintln("refused: step");
            machine.step(p).map_err(|_| Trouble::Again)
        }
    }
}
