//! The calls that end in a run, and their own steps.

ghost use Rattle.std.specs.Prelude.{◌≡◌, ◌<◌, ◌≤◌, All, IfOk, OnOk, replicate};
ghost use Rattle.ob_text_words.specs.ScriptCalls.{object_call, script_call_of};
ghost use Rattle.wf_play.specs.Played.{scripts_in};
ghost use Rattle.wf_play.specs.Ended.{AreEndedOf, Leads, own_steps, with_submissions};
ghost use Rattle.wf_table.specs.Schedule.{steps_of};

use ob_interface::NoMemory;
use ob_text_words::script_call::ScriptCall;
use std::alloc::Global;
use wf_history::CallId;
use wf_object::{CellFault, Engine, Machine, Spent, StepOut, Turns};

/// A call that ended, and how many own steps its process took for it; 2^128 - 1 where they are more.
#[derive(Clone, Copy)]
pub struct EndedCall {
    pub id: CallId,
    pub steps: u128,
}

/// The calls that end in the run of the scripts and of the schedule's turns, in the order of their ends, each with all its own
/// steps, or with 2^128 - 1 where they are more.
pub fn ended_calls<E: Engine>(
    alloc: Global,
    engine: E,
    n: usize,
    opening: &[i64],
    calls: Vec<ScriptCall>,
    schedule: &[Turns],
) -> Result<Vec<EndedCall>, NoMemory>
    requires opening { E.lawful engine opening.now }
    requires some { 0 < n }
    requires few { n ≤ 16 }
    requires callers { All (λ c. c.process < n) calls.items }
    requires fits { All (λ c. E.fits engine (object_call (script_call_of c))) calls.items }
    requires steps { All (λ t. t.process < n) schedule.now }
    ensures { IfOk result (λ v. AreEndedOf (E.meaning engine) (E.ready engine) n opening.now (scripts_in calls.items) (steps_of schedule.now) v.items) }
{
    let mut machine = match Machine::new(alloc, engine, n, opening) {
        Ok(machine) => machine,
        Err(CellFault::NoMemory) => return Err(NoMemory),
        Err(CellFault::Processes) => unreachable!(),
    };
    submit_all(alloc, &mut machine, calls)?;
    let mut ended = Vec::new(alloc);
    take_all(&mut machine, schedule, &mut ended)?;
    Ok(ended)
}

/// Submits the calls, in order.
fn submit_all<E: Engine>(
    alloc: Global,
    machine: &mut Machine<E>,
    calls: Vec<ScriptCall>,
) -> Result<(), NoMemory>
    requires callers { All (λ c. c.process < machine.old.sizes.processes) calls.items }
    requires fits { All (λ c. E.fits machine.old.engine (object_call (script_call_of c))) calls.items }
    ensures { OnOk result (machine.new ≡ with_submissions (E.meaning machine.old.engine) (scripts_in calls.items) machine.old) }
{
    for call in calls {
        let asked = call.asked(alloc)?;
        machine.submit(call.process, asked)?;
    }
    Ok(())
}

/// The turns of a schedule, with the calls that they end.
fn take_all<E: Engine>(
    machine: &mut Machine<E>,
    schedule: &[Turns],
    ended: &mut Vec<EndedCall>,
) -> Result<(), NoMemory>
    requires { All (λ t. t.process < machine.old.sizes.processes) schedule.now }
    ensures { OnOk result (Leads E.meaning (steps_of schedule.now) machine.old ended.old.items machine.new ended.new.items) }
{
    for turns in schedule {
        take_turns(machine, turns.process, turns.count, ended)?;
    }
    Ok(())
}

/// So many steps of a process, with the calls that they end.
fn take_turns<E: Engine>(
    machine: &mut Machine<E>,
    p: usize,
    count: u64,
    ended: &mut Vec<EndedCall>,
) -> Result<(), NoMemory>
    requires { p < machine.old.sizes.processes }
    ensures { OnOk result (Leads E.meaning (replicate count p) machine.old ended.old.items machine.new ended.new.items) }
{
    for _turn in 0..count {
        take_turn(machine, p, ended)?;
    }
    Ok(())
}

/// A step of a process, with the call that it ends.
fn take_turn<E: Engine>(
    machine: &mut Machine<E>,
    p: usize,
    ended: &mut Vec<EndedCall>,
) -> Result<(), NoMemory>
    requires { p < machine.old.sizes.processes }
    ensures { OnOk result (Leads E.meaning (replicate 1 p) machine.old ended.old.items machine.new ended.new.items) }
{
    if let StepOut::Answered(id, _) = machine.step(p)? {
        let steps = own_steps(machine.spent(p));
        ended.push(EndedCall { id, steps })?;
    }
    Ok(())
}

/// All own steps that were spent.
fn own_steps(spent: Spent) -> u128
    ensures { result ≡ own_steps spent }
{
    spent.outside.saturating_add(spent.inside)
}
