//! Who made the events of a run.

ghost use Rattle.std.specs.Prelude.{◌≡◌, ◌++◌, ◌<◌, ◌≤◌, All, IfOk, IfErr, OnOk, replicate};
ghost use Rattle.ob_text_words.specs.ScriptCalls.{object_call, script_call_of};
ghost use Rattle.wf_play.specs.Makers.{AreMakersOf, maker_at, makers_in};
ghost use Rattle.wf_play.specs.Played.{IsSameObject, scripts_in};
ghost use Rattle.wf_play.specs.declared.playing.PlayFault.TheVariants as Faults;
ghost use Rattle.wf_table.specs.Object.{step_of};
ghost use Rattle.wf_table.specs.Runs.{run, turns};
ghost use Rattle.wf_table.specs.Schedule.{steps_of};

use crate::played_item::step_once;
use crate::playing::{PlayFault, submit_all};
use ob_interface::NoMemory;
use ob_text_words::script_call::ScriptCall;
use std::alloc::Global;
use wf_object::{Engine, Machine, Turns};

/// For each event of the run of the scripts and of the schedule's turns, in order, the process whose step showed it.
pub fn makers<E: Engine>(
    alloc: Global,
    engine: E,
    n: usize,
    opening: &[i64],
    calls: Vec<ScriptCall>,
    schedule: &[Turns],
) -> Result<Vec<usize>, PlayFault>
    requires opening { E.lawful engine opening.now }
    requires some { 0 < n }
    requires few { n ≤ 16 }
    requires callers { All (λ c. c.process < n) calls.items }
    requires fits { All (λ c. E.fits engine (object_call (script_call_of c))) calls.items }
    requires steps { All (λ t. t.process < n) schedule.now }
    ensures makers { IfOk result (λ v. AreMakersOf (E.meaning engine) (E.ready engine) n opening.now (scripts_in calls.items) (steps_of schedule.now) v.items) }
    ensures fault { IfErr result (λ e. e ≡ Faults.NoMemory) }
{
    let mut machine = Machine::new(alloc, engine, n, opening)?;
    submit_all(alloc, &mut machine, calls)?;
    let mut makers = Vec::new(alloc);
    take_all(&mut machine, schedule, &mut makers)?;
    Ok(makers)
}

/// The turns of a schedule, with the makers of the events that they show.
fn take_all<E: Engine>(
    machine: &mut Machine<E>,
    schedule: &[Turns],
    makers: &mut Vec<usize>,
) -> Result<(), NoMemory>
    requires { All (λ t. t.process < machine.old.sizes.processes) schedule.now }
    ensures { OnOk result (makers.new.items ≡ makers.old.items ++ makers_in (E.meaning machine.old.engine) machine.old.sizes (steps_of schedule.now) machine.old.state) }
{
    for turns in schedule {
        take_turns(machine, turns.process, turns.count, makers)?;
    }
    Ok(())
}

/// So many steps of a process, with the makers of the events that they show.
fn take_turns<E: Engine>(
    machine: &mut Machine<E>,
    p: usize,
    count: u64,
    makers: &mut Vec<usize>,
) -> Result<(), NoMemory>
    requires { p < machine.old.sizes.processes }
    ensures object { OnOk result (IsSameObject machine.new machine.old) }
    ensures state { OnOk result (machine.new.state ≡ run (E.meaning machine.old.engine) machine.old.sizes (turns (replicate count p)) machine.old.state) }
    ensures makers { OnOk result (makers.new.items ≡ makers.old.items ++ makers_in (E.meaning machine.old.engine) machine.old.sizes (replicate count p) machine.old.state) }
{
    let mut taken = 0;
    while taken < count {
        take_turn(machine, p, makers)?;
        taken += 1;
        taken += machine.go_on(p, count - taken);
    }
    Ok(())
}

/// A step of a process, which is the maker where an event was seen.
fn take_turn<E: Engine>(
    machine: &mut Machine<E>,
    p: usize,
    makers: &mut Vec<usize>,
) -> Result<(), NoMemory>
    requires { p < machine.old.sizes.processes }
    ensures object { OnOk result (IsSameObject machine.new machine.old) }
    ensures state { OnOk result (machine.new.state ≡ step_of (E.meaning machine.old.engine) machine.old.sizes machine.old.state p) }
    ensures makers { OnOk result (makers.new.items ≡ makers.old.items ++ maker_at (E.meaning machine.old.engine) machine.old.sizes machine.old.state p) }
{
    let seen = machine.history().len();
    step_once(machine, p)?;
    if seen < machine.history().len() {
        makers.push(p)?;
    }
    Ok(())
}
