//! The calls of scripts and the items of a schedule, played on a machine.

ghost use Rattle.std.specs.Prelude.{◌≡◌, ◌<◌, ◌⊎◌, ◌↔◌, Err, All, IfOk, IfErr, OnOk};
ghost use Rattle.ob_interface.specs.View.{call_of};
ghost use Rattle.ob_text_words.specs.Schedule.{process_of};
ghost use Rattle.ob_text_words.specs.ScriptCalls.{object_call, script_call_of};
ghost use Rattle.wf_play.specs.Played.{IsItemFault, IsPlayedObject, IsPlayFault, IsSameObject, scripts_in};
ghost use Rattle.wf_play.specs.ItemSteps.{HasPlayed};
ghost use Rattle.wf_play.specs.declared.playing.PlayFault.TheVariants as Faults;
ghost use Rattle.wf_table.specs.Runs.{run, submissions};
ghost use Rattle.wf_table.specs.Start.{sizes_of};

use crate::played_item::play_item;
use ob_interface::NoMemory;
use ob_interface::call::Call;
use ob_text_words::Item;
use ob_text_words::script_call::ScriptCall;
use smallvec::SmallVec;
use std::alloc::{AllocError, Global};
use thiserror::Error;
use wf_object::{CellFault, Engine, Machine};

/// The most steps of an item.
const MOST_STEPS: u64 = 1_000_000;

/// Why there is no run. Items count from 1.
#[derive(Clone, Copy, Debug, Error)]
pub enum PlayFault {
    /// N1: the number of processes is not 1 to 16.
    #[error("N1")]
    Processes,
    /// Q3: the item stands for more steps than an item may take.
    #[error("Q3 item {0}")]
    TooLong(usize),
    /// Want of memory.
    #[error("NoMemory")]
    NoMemory,
}

impl From<CellFault> for PlayFault {
    ghost use Rattle.std.specs.Prelude.{◌≡◌};
    ghost use Rattle.wf_play.specs.Played.{of_new};

    ghost from_gives = { λ e f. f ≡ of_new e };

    fn from(fault: CellFault) -> PlayFault {
        match fault {
            CellFault::Processes => PlayFault::Processes,
            CellFault::NoMemory => PlayFault::NoMemory,
        }
    }
}

impl From<NoMemory> for PlayFault {
    ghost use Rattle.std.specs.Prelude.{◌≡◌};
    ghost use Rattle.wf_play.specs.declared.playing.PlayFault.TheVariants as Faults;

    ghost from_gives = { λ _ f. f ≡ Faults.NoMemory };

    fn from(_: NoMemory) -> PlayFault {
        PlayFault::NoMemory
    }
}

/// An object of n processes that begins with a lawful block, with the calls of the scripts submitted in order, behind the
/// items of a schedule.
pub fn play<E: Engine>(
    alloc: Global,
    engine: E,
    n: usize,
    opening: &[i64],
    calls: Vec<ScriptCall>,
    items: &[Item],
) -> Result<Machine<E>, PlayFault>
    requires opening { E.lawful engine opening.now }
    requires callers { All (λ c. c.process < n) calls.items }
    requires fits { All (λ c. E.fits engine (object_call (script_call_of c))) calls.items }
    requires items { All (λ item. process_of item < n) items.now }
    ensures processes { (result ≡ Err Faults.Processes) ↔ ((n ≡ 0) ⊎ (16 < n)) }
    ensures engine { IfOk result (λ machine. machine.engine ≡ engine) }
    ensures sizes { IfOk result (λ machine. machine.sizes ≡ sizes_of (E.meaning engine) n) }
    ensures opening { IfOk result (λ machine. machine.opening ≡ opening.now) }
    ensures played { IfOk result (IsPlayedObject (E.meaning engine) (E.lawful engine) (E.fits engine) (E.ready engine) n opening.now calls.items items.now) }
    ensures fault { IfErr result (λ e. IsPlayFault (E.meaning engine) (E.ready engine) n opening.now (scripts_in calls.items) items.now e) }
{
    let mut machine = Machine::new(alloc, engine, n, opening)?;
    submit_all(alloc, &mut machine, calls)?;
    play_items(&mut machine, items, MOST_STEPS)?;
    Ok(machine)
}

/// Submits the calls, in order.
pub(crate) fn submit_all<E: Engine>(
    alloc: Global,
    machine: &mut Machine<E>,
    calls: Vec<ScriptCall>,
) -> Result<(), NoMemory>
    requires callers { All (λ c. c.process < machine.old.sizes.processes) calls.items }
    requires fits { All (λ c. E.fits machine.old.engine (object_call (script_call_of c))) calls.items }
    ensures object { OnOk result (IsSameObject machine.new machine.old) }
    ensures state { OnOk result (machine.new.state ≡ run (E.meaning machine.old.engine) machine.old.sizes (submissions (scripts_in calls.items)) machine.old.state) }
{
    for call in calls {
        let asked = asked(alloc, &call)?;
        machine.submit(call.process, asked)?;
    }
    Ok(())
}

/// What a call of a script asks of the object. Where it has no arguments, as most, nothing is copied.
#[inline]
fn asked(alloc: Global, call: &ScriptCall) -> Result<Call, AllocError>
    ensures { IfOk result (λ made. call_of made ≡ object_call (script_call_of call.now)) }
{
    if call.args.is_empty() {
        return Ok(Call {
            proc: call.proc,
            args: SmallVec::new(alloc),
        });
    }
    call.asked(alloc)
}

/// Plays the items, in order, up to the first that stands for more steps than the limit.
fn play_items<E: Engine>(
    machine: &mut Machine<E>,
    items: &[Item],
    limit: u64,
) -> Result<(), PlayFault>
    requires { All (λ item. process_of item < machine.old.sizes.processes) items.now }
    ensures object { OnOk result (IsSameObject machine.new machine.old) }
    ensures played { OnOk result (HasPlayed (E.meaning machine.old.engine) machine.old.sizes limit items.now machine.old.state machine.new.state) }
    ensures fault { IfErr result (λ e. IsItemFault (E.meaning machine.old.engine) machine.old.sizes limit items.now machine.old.state e) }
{
    for (index, item) in items.iter().enumerate() {
        if !play_item(machine, *item, limit)? {
            return Err(PlayFault::TooLong(index + 1));
        }
    }
    Ok(())
}
