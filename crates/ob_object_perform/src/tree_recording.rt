//! Runs over a module's tree, and their records.

ghost use Rattle.std.specs.Prelude.{◌≡◌, ◌<◌, All, IfOk, IfErr};
ghost use Rattle.ob_code_correct.specs.Compiled.{IsFitting};
ghost use Rattle.ob_layout.specs.Layout.{parts_of};
ghost use Rattle.ob_code_scheme.specs.Layout.{encoded};
ghost use Rattle.ob_text_record.specs.Record.{record_of};
ghost use Rattle.ob_object_run.specs.Recorded.{DoFit, IsMeantFor, IsNoRun, IsObject, IsRecorded, scripts_in};
ghost use Rattle.ob_text_words.specs.Schedule.{process_of};
ghost use Rattle.ob_store.specs.View.{state_of};
ghost use Rattle.ob_text_words.specs.ScriptCalls.{object_call, script_call_of};
ghost use Rattle.ob_tree.specs.View.{tree_parts_in};
ghost use Rattle.wf_history.specs.History.{IsHistory};

use ob_code_correct::laws::orders_are_carried;
use ob_interface::NoMemory;
use ob_layout::{Layout, encode};
use ob_store::state::State;
use ob_text_record::Record;
use ob_text_words::Item;
use ob_text_words::script_call::ScriptCall;
use ob_tree::TreeEngine;
use std::alloc::Global;
use wf_object::Machine;
use wf_play::{PlayFault, play};

/// The record of a run of the calls of scripts and of the items of a schedule, on an object of n processes over the engine of a
/// program's tree that the layout is of, from this state on.
pub(crate) fn record_tree_run(
    alloc: Global,
    engine: TreeEngine<'_>,
    n: usize,
    layout: &Layout,
    opening: &State,
    calls: Vec<ScriptCall>,
    items: &[Item],
) -> Result<Record, PlayFault>
    requires object { IsObject (parts_of layout.now).variables (tree_parts_in engine) (encoded (state_of opening.now)) }
    requires callers { All (λ c. c.process < n) calls.items }
    requires fits { All (λ c. IsFitting (tree_parts_in engine).exports (object_call (script_call_of c))) calls.items }
    requires items { All (λ item. process_of item < n) items.now }
    ensures recorded { IfOk result (λ r. IsRecorded (tree_parts_in engine.entry) n (encoded (state_of opening.now)) (scripts_in calls.items) items.now (record_of r)) }
    ensures meant { IfOk result (λ r. IsMeantFor (parts_of layout.now).variables (tree_parts_in engine.entry) (encoded (state_of opening.now)) (record_of r)) }
    ensures whole { IfOk result (λ r. IsHistory r.history) }
    ensures fault { IfErr result (IsNoRun (tree_parts_in engine.entry) n (encoded (state_of opening.now)) (scripts_in calls.items) items.now) }
{
    let words = encode(alloc, opening)?;
    let machine = play(alloc, engine, n, words.as_slice(), calls, items)?;
    Ok(recorded(alloc, machine, n, layout)?)
}

/// What a machine's run showed, over the engine of a program's tree that the layout is of.
fn recorded(
    alloc: Global,
    machine: Machine<TreeEngine<'_>>,
    processes: usize,
    layout: &Layout,
) -> Result<Record, NoMemory>
    requires { ∥ IsObject (parts_of layout.now).variables (tree_parts_in machine.engine) machine.opening ∥₁ }
    ensures processes { IfOk result (λ r. r.processes ≡ processes) }
    ensures budget { IfOk result (λ r. r.budget ≡ (tree_parts_in machine.entry.engine).budget) }
    ensures history { IfOk result (λ r. r.history ≡ machine.entry.state.records.history) }
    ensures order { IfOk result (λ r. r.order.items ≡ machine.entry.state.records.order) }
    ensures schedule { IfOk result (λ r. r.schedule.items ≡ machine.entry.state.records.schedule) }
    ensures begun { IfOk result (λ r. DoFit (tree_parts_in machine.entry.engine) r.history) }
    ensures whole { IfOk result (λ r. IsHistory r.history) }
    ensures meant { IfOk result (λ r. IsMeantFor (parts_of layout.now).variables (tree_parts_in machine.entry.engine) machine.entry.opening (record_of r)) }
{
    // This does nothing: what calls come to by position is what they mean by name.
    orders_are_carried();
    machine.keeps();
    let _ = machine.order();
    let budget = machine.engine().budget();
    let Some(state) = layout.decode(alloc, machine.variables())? else {
        unreachable!()
    };
    let (_, history, order, schedule) = machine.into_parts();
    Ok(Record {
        processes,
        budget,
        history,
        order,
        schedule,
        state,
        carried: None,
    })
}
