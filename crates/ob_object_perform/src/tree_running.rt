//! Runs of calls and items on an object over its tree.

ghost use Rattle.std.specs.Prelude.{◌≤◌, IfErr, IfOk};
ghost use Rattle.ob_meaning.specs.ByNameObject.{most_turns};
ghost use Rattle.ob_object_compile.specs.View.{tree_object_in};
ghost use Rattle.ob_object_perform.specs.Performance.{IsMeantIn, IsReady, IsRunFault, Shows, ShowsNone};
ghost use Rattle.ob_text_record.specs.Record.{record_of};
ghost use Rattle.wf_history.specs.History.{IsHistory};

use crate::tree_recording::record_tree_run;
use ob_object_compile::TreeObject;
use ob_object_run::laws::states_are_objects;
use ob_text_record::{Record, carried_copy};
use ob_text_scripts::Scripts;
use ob_text_words::Item;
use ob_tree::TreeEngine;
use std::alloc::Global;
use wf_play::PlayFault;

/// The record of a run of calls and items on an object over its tree.
pub(crate) fn run_on_tree(
    alloc: Global,
    object: &TreeObject,
    calls: Scripts,
    items: Vec<Item>,
) -> Result<Record, PlayFault>
    requires ready { IsReady (tree_object_in object.now) calls items.items }
    requires within { (tree_object_in object.now).engine.budget ≤ most_turns }
    ensures shows { IfOk result (λ r. Shows (tree_object_in object.now) calls items.items (record_of r)) }
    ensures meant { IfOk result (λ r. IsMeantIn (tree_object_in object.now) (record_of r)) }
    ensures whole { IfOk result (λ r. IsHistory r.history) }
    ensures fault { IfErr result (IsRunFault (tree_object_in object.now) calls items.items) }
    ensures none { IfErr result (ShowsNone (tree_object_in object.now) calls items.items) }
{
    // This does nothing: a state is an object over its engine.
    states_are_objects();
    let layout = object.layout();
    let engine = TreeEngine::new(alloc, object.checked(), layout, object.budget())?;
    let record = record_tree_run(
        alloc,
        engine,
        object.processes(),
        layout,
        object.opening(),
        calls.into_calls(),
        items.as_slice(),
    )?;
    let carried = carried_copy(alloc, object.opening(), object.carried())?;
    Ok(record.begun_by(carried))
}
