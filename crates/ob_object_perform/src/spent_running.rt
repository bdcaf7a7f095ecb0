//! Runs of calls and items on an object, and the calls that ended in them.

ghost use Rattle.std.specs.Prelude.{◌≡◌, ◌<◌, ◌≤◌, IfErr, IfOk};
ghost use Rattle.ob_checked.specs.CheckedModule.{program_in};
ghost use Rattle.ob_object_compile.specs.View.{object_in};
ghost use Rattle.ob_object_perform.specs.Performance.{IsMeantIn, IsReady, IsRunFault, Shows, ShowsNone};
ghost use Rattle.ob_text_record.specs.Record.{record_of};
ghost use Rattle.ob_object_perform.specs.Spent.{AreEndedIn};

use crate::perform_running::{Beginning, run_to_repeat};
use ob_checked::checked::Checked;
use ob_interface::MOST_PROCESSES;
use ob_object_compile::Object;
use ob_object_run::laws::states_are_objects;
use ob_text_record::Record;
use ob_text_scripts::Scripts;
use ob_text_words::Item;
use std::alloc::Global;
use wf_play::{EndedCall, PlayFault, ended_calls};

/// A run of calls and items on an object: its checked module, the record, and each call that ended with its own steps. These are
/// not in the record: the turns of its schedule are taken once more.
pub(crate) fn run_with_steps(
    alloc: Global,
    object: Object,
    calls: Scripts,
    items: Vec<Item>,
) -> Result<(Checked, Record, Vec<EndedCall>), PlayFault>
    requires ready { IsReady (object_in object) calls items.items }
    requires some { 0 < (object_in object).processes }
    requires few { (object_in object).processes ≤ MOST_PROCESSES }
    ensures program { IfOk result (λ r. program_in r.0 ≡ (object_in object).program) }
    ensures shows { IfOk result (λ r. Shows (object_in object) calls items.items (record_of r.1)) }
    ensures meant { IfOk result (λ r. IsMeantIn (object_in object) (record_of r.1)) }
    ensures ended { IfOk result (λ r. AreEndedIn (object_in object) calls (record_of r.1) r.2.items) }
    ensures fault { IfErr result (IsRunFault (object_in object) calls items.items) }
    ensures none { IfErr result (ShowsNone (object_in object) calls items.items) }
{
    // This does nothing: a state is an object over its engine.
    states_are_objects();
    let (checked, record, again) = run_to_repeat(alloc, object, calls, items)?;
    let Beginning {
        processes,
        engine,
        opening,
        calls,
    } = again;
    let ended = ended_calls(
        alloc,
        engine,
        processes,
        opening.as_slice(),
        calls.into_calls(),
        record.schedule.as_slice(),
    )?;
    Ok((checked, record, ended))
}
