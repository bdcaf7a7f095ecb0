//! What is shown of a history.

ghost use Rattle.std.specs.Prelude.{IfErr, IfOk, Option};
ghost use Rattle.ob_checked.specs.CheckedModule.{program_in};
ghost use Rattle.ob_object_run.specs.LegalOrder.{CallEnds};
ghost use Rattle.ob_object_draw.specs.DrawHistoryFaults.{HasDrawFault, TellsMemoryApart};
ghost use Rattle.ob_object_draw.specs.Parts.{Shows};
ghost use Rattle.ob_object_search.specs.Heard.{IsHeard};
ghost use Rattle.ob_object_calls.specs.Beginnings.{BeginsPlaced, TrapsPlaced};
ghost use Rattle.ob_picture_chart.specs.declared.charts.CallRange.{CallRange};

use crate::drawn_part::{Part, legal_part};
use crate::picture_faults::DrawHistoryFault;
use ob_checked::checked::Checked;
use ob_object_search::naming_history::named_history;
use ob_object_search::order_recording::Heard;
use ob_object_search::{ModuleObject, Search};
use std::alloc::Global;
use wf_history::History;
use wf_lookup::process_count;

/// The events of a history, how many processes they need, and which of them are shown.
#[derive(Drop)]
pub struct Shown {
    pub events: History,
    pub processes: usize,
    pub part: Part,
}

/// What is shown of what is heard of a text.
pub fn shown_of(
    alloc: Global,
    checked: &Checked,
    heard: &Heard,
    _text: &[u8],
    search: &Search,
) -> Result<Shown, DrawHistoryFault>
    requires { IsHeard (program_in checked.now) _text.now search.now.budget heard.now }
    ensures shown { IfOk result (λ s. Shows (program_in checked.now) _text.now search.now.budget «s») }
    ensures fault { (calls : Option CallRange) → IfErr result (HasDrawFault BeginsPlaced TrapsPlaced CallEnds (program_in checked.now) _text.now search.now.budget search.now.most calls) }
    ensures memory { IfErr result TellsMemoryApart }
{
    let names = heard.read.processes.as_slice();
    let history = named_history(alloc, names, &heard.read.history)?;
    let Some(processes) = process_count(history.events()) else {
        return Err(DrawHistoryFault::Processes);
    };
    let object = ModuleObject::new(alloc, checked, &heard.opening, heard.budget)?;
    let part = legal_part(alloc, &object, names, &heard.read.history, search)?;
    Ok(Shown {
        events: history,
        processes,
        part,
    })
}
