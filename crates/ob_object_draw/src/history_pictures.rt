//! Histories as pictures.

ghost use Rattle.std.specs.Prelude.{◌≡◌, ◌<◌, ◌≤◌, Err, IfErr, IfOk, ℕ, length, map, option_map, string_bytes, take};
ghost use Rattle.ob_checked.specs.CheckedModule.{program_in};
ghost use Rattle.ob_interface.specs.Processes.{most_processes};
ghost use Rattle.ob_interface.specs.View.{signature_of};
ghost use Rattle.ob_object_draw.specs.Marks.{id_of};
ghost use Rattle.ob_object_run.specs.LegalOrder.{CallEnds};
ghost use Rattle.ob_object_draw.specs.DrawHistoryFaults.{HasDrawFault, IsDrawHistoryFault, RulesOut, TellsMemoryApart, too_long};
ghost use Rattle.ob_object_draw.specs.HistoryPictures.{AreDrawn, AreDrawnMarked, HasNoPicture, HasPicture, IsHistoryPicture, begun_with};
ghost use Rattle.ob_object_calls.specs.Beginnings.{BeginsPlaced, TrapsPlaced};
ghost use Rattle.ob_picture_chart.specs.Faults.{IsRangeFault};
ghost use Rattle.ob_picture_chart.specs.ChartView.{mark_of};

use crate::marking::{Marked, mark_of};
use crate::picture_faults::DrawHistoryFault;
use crate::shown_history::{Shown, shown_of};
use ob_check::module_text::checked_text;
use ob_checked::checked::Checked;
use ob_interface::export::Export;
use ob_object_search::Search;
use ob_object_search::order_recording::hear;
use ob_picture::picture;
use ob_picture_chart::{CallRange, Mark, PictureFault, chart_of, placed_moments};
use ob_scan::scanner::LONGEST_TEXT;
use std::alloc::{AllocError, Global};
use wf_history::CallId;

/// The picture of a history of a module's object, by a legal order that is found: an SVG. Where it has none, it is drawn up to the
/// first end with which it has none, by a legal order of the events before, and the call that ends there is marked.
pub fn draw_history_text(
    alloc: Global,
    module: &[u8],
    history: &[u8],
    search: &Search,
    calls: Option<CallRange>,
) -> Result<String, DrawHistoryFault>
    ensures picture { IfOk result (λ text. IsHistoryPicture «module».now history.now search.now.budget calls (string_bytes text)) }
    ensures fault { IfErr result (IsDrawHistoryFault «module».now history.now search.now.budget search.now.most calls) }

    // With a fault that has a number, but for X2, the texts have no such picture.
    ensures none { IfErr result (λ e. RulesOut e → HasNoPicture «module».now history.now search.now.budget calls) }

    // Want of memory is told by its own variant alone.
    ensures memory { IfErr result TellsMemoryApart }

    // A module's text over the scanner's bound is refused, whatever it says.
    ensures too_long { LONGEST_TEXT < length «module».now → result ≡ Err too_long }
{
    let checked = checked_text(alloc, module)?;
    draw_checked(alloc, &checked, history, search, calls)
}

/// The same, of a checked module, where variables go by their positions.
fn draw_checked(
    alloc: Global,
    checked: &Checked,
    text: &[u8],
    search: &Search,
    calls: Option<CallRange>,
) -> Result<String, DrawHistoryFault>
    ensures picture { IfOk result (λ drawn. HasPicture BeginsPlaced CallEnds (program_in checked.now) text.now search.now.budget calls (string_bytes drawn)) }
    ensures fault { IfErr result (HasDrawFault BeginsPlaced TrapsPlaced CallEnds (program_in checked.now) text.now search.now.budget search.now.most calls) }
    ensures memory { IfErr result TellsMemoryApart }
{
    // No order is looked for yet, so that no X1 is told.
    let heard = hear(alloc, checked, text, search.budget)?;
    let shown = shown_of(alloc, checked, &heard, text, search)?;
    Ok(draw_shown(alloc, checked.exports(), &shown, calls)?)
}

/// The picture of what is shown.
fn draw_shown(
    alloc: Global,
    exports: &[Export],
    shown: &Shown,
    calls: Option<CallRange>,
) -> Result<String, PictureFault>
    requires few { shown.now.processes ≤ most_processes }
    requires within { shown.now.part.count ≤ length shown.now.events }
    ensures picture { IfOk result (λ text. AreDrawnMarked (map signature_of exports.now) shown.now.processes (take shown.now.part.count shown.now.events)
        shown.now.part.order.items shown.now.part.ceases calls (string_bytes text)) }
    ensures fault { IfErr result (IsRangeFault (begun_with (take shown.now.part.count shown.now.events) shown.now.part.order.items) calls) }
{
    let marked = marked_call(alloc, shown.part.ceases)?;
    draw_part(alloc, exports, shown, mark_of(&marked), calls)
}

/// The same, with a mark.
fn draw_part(
    alloc: Global,
    exports: &[Export],
    shown: &Shown,
    mark: Option<Mark>,
    calls: Option<CallRange>,
) -> Result<String, PictureFault>
    requires few { shown.now.processes ≤ most_processes }
    requires within { shown.now.part.count ≤ length shown.now.events }
    ensures picture { IfOk result (λ text. AreDrawn (map signature_of exports.now) shown.now.processes (take shown.now.part.count shown.now.events)
        shown.now.part.order.items (option_map mark_of mark.entry) calls (string_bytes text)) }
    ensures fault { IfErr result (IsRangeFault (begun_with (take shown.now.part.count shown.now.events) shown.now.part.order.items) calls) }
{
    let part = &shown.part;
    let moments = placed_moments(alloc, &shown.events.events()[..part.count], &part.order)?;
    let mut chart = chart_of(alloc, shown.processes, &moments, &part.order, calls)?;
    chart.mark = mark;
    Ok(picture(alloc, exports, &chart)?)
}

/// The call that is marked, if one is, with a line that says why.
fn marked_call(alloc: Global, ceases: Option<CallId>) -> Result<Option<Marked>, AllocError>
    ensures { IfOk result (λ marked. option_map id_of marked ≡ ceases) }
{
    let Some(id) = ceases else {
        return Ok(None);
    };
    let words = format!(in alloc;
        "X1 {id}: up to its end there is no legal order, and before it there is this one"
    )?;
    Ok(Some(Marked { id, words }))
}
