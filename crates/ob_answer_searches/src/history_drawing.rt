//! The answers of `draw` on a history. Of a module's text they have the beginning: a module of more bytes is too long.

ghost use Rattle.std.specs.Prelude.{◌≡◌, ◌≢◌, ◌++◌, IfOk, codes};
ghost use Rattle.ob_answer_files.specs.Printed.{IsRefused};
ghost use Rattle.ob_answer_files.specs.Reads.{OfWhole};
ghost use Rattle.ob_answer_searches.specs.HistoryPictureAnswers.{IsHistoryPictureAnswer};
ghost use Rattle.ob_object_draw.specs.DrawHistoryFaults.{no_memory};
ghost use Rattle.ob_fault_lines.specs.HistoryFaultLines.{draw_history_fault_line};

use crate::order_answers::search_by;
use ob_answer_files::answered::{Answer, refused};
use ob_fault_lines::history_faults::draw_history_fault_line;
use ob_interface::NoMemory;
use ob_object_draw::{DrawHistoryFault, draw_history_text};
use ob_object_search::{Search, SearchFault};
use ob_picture_chart::CallRange;
use std::alloc::Global;
use std::random::RandomSource;

/// How a history is drawn: with which budget of its calls, where one is given, how many configurations are looked at, and which calls are
/// drawn.
#[derive(Clone, Copy)]
pub struct HistoryDrawing {
    pub budget: Option<u32>,
    pub most: u32,
    pub calls: Option<CallRange>,
}

/// The answer to `draw`, of the beginning of a module's text and the text of a history, of some calls or of all.
pub fn answer_draw_history<R: RandomSource>(
    rt: &R,
    alloc: Global,
    module: &[u8],
    history: &[u8],
    drawing: HistoryDrawing,
) -> Result<Answer, NoMemory>
    ensures { IfOk result (OfWhole «module».now (λ whole. IsHistoryPictureAnswer drawing.calls whole history.now drawing.budget drawing.most)) }
{
    let search = search_by(rt, drawing.budget, drawing.most)?;
    answer_drawn(alloc, module, history, &search, drawing.calls)
}

/// The same by a search.
fn answer_drawn(
    alloc: Global,
    module: &[u8],
    history: &[u8],
    search: &Search,
    calls: Option<CallRange>,
) -> Result<Answer, NoMemory>
    ensures { IfOk result (OfWhole «module».now (λ whole. IsHistoryPictureAnswer calls whole history.now search.now.budget search.now.most)) }
{
    match draw_history_text(alloc, module, history, search, calls) {
        Ok(picture) => Ok(Answer::printed(alloc, picture)),
        Err(fault) => picture_refused(alloc, fault),
    }
}

/// The answer to a fault of a history's picture.
fn picture_refused(alloc: Global, fault: DrawHistoryFault) -> Result<Answer, NoMemory>
    ensures fault { IfOk result (λ a. IsRefused a 1 (draw_history_fault_line fault ++ codes "\n")) }
    ensures memory { IfOk result (λ _. fault ≢ no_memory) }
{
    match fault {
        DrawHistoryFault::Search(SearchFault::NoMemory) => Err(NoMemory),
        fault => Ok(refused(alloc, draw_history_fault_line(alloc, fault)?)?),
    }
}
