//! The answer of `explain` on a history. Of a module's text it has the beginning: a module of more bytes is too long.

ghost use Rattle.std.specs.Prelude.{◌≡◌, ◌≢◌, None, IfOk};
ghost use Rattle.ob_answer_files.specs.Reads.{OfWhole};
ghost use Rattle.ob_answer_searches.specs.ExplainedOrders.{IsHistoryExplained, IsHistoryFaultShown};
ghost use Rattle.ob_command.specs.CommandLine.{default_most};

use crate::order_answers::search_by;
use ob_answer_explained::shown_faults::{shown_name, shown_or};
use ob_answer_files::answered::Answer;
use ob_explained::Source;
use ob_explained_records::history_explanation;
use ob_fault_lines::search_faults::search_fault_line;
use ob_interface::NoMemory;
use ob_object_search::{Search, SearchFault, search_text};
use std::alloc::Global;
use std::random::RandomSource;

/// How many configurations are looked at.
const MOST: u32 = 10_000_000;

/// The names and the bytes of the files of a module, of which it is the beginning, and of a history.
#[derive(Clone, Copy)]
pub struct HistoryFiles<'a> {
    pub module_name: &'a str,
    pub text: &'a [u8],
    pub history_name: &'a str,
    pub history: &'a [u8],
}

/// The answer to a module and a history.
pub fn explain_history<R: RandomSource>(
    rt: &R,
    alloc: Global,
    files: HistoryFiles<'_>,
) -> Result<Answer, NoMemory>
    ensures { IfOk result (OfWhole files.entry.text.now (λ whole.
        IsHistoryExplained files.entry.module_name.now whole files.entry.history_name.now files.entry.history.now)) }
{
    let search = search_by(rt, None, MOST)?;
    explain_search(alloc, files, &search)
}

/// The same by a search for an order.
fn explain_search(
    alloc: Global,
    files: HistoryFiles<'_>,
    search: &Search,
) -> Result<Answer, NoMemory>
    requires budget { search.now.budget ≡ None }
    requires most { search.now.most ≡ default_most }
    ensures { IfOk result (OfWhole files.entry.text.now (λ whole.
        IsHistoryExplained files.entry.module_name.now whole files.entry.history_name.now files.entry.history.now)) }
{
    match search_text(alloc, files.text, files.history, search) {
        Ok(_order) => Ok(Answer::printed(alloc, String::from_str(alloc, "ok\n")?)),
        Err(fault) => history_wrong(alloc, files, search, fault),
    }
}

/// The answer to a fault of a history.
fn history_wrong(
    alloc: Global,
    files: HistoryFiles<'_>,
    search: &Search,
    fault: SearchFault,
) -> Result<Answer, NoMemory>
    ensures fault { IfOk result (IsHistoryFaultShown files.entry.module_name.now files.entry.text.now files.entry.history_name.now files.entry.history.now fault) }
    ensures memory { IfOk result (λ _. fault ≢ SearchFault.NoMemory) }
{
    if let SearchFault::NoMemory = fault {
        return Err(NoMemory);
    }
    let module_shown = shown_name(alloc, files.module_name)?;
    let history_shown = shown_name(alloc, files.history_name)?;
    let object = Source {
        name: &module_shown,
        text: files.text,
    };
    let file = Source {
        name: &history_shown,
        text: files.history,
    };
    let told = history_explanation(alloc, object, file, search, fault)?;
    let line = search_fault_line(alloc, fault)?;
    Ok(shown_or(alloc, told, line)?)
}
