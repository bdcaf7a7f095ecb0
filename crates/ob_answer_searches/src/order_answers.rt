//! The answers of `order`. Of a module's text they have the beginning: a module of more bytes is too long.

ghost use Rattle.std.specs.Prelude.{◌≡◌, ◌≢◌, ◌++◌, IfOk, codes};
ghost use Rattle.ob_answer_files.specs.Printed.{IsRefused};
ghost use Rattle.ob_answer_files.specs.Reads.{OfWhole};
ghost use Rattle.ob_answer_searches.specs.Orders.{ArePartsAnswer, IsOrderAnswer, IsOrderRecordAnswer, IsProductAnswer};
ghost use Rattle.ob_fault_lines.specs.SearchFaultLines.{search_fault_line};
ghost use Rattle.ob_object_search.specs.RecordingFaults.{no_memory};
ghost use Rattle.ob_fault_lines.specs.PartsFaultLines.{parts_fault_line};
ghost use Rattle.ob_fault_lines.specs.RecordingFaultLines.{recording_fault_line};

use crate::orders::{order_line, part_lines};
use ob_answer_files::answered::{Answer, refused};
use ob_command::{OrderCommand, OrderProduct};
use ob_fault_lines::parts_faults::parts_fault_line;
use ob_fault_lines::recording_faults::recording_fault_line;
use ob_fault_lines::search_faults::search_fault_line;
use ob_interface::NoMemory;
use ob_object_search::{
    PartsFault, RecordingFault, Search, SearchFault, record_of_text, search_parts_text, search_text,
};
use std::alloc::Global;
use std::hash::RandomState;
use std::random::RandomSource;

/// The answer to `order`, of the beginning of a module's text and the text of a history.
pub fn answer_order<R: RandomSource>(
    rt: &R,
    alloc: Global,
    order: OrderCommand<'_>,
    module: &[u8],
    history: &[u8],
) -> Result<Answer, NoMemory>
    ensures { IfOk result (OfWhole «module».now (λ whole.
        IsProductAnswer order.entry.product whole history.now order.entry.budget order.entry.most)) }
{
    let search = search_by(rt, order.budget, order.most)?;
    answer_product(alloc, module, history, &search, order.product)
}

/// The search that words ask for. Want of random bytes is told as want of memory: as that it comes and goes with what the machine has,
/// and says nothing of the history.
pub(crate) fn search_by<R: RandomSource>(
    rt: &R,
    budget: Option<u32>,
    most: u32,
) -> Result<Search, NoMemory>
    ensures budget { IfOk result (λ search. search.budget ≡ budget) }
    ensures most { IfOk result (λ search. search.most ≡ most) }
{
    let Ok(keys) = RandomState::new(rt) else {
        return Err(NoMemory);
    };
    Ok(Search {
        budget: turns_of(budget),
        most: most as usize,
        keys,
    })
}

fn turns_of(budget: Option<u32>) -> Option<u64>
    ensures { result ≡ budget }
{
    match budget {
        Some(budget) => Some(u64::from(budget)),
        None => None,
    }
}

/// The same by a search, of what is printed of an order.
fn answer_product(
    alloc: Global,
    module: &[u8],
    history: &[u8],
    search: &Search,
    product: OrderProduct,
) -> Result<Answer, NoMemory>
    ensures { IfOk result (OfWhole «module».now (λ whole. IsProductAnswer product whole history.now search.now.budget search.now.most)) }
{
    match product {
        OrderProduct::Line => answer_line(alloc, module, history, search),
        OrderProduct::WholeRecord => answer_record(alloc, module, history, search),
        OrderProduct::Apart(by) => answer_parts(alloc, module, history, usize::from(by), search),
    }
}

/// The answer that is the line of an order.
fn answer_line(
    alloc: Global,
    module: &[u8],
    history: &[u8],
    search: &Search,
) -> Result<Answer, NoMemory>
    ensures { IfOk result (OfWhole «module».now (λ whole. IsOrderAnswer whole history.now search.now.budget search.now.most)) }
{
    match search_text(alloc, module, history, search) {
        Ok(order) => Ok(Answer::printed(alloc, order_line(alloc, order.as_slice())?)),
        Err(fault) => search_refused(alloc, fault),
    }
}

/// The answer that is the record of a history with an order.
fn answer_record(
    alloc: Global,
    module: &[u8],
    history: &[u8],
    search: &Search,
) -> Result<Answer, NoMemory>
    ensures { IfOk result (OfWhole «module».now (λ whole. IsOrderRecordAnswer whole history.now search.now.budget search.now.most)) }
{
    match record_of_text(alloc, module, history, search) {
        Ok(text) => Ok(Answer::printed(alloc, text)),
        Err(fault) => recording_refused(alloc, fault),
    }
}

/// The answer to a fault of such a record.
fn recording_refused(alloc: Global, fault: RecordingFault) -> Result<Answer, NoMemory>
    ensures fault { IfOk result (λ a. IsRefused a 1 (recording_fault_line fault ++ codes "\n")) }
    ensures memory { IfOk result (λ _. fault ≢ no_memory) }
{
    match fault {
        RecordingFault::Search(SearchFault::NoMemory) => Err(NoMemory),
        fault => Ok(refused(alloc, recording_fault_line(alloc, fault)?)?),
    }
}

/// The answer that has a line of an order for each value of an argument.
fn answer_parts(
    alloc: Global,
    module: &[u8],
    history: &[u8],
    by: usize,
    search: &Search,
) -> Result<Answer, NoMemory>
    ensures { IfOk result (OfWhole «module».now (λ whole. ArePartsAnswer by whole history.now search.now.budget search.now.most)) }
{
    match search_parts_text(alloc, module, history, by, search) {
        Ok(parts) => Ok(Answer::printed(alloc, part_lines(alloc, parts.as_slice())?)),
        Err(fault) => parts_refused(alloc, fault),
    }
}

/// The answer to a fault of parts.
fn parts_refused(alloc: Global, fault: PartsFault) -> Result<Answer, NoMemory>
    ensures fault { IfOk result (λ a. IsRefused a 1 (parts_fault_line fault ++ codes "\n")) }
    ensures memory { IfOk result (λ _. fault ≢ PartsFault.NoMemory) }
{
    match fault {
        PartsFault::NoMemory => Err(NoMemory),
        fault => Ok(refused(alloc, parts_fault_line(alloc, fault)?)?),
    }
}

/// The answer to a fault of a search.
fn search_refused(alloc: Global, fault: SearchFault) -> Result<Answer, NoMemory>
    ensures fault { IfOk result (λ a. IsRefused a 1 (search_fault_line fault ++ codes "\n")) }
    ensures memory { IfOk result (λ _. fault ≢ SearchFault.NoMemory) }
{
    match fault {
        SearchFault::NoMemory => Err(NoMemory),
        fault => Ok(refused(alloc, search_fault_line(alloc, fault)?)?),
    }
}
