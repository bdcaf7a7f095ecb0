//! Histories read.

ghost use Rattle.std.specs.Prelude.{◌≡◌, length, map, IfErr, IfOk};
ghost use Rattle.ob_checked.specs.CheckedModule.{program_in};
ghost use Rattle.ob_store.specs.View.{variables_in};
ghost use Rattle.ob_text_reading.specs.HistoryLines.{FaultStands, HistoryTold, IsHistoryFault, IsHistoryOf, IsHistoryText, said};
ghost use Rattle.ob_text_reading.specs.Names.{AreApart, AreBelow, HaveBegun};
ghost use Rattle.ob_text_reading.specs.Reading.{carried_in, told_in};
ghost use Rattle.ob_text_reading.specs.HistoryContents.{heard_of, told_of};
ghost use Rattle.ob_text_reading.specs.RecordContents.{carried_of};
ghost use Rattle.ob_text_words.specs.Words.{lines, words};

use crate::RecordFault;
use crate::line_reader::Reader;
use ob_checked::checked::Checked;
use ob_store::state::State;
use ob_store::value::Value;
use ob_text_values_reading::lines::{split_line, without_last_feed};
use std::alloc::{AllocError, Global};
use wf_history::History;

/// What a history tells: the budget of each call and the values that the object began with, where these are told, and the Begin
/// and End events. In these, processes are numbered from 0 on in the order in which they first begin a call; the text names
/// process i by the number `processes[i]`.
#[derive(Drop)]
pub struct ReadHistory {
    pub budget: Option<u64>,
    pub carried: Option<State>,
    pub processes: Vec<usize>,
    pub history: History,
}

/// What the text of a history of a module's calls tells.
pub fn read_history(
    alloc: Global,
    checked: &Checked,
    text: &[u8],
) -> Result<ReadHistory, RecordFault>
    ensures history { IfOk result (λ r. IsHistoryText (program_in checked.now) text.now (told_of «r»)) }
    ensures alone { IfOk result (λ r. (other : HistoryTold) → IsHistoryText (program_in checked.now) text.now other → other ≡ told_of «r») }
    ensures apart { IfOk result (λ r. AreApart r.processes.items) }
    ensures numbered { IfOk result (λ r. AreBelow (length r.processes.items) r.history) }
    ensures begun { IfOk result (λ r. HaveBegun r.processes.items r.history) }
    ensures fault { IfErr result (λ e. IsHistoryFault (program_in checked.now) text.now e) }
{
    match read_lines(alloc, checked, without_last_feed(text)) {
        Ok(reader) => Ok(history_of(alloc, reader)?),
        Err(fault) => Err(fault),
    }
}

/// What all lines told.
fn history_of(alloc: Global, reader: Reader) -> Result<ReadHistory, AllocError>
    ensures told { IfOk result (λ r. told_of «r» ≡ told_in (heard_of reader)) }
    ensures apart { IfOk result (λ r. AreApart r.processes.items) }
    ensures numbered { IfOk result (λ r. AreBelow (length r.processes.items) r.history) }
    ensures begun { IfOk result (λ r. HaveBegun r.processes.items r.history) }
{
    let (processes, history) = reader.calls.into_parts(alloc)?;
    Ok(ReadHistory {
        budget: reader.budget,
        carried: state_of(reader.values),
        processes,
        history,
    })
}

/// The state of some values, if there are any.
fn state_of(values: Vec<Value>) -> Option<State>
    ensures { carried_of result ≡ carried_in (variables_in values.items) }
{
    if values.is_empty() {
        return None;
    }
    Some(State::new(values))
}

/// What the lines of a text tell.
fn read_lines(alloc: Global, checked: &Checked, text: &[u8]) -> Result<Reader, RecordFault>
    ensures history { IfOk result (λ r. IsHistoryOf (program_in checked.now) (said (map words (lines text.now))) (told_in (heard_of «r»))) }
    ensures fault { IfErr result (λ e. FaultStands (program_in checked.now) (map words (lines text.now)) e) }
{
    let mut reader = Reader::new(alloc)?;
    let mut list = Vec::new(alloc);
    let mut left = Some(text);
    let mut number = 0;
    while let Some(text) = left {
        if let Some(behind) = reader.take_written(alloc, checked, text)? {
            number += 1;
            left = Some(behind);
            continue;
        }
        let (line, rest) = split_line(text);
        number += 1;
        match reader.take_line(alloc, checked, line, &mut list)? {
            Some(next) => reader = next,
            None => return Err(RecordFault::Form(number)),
        }
        left = rest;
    }
    if !reader.is_opened(checked) {
        return Err(RecordFault::Form(number + 1));
    }
    Ok(reader)
}
