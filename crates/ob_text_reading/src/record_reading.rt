//! Records read back.

ghost use Rattle.std.specs.Prelude.{◌≡◌, ◌+◌, ◌<◌, ◌^◌, ◌∷◌, [], codes, length, map, IfOk, IfErr, MatchOption};
ghost use Rattle.ob_checked.specs.CheckedModule.{program_in};
ghost use Rattle.ob_interface.specs.View.{signature_of};
ghost use Rattle.ob_text_reading.specs.Heads.{ForEachHead, TakesBudget, TakesNoBudget};
ghost use Rattle.ob_text_reading.specs.LineReading.{FaultBehind};
ghost use Rattle.ob_text_reading.specs.RecordLines.{AreLines, FaultStands, IsRecord, IsRecordFault, IsRecordOf, Told};
ghost use Rattle.ob_text_reading.specs.RecordContents.{carried_of, told_of};
ghost use Rattle.ob_text_values_reading.specs.Comments.{said};
ghost use Rattle.ob_text_values_reading.specs.RecordTexts.{lines_behind};
ghost use Rattle.ob_text_words.specs.Words.{lines, words};

use crate::head::{Head, plain_head, read_budget, read_count};
use crate::line::{Line, read_line};
use crate::opening_values::read_openings;
use crate::process_calls::Calls;
use crate::written_lines::take_written;
use ob_checked::checked::Checked;
use ob_interface::NoMemory;
use ob_interface::export::Export;
use ob_mean::openings::MOST_TURNS;
use ob_store::state::State;
use ob_text_values_reading::comments::{line_number, may_have_comments, without_comments};
use ob_text_values_reading::lines::{split_line, without_last_feed};
use ob_text_values_reading::splitting::first_other;
use ob_text_values_reading::title::{Version, read_title};
use ob_text_words::words::words_of;
use std::alloc::{AllocError, AllocFailed, Global};
use thiserror::Error;
use wf_history::{CallId, History};

/// What a record tells: how many processes there are, the budget of each call, the values that its object began with where they
/// were carried over, the Begin and End events alone, and the order of the applied calls.
#[derive(Drop)]
pub struct ReadRecord {
    pub processes: usize,
    pub budget: u64,
    pub carried: Option<State>,
    pub history: History,
    pub order: Vec<CallId>,
}

/// Why a text is no record. Lines count from 1.
#[derive(Clone, Copy, Debug, Error)]
pub enum RecordFault {
    /// F1: the line is missing, or not of its form or place.
    #[error("F1 line {0}")]
    Form(usize),
    /// Want of memory.
    #[error("NoMemory")]
    NoMemory,
}

impl From<AllocError> for RecordFault {
    ghost use Rattle.std.specs.Prelude.{◌≡◌};
    ghost use Rattle.ob_text_reading.specs.declared.record_reading.RecordFault.TheVariants.{NoMemory};

    ghost from_gives = { λ _ e. e ≡ NoMemory };

    fn from(_: AllocError) -> RecordFault {
        RecordFault::NoMemory
    }
}

impl From<NoMemory> for RecordFault {
    ghost use Rattle.std.specs.Prelude.{◌≡◌};
    ghost use Rattle.ob_text_reading.specs.declared.record_reading.RecordFault.TheVariants as Faults;

    ghost from_gives = { λ _ e. e ≡ Faults.NoMemory };

    fn from(_: NoMemory) -> RecordFault {
        RecordFault::NoMemory
    }
}

/// What the text of a record of a module's object tells.
pub fn read_record(alloc: Global, checked: &Checked, text: &[u8]) -> Result<ReadRecord, RecordFault>
    ensures record { IfOk result (λ r. IsRecord (program_in checked.now) text.now (told_of «r»)) }
    ensures alone { IfOk result (λ r. (other : Told) → IsRecord (program_in checked.now) text.now other → other ≡ told_of «r») }
    ensures fault { IfErr result (λ e. IsRecordFault (program_in checked.now) text.now e) }
{
    let text = without_last_feed(text);
    match read_said(alloc, checked, text) {
        Ok(read) => Ok(read),
        Err(RecordFault::Form(own)) => Err(RecordFault::Form(line_number(text, own))),
        Err(RecordFault::NoMemory) => Err(RecordFault::NoMemory),
    }
}

/// What the lines of a text that are no remarks tell. Those lines count from 1 here.
fn read_said(alloc: Global, checked: &Checked, text: &[u8]) -> Result<ReadRecord, RecordFault>
    ensures record { IfOk result (λ r. IsRecordOf (program_in checked.now) (said (map words (lines text.now))) (told_of «r»)) }
    ensures fault { IfErr result (λ e. FaultStands (program_in checked.now) (said (map words (lines text.now))) e) }
{
    if may_have_comments(text) {
        read_kept(alloc, checked, text)
    } else {
        read_lines(alloc, checked, text)
    }
}

/// The same, by a copy without the remarks.
fn read_kept(alloc: Global, checked: &Checked, text: &[u8]) -> Result<ReadRecord, RecordFault>
    ensures record { IfOk result (λ r. IsRecordOf (program_in checked.now) (said (map words (lines text.now))) (told_of «r»)) }
    ensures fault { IfErr result (λ e. FaultStands (program_in checked.now) (said (map words (lines text.now))) e) }
{
    let Some(kept) = without_comments(alloc, text)? else {
        return Err(RecordFault::Form(1));
    };
    read_lines(alloc, checked, &kept)
}

/// What the lines of a text tell.
fn read_lines(alloc: Global, checked: &Checked, text: &[u8]) -> Result<ReadRecord, RecordFault>
    ensures record { IfOk result (λ r. IsRecordOf (program_in checked.now) (map words (lines text.now)) (told_of «r»)) }
    ensures fault { IfErr result (λ e. FaultStands (program_in checked.now) (map words (lines text.now)) e) }
{
    let (title, behind) = split_line(text);
    let first = words_of(alloc, title)?;
    let Some(version) = read_title(&first) else {
        return Err(RecordFault::Form(1));
    };
    let Some(others) = behind else {
        return Err(RecordFault::Form(2));
    };
    let (count, rest) = split_line(others);
    let second = words_of(alloc, count)?;
    let Some(processes) = read_count(&second) else {
        return Err(RecordFault::Form(2));
    };
    match version {
        Version::First => {
            let head = plain_head(processes, MOST_TURNS, 2);
            read_behind(alloc, checked.exports(), head, rest)
        }
        Version::Second => read_second(alloc, checked, processes, rest),
        Version::Third => read_third(alloc, checked, processes, rest),
    }
}

/// What the lines behind the first two of a record of version 2 tell.
fn read_second(
    alloc: Global,
    checked: &Checked,
    processes: usize,
    behind: Option<&[u8]>,
) -> Result<ReadRecord, RecordFault>
    requires { length (lines_behind behind) + 3 < 2 ^ 64 }
    ensures record { ForEachHead (codes "2") processes (λ title second.
        IfOk result (λ r. IsRecordOf (program_in checked.now) (title ∷ second ∷ lines_behind behind.entry) (told_of «r»))) }
    ensures fault { ForEachHead (codes "2") processes (λ title second.
        IfErr result (λ e. FaultStands (program_in checked.now) (title ∷ second ∷ lines_behind behind.entry) e)) }
{
    let Some((budget, rest)) = take_budget(alloc, behind)? else {
        return Err(RecordFault::Form(3));
    };
    let head = plain_head(processes, budget, 3);
    read_behind(alloc, checked.exports(), head, rest)
}

/// What the lines behind the first two of a record of version 3 tell.
fn read_third(
    alloc: Global,
    checked: &Checked,
    processes: usize,
    behind: Option<&[u8]>,
) -> Result<ReadRecord, RecordFault>
    requires { length (lines_behind behind) + 3 < 2 ^ 64 }
    ensures record { ForEachHead (codes "3") processes (λ title second.
        IfOk result (λ r. IsRecordOf (program_in checked.now) (title ∷ second ∷ lines_behind behind.entry) (told_of «r»))) }
    ensures fault { ForEachHead (codes "3") processes (λ title second.
        IfErr result (λ e. FaultStands (program_in checked.now) (title ∷ second ∷ lines_behind behind.entry) e)) }
{
    let Some((budget, rest)) = take_budget(alloc, behind)? else {
        return Err(RecordFault::Form(3));
    };
    let program = checked.program();
    let variables = program.variables.as_slice();
    let mut values = Vec::new(alloc);
    match read_openings(alloc, &program.types, variables, rest, &mut values) {
        Ok(left) => {
            let head = Head {
                processes,
                budget,
                carried: Some(State::new(values)),
                lines: 3 + variables.len(),
            };
            read_behind(alloc, checked.exports(), head, left)
        }
        Err(fault) => Err(fault),
    }
}

/// The budget that the first of some lines tells, and what stands behind it; `None` where it tells none, or there is no line.
fn take_budget(
    alloc: Global,
    behind: Option<&[u8]>,
) -> Result<Option<(u64, Option<&[u8]>)>, AllocError>
    ensures { IfOk result (λ taken. MatchOption taken
        (TakesNoBudget (lines_behind behind.entry))
        (λ t. TakesBudget (lines_behind behind.entry) t.0 (lines_behind t.1))) }
{
    let Some(text) = behind else {
        return Ok(None);
    };
    let (line, rest) = split_line(text);
    let words = words_of(alloc, line)?;
    match read_budget(&words) {
        Some(budget) => Ok(Some((budget, rest))),
        None => Ok(None),
    }
}

/// What the lines behind a head tell.
fn read_behind(
    alloc: Global,
    exports: &[Export],
    head: Head,
    behind: Option<&[u8]>,
) -> Result<ReadRecord, RecordFault>
    requires { head.lines + length (lines_behind behind) + 1 < 2 ^ 64 }
    ensures told { IfOk result (λ r. (r.processes ≡ head.processes) × (r.budget ≡ head.budget) × (carried_of r.carried ≡ carried_of head.carried)) }
    ensures record { IfOk result (λ r. AreLines head.processes (map signature_of exports.now) [] (lines_behind behind.entry) r.history r.order.items) }
    ensures fault { IfErr result (λ e. FaultBehind head.processes (map signature_of exports.now) head.lines (lines_behind behind.entry) e) }
{
    let mut calls = Calls::new(alloc, head.processes)?;
    let mut words = Vec::new(alloc);
    let order = read_events(alloc, exports, &mut calls, head.lines, behind, &mut words)?;
    Ok(ReadRecord {
        processes: head.processes,
        budget: head.budget,
        carried: head.carried,
        history: calls.into_history(),
        order,
    })
}

/// The order that lines behind the head tell, with the events before it. The list has the words that say the values of one line
/// after the other.
fn read_events<'a>(
    alloc: Global,
    exports: &[Export],
    calls: &mut Calls,
    head: usize,
    behind: Option<&'a [u8]>,
    list: &mut Vec<&'a [u8]>,
) -> Result<Vec<CallId>, RecordFault>
    requires none { calls.old.events ≡ [] }
    requires few { head + length (lines_behind behind) + 1 < 2 ^ 64 }
    ensures record { IfOk result (λ ids. AreLines calls.old.processes (map signature_of exports.now) [] (lines_behind behind.entry) calls.new.events ids.items) }
    ensures fault { IfErr result (λ e. FaultBehind calls.old.processes (map signature_of exports.now) head (lines_behind behind.entry) e) }
{
    let mut left = behind;
    let mut number = head;
    while let Some(text) = left {
        if let Some(behind) = take_written(alloc, exports, calls, text)? {
            number += 1;
            left = Some(behind);
            continue;
        }
        let (line, rest) = split_line(text);
        number += 1;
        let Some(said) = read_line(alloc, exports, calls, line, list)? else {
            return Err(RecordFault::Form(number));
        };
        match said {
            Line::Begin(id, call) => calls.begin(id, call)?,
            Line::End(id, reply) => calls.end(id, reply)?,
            Line::Applied => {}
            Line::Order(order) => {
                return match first_other(rest) {
                    Some(other) => Err(RecordFault::Form(number + other + 1)),
                    None => Ok(order),
                };
            }
        }
        left = rest;
    }
    Err(RecordFault::Form(number + 1))
}
