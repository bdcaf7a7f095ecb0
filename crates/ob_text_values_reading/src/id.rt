//! The names of calls, as words.

ghost use Rattle.std.specs.Prelude.{List, IfOk, IsFalse, IsTrue, MatchOption};
ghost use Rattle.ob_text_values_reading.specs.CallNames.{AreIds, IsId};
ghost use Rattle.ob_text_words.specs.Words.{words};
ghost use Rattle.wf_history.specs.declared.event.CallId.{CallId};

use crate::line_words::next_word;
use crate::taken_names::take_id;
use ob_text_words::numbers::{read_numeral, split_digits};
use std::alloc::{AllocError, Global};
use wf_history::CallId;

/// The call that a word names, `p.k`, by a process below `processes`.
pub(crate) fn read_id(processes: usize, word: &[u8]) -> Option<CallId>
    ensures { MatchOption result ((id : CallId) → IsId processes word.now id → ⊥) (λ id. IsId processes word.now id) }
{
    let (digits, behind) = split_digits(word);
    let Some((b'.', rest)) = behind.split_first() else {
        return None;
    };
    let process = usize::try_from(read_numeral(digits)?).ok()?;
    let number = read_numeral(rest)?;
    if process >= processes {
        return None;
    }
    Some(CallId { process, number })
}

/// The calls that the words of a line name.
pub fn read_ids(
    alloc: Global,
    processes: usize,
    line: &[u8],
) -> Result<Option<Vec<CallId>>, AllocError>
    ensures { IfOk result (λ read. MatchOption read
        ((ids : List CallId) → AreIds processes (words line.now) ids → ⊥)
        (λ ids. AreIds processes (words line.now) ids.items)) }
{
    let mut ids = Vec::new(alloc);
    let mut left = line;
    while let Some((id, rest)) = take_id(processes, left) {
        ids.push(id)?;
        left = rest;
    }
    match next_word(left) {
        Some(_) => Ok(None),
        None => Ok(Some(ids)),
    }
}

/// Whether the words of a line name calls.
pub fn are_ids(processes: usize, line: &[u8]) -> bool
    ensures yes { IsTrue result → (ids : List CallId) × AreIds processes (words line.now) ids }
    ensures no { IsFalse result → (ids : List CallId) → AreIds processes (words line.now) ids → ⊥ }
{
    let mut left = line;
    while let Some((_id, rest)) = take_id(processes, left) {
        left = rest;
    }
    match next_word(left) {
        Some(_) => false,
        None => true,
    }
}
