//! The line of a history in which a call ends.

ghost use Rattle.std.specs.Prelude.{◌≡◌, ◌↔◌, ◌∷◌, codes, IfOk, IsTrue, MatchOption, map};
ghost use Rattle.ob_explained_records.specs.ExplainedHistories.{HasNoEnd, IsEndLine, IsFirstEnd, NamesFirst, SaysEnd};
ghost use Rattle.ob_text_words.specs.Words.{lines, words};

use ob_text_values_reading::line_words::next_word;
use ob_text_values_reading::taken_names::take_id;
use std::alloc::{AllocError, Global};
use wf_history::CallId;

/// A process is a number below this: of nine digits at most.
pub(crate) const PROCESS_NUMBERS: usize = 1_000_000_000;

/// The number of the first line, from 1, in which a call ends, where there is one.
pub(crate) fn end_line(alloc: Global, text: &[u8], id: CallId) -> Result<Option<usize>, AllocError>
    ensures { IfOk result (λ line. IsEndLine text.now id line) }
{
    let lines = split_lines(alloc, text)?;
    Ok(first_of(&lines, id))
}

/// What stands between the line feeds of a text.
fn split_lines(alloc: Global, text: &[u8]) -> Result<Vec<&[u8]>, AllocError>
    ensures { IfOk result (λ ls. map (λ l. l.now) ls.items ≡ lines text.now) }
{
    text.split(|byte| *byte == b'\n').collect(alloc)
}

/// The number of the first of some lines, from 1, in which the call ends.
fn first_of(lines: &[&[u8]], id: CallId) -> Option<usize>
    ensures { MatchOption result (HasNoEnd (map (λ l. l.now) lines.now) id) (IsFirstEnd (map (λ l. l.now) lines.now) id) }
{
    for (index, line) in lines.iter().enumerate() {
        if says_end(line, id) {
            return Some(index + 1);
        }
    }
    None
}

/// Whether a line says that the call ends.
fn says_end(line: &[u8], id: CallId) -> bool
    ensures { IsTrue result ↔ SaysEnd id (words line.now) }
{
    let Some((first, rest)) = next_word(line) else {
        return false;
    };
    if first != b"E".as_slice() {
        return false;
    }
    names_first(rest, id)
}

/// Whether the first word of a line names the call.
fn names_first(line: &[u8], id: CallId) -> bool
    ensures { IsTrue result ↔ NamesFirst id (words line.now) }
{
    match take_id(PROCESS_NUMBERS, line) {
        Some((named, _)) => is_same(named, id),
        None => false,
    }
}

/// Whether two names are of one call.
fn is_same(id: CallId, other: CallId) -> bool
    ensures { IsTrue result ↔ (id ≡ other) }
{
    id == other
}
