//! Where calls may begin and end in a record.

ghost use Rattle.std.specs.Prelude.{◌≡◌, IfOk, Some, option_map, string_bytes};
ghost use Rattle.ob_explained_lines.specs.CallPlaces.{IsBeginPlace, IsCallWithin, IsLineBefore, before, begin_text, begun_text, behind_text, ended_text};
ghost use Rattle.ob_explained_lines.specs.CallPlaces.{first_text, gap_text, not_begun_text, open_text, previous};

use crate::call_name::call_named;
use crate::record_line::{Wanted, first_line};
use ob_text_record::push_id;
use ob_text_words::numbers::push_number;
use std::alloc::{AllocError, Global};
use wf_history::CallId;

/// The call that a word names, by one of so many processes.
pub fn call_within(processes: usize, word: &[u8]) -> Option<CallId>
    ensures { IsCallWithin processes word.now result }
{
    let id = call_named(word)?;
    if id.process < processes {
        Some(id)
    } else {
        None
    }
}

/// The first line before that of a number which says what is looked for.
pub fn line_before(
    alloc: Global,
    text: &[u8],
    number: usize,
    wanted: Wanted,
) -> Result<Option<usize>, AllocError>
    ensures { IfOk result (λ line. IsLineBefore text.now number wanted line) }
{
    let first = first_line(alloc, text, wanted)?;
    Ok(before(number, first))
}

/// The number of a line, where it stands before another one.
fn before(number: usize, line: Option<usize>) -> Option<usize>
    ensures { result ≡ before number line }
{
    match line {
        Some(line) if line < number => Some(line),
        _ => None,
    }
}

/// Why a call can't begin in the line of a number; `None` where it may.
pub fn begin_place(
    alloc: Global,
    text: &[u8],
    number: usize,
    id: CallId,
) -> Result<Option<String>, AllocError>
    ensures { IfOk result (λ said. IsBeginPlace text.now number id (option_map string_bytes said)) }
{
    let other = previous(id);
    let same = line_before(alloc, text, number, Wanted::Begin(id))?;
    let begin = line_before(alloc, text, number, Wanted::Begin(other))?;
    let end = line_before(alloc, text, number, Wanted::End(other))?;
    begin_text(alloc, id, same, begin, end)
}

/// The call before another one of its process.
fn previous(id: CallId) -> CallId
    ensures { result ≡ previous id }
{
    CallId {
        process: id.process,
        number: id.number.saturating_sub(1),
    }
}

/// Why a call can't begin, by the lines in which it begins already, and in which the one before it begins and ends.
fn begin_text(
    alloc: Global,
    id: CallId,
    same: Option<usize>,
    begin: Option<usize>,
    end: Option<usize>,
) -> Result<Option<String>, AllocError>
    ensures { IfOk result (λ said. option_map string_bytes said ≡ begin_text id same begin end) }
{
    match same {
        Some(line) => Ok(Some(begun_text(alloc, id, line)?)),
        None => first_text(alloc, id, begin, end),
    }
}

/// Why a call can't begin that has not begun yet.
fn first_text(
    alloc: Global,
    id: CallId,
    begin: Option<usize>,
    end: Option<usize>,
) -> Result<Option<String>, AllocError>
    ensures { IfOk result (λ said. option_map string_bytes said ≡ first_text id begin end) }
{
    if id.number == 0 {
        let said = String::from_str(
            alloc,
            "the calls of a process have the numbers 1, 2 and so on, in the order in which they begin",
        )?;
        Ok(Some(said))
    } else if id.number == 1 {
        Ok(None)
    } else {
        behind_text(alloc, id, begin, end)
    }
}

/// Why a call can't begin behind another one of its process.
fn behind_text(
    alloc: Global,
    id: CallId,
    begin: Option<usize>,
    end: Option<usize>,
) -> Result<Option<String>, AllocError>
    ensures { IfOk result (λ said. option_map string_bytes said ≡ behind_text id begin end) }
{
    match (begin, end) {
        (None, _) => Ok(Some(gap_text(alloc, id)?)),
        (Some(line), None) => Ok(Some(open_text(alloc, id, line)?)),
        (Some(_), Some(_)) => Ok(None),
    }
}

/// Of a call that begins in a line before.
fn begun_text(alloc: Global, id: CallId, line: usize) -> Result<String, AllocError>
    ensures { IfOk result (λ said. string_bytes said ≡ begun_text id line) }
{
    let mut said = String::from_str(alloc, "call ")?;
    push_id(&mut said, id)?;
    said.push_str(" begins in line ")?;
    push_number(&mut said, line)?;
    said.push_str(" already")?;
    Ok(said)
}

/// Of a call before which another one of its process is missing.
fn gap_text(alloc: Global, id: CallId) -> Result<String, AllocError>
    ensures { IfOk result (λ said. string_bytes said ≡ gap_text id) }
{
    let mut said = String::from_str(alloc, "call ")?;
    push_id(&mut said, id)?;
    said.push_str(" comes behind call ")?;
    push_id(&mut said, previous(id))?;
    said.push_str(", which begins in no line before this one")?;
    Ok(said)
}

/// Of a call before which another one of its process has no end.
fn open_text(alloc: Global, id: CallId, line: usize) -> Result<String, AllocError>
    ensures { IfOk result (λ said. string_bytes said ≡ open_text id line) }
{
    let mut said = String::from_str(alloc, "call ")?;
    push_id(&mut said, previous(id))?;
    said.push_str(", which begins in line ")?;
    push_number(&mut said, line)?;
    said.push_str(", has no end before this line, and a process has one call open")?;
    Ok(said)
}

/// Of a call that ends without having begun.
pub fn not_begun_text(alloc: Global, id: CallId) -> Result<String, AllocError>
    ensures { IfOk result (λ said. string_bytes said ≡ not_begun_text id) }
{
    let mut said = String::from_str(alloc, "call ")?;
    push_id(&mut said, id)?;
    said.push_str(" ends here, and begins in no line before this one")?;
    Ok(said)
}

/// Of a call that ends in a line before.
pub fn ended_text(alloc: Global, id: CallId, line: usize) -> Result<String, AllocError>
    ensures { IfOk result (λ said. string_bytes said ≡ ended_text id line) }
{
    let mut said = String::from_str(alloc, "call ")?;
    push_id(&mut said, id)?;
    said.push_str(" ends in line ")?;
    push_number(&mut said, line)?;
    said.push_str(" already")?;
    Ok(said)
}
