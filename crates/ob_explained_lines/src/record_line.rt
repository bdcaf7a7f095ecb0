//! Lines of a record, by what they say.

ghost use Rattle.std.specs.Prelude.{◌≡◌, ◌↔◌, ◌∷◌, List, IfOk, IsTrue, MatchOption, map};
ghost use Rattle.ob_text_words.specs.Words.{Word, lines, words};
ghost use Rattle.ob_explained_lines.specs.Lines.{HasNoLine, IsFirstLine, IsLine, Says, SaysCall};

use crate::call_name::names_call;
use ob_text_words::words::words_of;
use std::alloc::{AllocError, Global};
use wf_history::CallId;

/// A line of a record that is looked for.
#[derive(Clone, Copy)]
pub enum Wanted {
    /// That of a call's begin.
    Begin(CallId),
    /// That of a call's end.
    End(CallId),
    /// That of the order.
    Order,
}

/// The number of the first such line of a record, from 1, where there is one.
pub fn first_line(alloc: Global, text: &[u8], wanted: Wanted) -> Result<Option<usize>, AllocError>
    ensures { IfOk result (λ line. IsLine text.now wanted line) }
{
    let lines = split_lines(alloc, text)?;
    first_of(alloc, &lines, wanted)
}

/// What stands between the line feeds of a text.
pub(crate) fn split_lines(alloc: Global, text: &[u8]) -> Result<Vec<&[u8]>, AllocError>
    ensures { IfOk result (λ ls. map (λ l. l.now) ls.items ≡ lines text.now) }
{
    text.split(|byte| *byte == b'\n').collect(alloc)
}

/// The number of the first such line, from 1.
fn first_of(alloc: Global, lines: &[&[u8]], wanted: Wanted) -> Result<Option<usize>, AllocError>
    ensures { IfOk result (λ line. MatchOption line (HasNoLine (map (λ l. l.now) lines.now) wanted) (IsFirstLine (map (λ l. l.now) lines.now) wanted)) }
{
    for (index, line) in lines.iter().enumerate() {
        let found = is_wanted(alloc, line, wanted)?;
        if found {
            return Ok(Some(index + 1));
        }
    }
    Ok(None)
}

/// Whether a line is one that is looked for.
fn is_wanted(alloc: Global, line: &[u8], wanted: Wanted) -> Result<bool, AllocError>
    ensures { IfOk result (λ is. IsTrue is ↔ Says wanted (words line.now)) }
{
    let words = words_of(alloc, line)?;
    Ok(says(&words, wanted))
}

/// Whether the words of a line say this.
fn says(words: &[&[u8]], wanted: Wanted) -> bool
    ensures { IsTrue result ↔ Says wanted (map (λ w. w.now) words.now) }
{
    match wanted {
        Wanted::Begin(id) => says_call(words, b"B".as_slice(), id),
        Wanted::End(id) => says_call(words, b"E".as_slice(), id),
        Wanted::Order => begins_with(words, b"O".as_slice()),
    }
}

/// Whether a letter is the first word, and a call's name the second one.
fn says_call(words: &[&[u8]], letter: &[u8], id: CallId) -> bool
    ensures { IsTrue result ↔ SaysCall letter.now id (map (λ w. w.now) words.now) }
{
    let Some((first, behind)) = words.split_first() else {
        return false;
    };
    let Some((second, _rest)) = behind.split_first() else {
        return false;
    };
    if *first != letter {
        return false;
    }
    names_call(second, id)
}

/// Whether a letter is the first word.
fn begins_with(words: &[&[u8]], letter: &[u8]) -> bool
    ensures { IsTrue result ↔ ((rest : List Word) × (map (λ w. w.now) words.now ≡ letter.now ∷ rest)) }
{
    let Some((first, _rest)) = words.split_first() else {
        return false;
    };
    if *first != letter {
        return false;
    }
    true
}
