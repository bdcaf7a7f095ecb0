//! Where a record names a call.

ghost use Rattle.std.specs.Prelude.{◌≡◌, IfOk, map};
ghost use Rattle.ob_explained.specs.Marks.{MarksWord};
ghost use Rattle.ob_explained.specs.ScriptPlaces.{in_line, word_place};
ghost use Rattle.ob_explained_records.specs.OrderPlaces.{IsEndPlace, IsNamed, IsOrderPlace, IsPlaceNamed};

use ob_explained::script_place::{script_line, word_place};
use ob_explained_lines::call_name::{first_naming, next_naming};
use ob_explained_lines::record_line::{Wanted, first_line};
use ob_text_words::words::words_of;
use std::alloc::{AllocError, Global};
use wf_history::CallId;

/// Where the name of a call stands in the line of its end, where there is one.
pub fn place_of_end(alloc: Global, text: &[u8], id: CallId) -> Result<Option<usize>, AllocError>
    ensures { IfOk result (IsEndPlace text.now id) }
{
    match first_line(alloc, text, Wanted::End(id))? {
        Some(number) => Ok(Some(place_of_word(text, number, 1))),
        None => Ok(None),
    }
}

/// Where the name of a call stands in the order, or where it stands there again.
pub fn place_in_order(
    alloc: Global,
    text: &[u8],
    id: CallId,
    again: bool,
) -> Result<Option<usize>, AllocError>
    ensures { IfOk result (IsOrderPlace text.now id again) }
{
    match first_line(alloc, text, Wanted::Order)? {
        Some(number) => place_named(alloc, text, number, id, again),
        None => Ok(None),
    }
}

/// Where the line of a number names a call.
fn place_named(
    alloc: Global,
    text: &[u8],
    number: usize,
    id: CallId,
    again: bool,
) -> Result<Option<usize>, AllocError>
    ensures { IfOk result (IsPlaceNamed text.now number id again) }
{
    let (_, line) = script_line(text, number);
    let words = words_of(alloc, line)?;
    match named(&words, id, again) {
        Some(word) => Ok(Some(place_of_word(text, number, word))),
        None => Ok(None),
    }
}

/// Which of some words names a call, or names it again.
fn named(words: &[&[u8]], id: CallId, again: bool) -> Option<usize>
    ensures { IsNamed again (map (λ w. w.now) words.now) id result }
{
    if again {
        next_naming(words, id)
    } else {
        first_naming(words, id)
    }
}

/// Where a word of a line stands, before which so many others stand.
pub fn place_of_word(text: &[u8], number: usize, word: usize) -> usize
    ensures place { result ≡ in_line (word_place word) text.now number }

    // The words before it stand before it there, and it and the others from there on.
    ensures marked { MarksWord text.now number word result }
{
    let (begin, line) = script_line(text, number);
    begin + word_place(line, word)
}
