//! Where the items of a schedule stand.

ghost use Rattle.std.specs.Prelude.{◌≡◌, ℕ, List, IfOk, length, map};
ghost use Rattle.ob_text_words.specs.Words.{words};
ghost use Rattle.ob_explained.specs.Marks.{MarksWord};
ghost use Rattle.ob_explained.specs.ScriptPlaces.{in_line, word_place};
ghost use Rattle.ob_explained.specs.ItemMarks.{MarksItem};
ghost use Rattle.ob_explained.specs.ItemPlaces.{IsItemPlace, item_at};
ghost use Rattle.ob_text_words.specs.Schedule.{line_items};

use crate::script_place::{script_line, word_place};
use ob_text_words::schedule_texts::{is_comment, item_words};
use ob_text_words::words::put_words;
use std::alloc::{AllocError, Global};

/// Where the item of a number stands, from 1; the text's end, where there are fewer.
pub fn item_place(alloc: Global, text: &[u8], number: usize) -> Result<usize, AllocError>
    ensures place { IfOk result (IsItemPlace text.now number) }
    ensures marked { IfOk result (MarksItem text.now number) }
{
    let mut left = number.saturating_sub(1);
    let mut words = Vec::new(alloc);
    for (index, line) in text.split(|byte| *byte == b'\n').enumerate() {
        put_words(&mut words, line)?;
        let items = items_of(&words);
        if left < items {
            return Ok(place_of_word(text, index + 1, left));
        }
        left -= items;
    }
    Ok(text.len())
}

/// How many items the words of a line are.
fn items_of(found: &[&[u8]]) -> usize
    ensures { (line : List ℕ) → map (λ w. w.now) found.now ≡ words line → result ≡ length (line_items line) }
{
    if is_comment(found) { 0 } else { found.len() }
}

/// The item of a number, from 1; nothing, where there are fewer.
pub fn item_at(alloc: Global, text: &[u8], number: usize) -> Result<&[u8], AllocError>
    ensures { IfOk result (λ item. item.now ≡ item_at text.now number) }
{
    let words = item_words(alloc, text)?;
    match words.get(number.saturating_sub(1)) {
        Some(word) => Ok(word),
        None => Ok(b""),
    }
}

/// Where a word of a line stands, counted from 0.
fn place_of_word(text: &[u8], line: usize, word: usize) -> usize
    ensures place { result ≡ in_line (word_place word) text.now line }
    ensures marked { MarksWord text.now line word result }
{
    let (begin, bytes) = script_line(text, line);
    begin + word_place(bytes, word)
}
