//! Remarks in records: lines of which nothing is read.

ghost use Rattle.std.specs.Prelude.{◌≡◌, ◌≤◌, ◌∷◌, ◌++◌, [], false, IfOk, map, option_map};
ghost use Rattle.ob_text_words.specs.Words.{lines, words};
ghost use Rattle.ob_text_values_reading.specs.Comments.{is_comment, line_number, lines_of, said, said_number};

use crate::line_words::next_word;
use crate::lines::{first_line, split_line};
use memchr::memchr;
use std::alloc::{AllocError, Global};

/// Whether a line is a remark: its first word begins with `#`.
pub fn is_comment(line: &[u8]) -> bool
    ensures { result ≡ is_comment (words line.now) }
{
    match next_word(line) {
        Some((word, _rest)) => word.first() == Some(&b'#'),
        None => false,
    }
}

/// Whether a text may have remarks: where there is no `#`, there are none.
pub fn may_have_comments(text: &[u8]) -> bool
    ensures { result ≡ false → said (map words (lines text.now)) ≡ map words (lines text.now) }
{
    memchr(b'#', text).is_some()
}

/// The lines of a text that are no remarks, as a text of their own; `None` where all are remarks.
pub fn without_comments(alloc: Global, text: &[u8]) -> Result<Option<Vec<u8>>, AllocError>
    ensures { IfOk result (λ kept. lines_of (option_map (λ v. v.items) kept) ≡ said (map words (lines text.now))) }
{
    let mut kept = None;
    let mut left = Some(text);
    while let Some(text) = left {
        let (line, rest) = first_line(text);
        if !is_comment(line) {
            kept = Some(with_line(alloc, kept, line)?);
        }
        left = rest;
    }
    Ok(kept)
}

/// A text with one line more, or that line alone.
fn with_line(alloc: Global, before: Option<Vec<u8>>, line: &[u8]) -> Result<Vec<u8>, AllocError>
    requires { map words (lines line.now) ≡ words line.now ∷ [] }
    ensures { IfOk result (λ v. map words (lines v.items) ≡ lines_of (option_map (λ b. b.items) before) ++ words line.now ∷ []) }
{
    let mut text = match before {
        Some(mut text) => {
            text.push(b'\n')?;
            text
        }
        None => Vec::new(alloc),
    };
    text.extend_from_slice(line)?;
    Ok(text)
}

/// The number among all lines of a text, from 1, of the one that has a number among those that are no remarks.
pub fn line_number(text: &[u8], own: usize) -> usize
    requires { 1 ≤ own }
    ensures { result ≡ line_number (map words (lines text.now)) own }
{
    let mut left = Some(text);
    let mut wanted = own;
    let mut number = 0;
    while let Some(text) = left {
        let (line, rest) = split_line(text);
        number += 1;
        if !is_comment(line) {
            wanted -= 1;
            if wanted == 0 {
                return number;
            }
        }
        left = rest;
    }
    number + 1
}

/// The number of a line, from 1, among those of a text that are no remarks: one behind those that stand before it.
pub fn said_number(text: &[u8], number: usize) -> usize
    ensures { result ≡ said_number (map words (lines text.now)) number }
{
    let mut left = Some(text);
    let mut before = number.saturating_sub(1);
    let mut said = 1;
    while let Some(text) = left {
        if before == 0 {
            return said;
        }
        let (line, rest) = split_line(text);
        if !is_comment(line) {
            said += 1;
        }
        before -= 1;
        left = rest;
    }
    said
}
