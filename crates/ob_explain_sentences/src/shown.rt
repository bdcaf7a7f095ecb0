//! A line of a text as it is shown, with a mark below one of its columns.

ghost use Rattle.std.specs.Prelude.{◌≡◌, ◌++◌, OnOk, map, string_bytes};
ghost use Rattle.std.specs.List.{take_while};
ghost use Rattle.ob_explain_sentences.specs.Shown.{blank_below, cut_blank, cut_mark, first_part, last_part, left_part, named, right_part, shown_byte};
ghost use Rattle.ob_explain_sentences.specs.Shown.{goes_on_word, whole_word};

use crate::first_word::word_at;
use std::alloc::AllocError;

/// The most bytes of a line that is shown whole.
const LONGEST_LINE: usize = 160;

/// The most columns on each side of a place in a line that is longer.
const HALF_LINE: usize = 80;

/// Appends a line: printable ASCII characters and tabs as they are, a blank for a carriage return, as a line of some files ends
/// with one, and `?` for each other byte.
pub fn push_line(shown: &mut String, line: &[u8]) -> Result<(), AllocError>
    ensures { OnOk result (string_bytes shown.new ≡ string_bytes shown.old ++ map shown_byte line.now) }
{
    for byte in line {
        shown.push(char::from(shown_byte(*byte)))?;
    }
    Ok(())
}

/// Appends what stands below a line before its mark: tabs below tabs, and blanks below all else.
pub fn push_blanks(shown: &mut String, line: &[u8]) -> Result<(), AllocError>
    ensures { OnOk result (string_bytes shown.new ≡ string_bytes shown.old ++ map blank_below line.now) }
{
    for byte in line {
        shown.push(char::from(blank_below(*byte)))?;
    }
    Ok(())
}

/// Appends the word that a line goes on with, in quotes and with a colon, where it goes on with a name or a keyword.
pub fn push_named(shown: &mut String, line: &[u8]) -> Result<(), AllocError>
    ensures { OnOk result (string_bytes shown.new ≡ string_bytes shown.old ++ named line.now) }
{
    let word = whole_word(line);
    if word.is_empty() {
        return Ok(());
    }
    shown.push_str("`")?;
    push_line(shown, word)?;
    shown.push_str("`: ")
}

/// The word that a line goes on with, and with it each `_`, which no name has.
fn whole_word(line: &[u8]) -> &[u8]
    ensures { result.now ≡ whole_word line.now }
{
    if word_at(line).is_empty() {
        &line[..0]
    } else {
        word_bytes(line)
    }
}

/// The letters, digits and `_` with which a line goes on.
fn word_bytes(line: &[u8]) -> &[u8]
    ensures { result.now ≡ take_while goes_on_word line.now }
{
    let length = line.iter().take_while(|byte| goes_on_word(**byte)).count();
    &line[..length]
}

fn goes_on_word(byte: u8) -> bool
    ensures { result ≡ goes_on_word byte }
{
    byte.is_ascii_alphanumeric() || byte == b'_'
}

/// What is shown of a line, of which these bytes stand before a place and these from there on.
#[tactic(auto, unfolding(crate::specs::Shown::left_part, crate::specs::Shown::right_part))]
pub fn parts<'a>(before: &'a [u8], from: &'a [u8]) -> (&'a [u8], &'a [u8])
    ensures left { result.0.now ≡ left_part before.entry.now from.entry.now }
    ensures right { result.1.now ≡ right_part before.entry.now from.entry.now }
{
    if before.len() + from.len() > LONGEST_LINE {
        (last_part(before), first_part(from))
    } else {
        (before, from)
    }
}

/// The last bytes of a long line.
fn last_part(bytes: &[u8]) -> &[u8]
    ensures { result.now ≡ last_part bytes.now }
{
    if bytes.len() <= HALF_LINE {
        bytes
    } else {
        let left = bytes.len() - (HALF_LINE - 1);
        &bytes[left..]
    }
}

/// The first bytes of a long line.
fn first_part(bytes: &[u8]) -> &[u8]
    ensures { result.now ≡ first_part bytes.now }
{
    if bytes.len() <= HALF_LINE {
        bytes
    } else {
        &bytes[..HALF_LINE - 1]
    }
}

/// Appends a `…` where more of a line is there than is shown.
#[tactic(auto, unfolding(crate::specs::Shown::cut_mark))]
pub fn push_cut(shown: &mut String, all: &[u8], part: &[u8]) -> Result<(), AllocError>
    ensures { OnOk result (string_bytes shown.new ≡ string_bytes shown.old ++ cut_mark all.now part.now) }
{
    if part.len() < all.len() {
        shown.push_str("…")?;
    }
    Ok(())
}

/// Appends the blank below it.
#[tactic(auto, unfolding(crate::specs::Shown::cut_blank))]
pub fn push_cut_blank(shown: &mut String, all: &[u8], part: &[u8]) -> Result<(), AllocError>
    ensures { OnOk result (string_bytes shown.new ≡ string_bytes shown.old ++ cut_blank all.now part.now) }
{
    if part.len() < all.len() {
        shown.push_str(" ")?;
    }
    Ok(())
}

fn shown_byte(byte: u8) -> u8
    ensures { result ≡ shown_byte byte }
{
    if byte == b'\t' || (32 <= byte && byte < 127) {
        byte
    } else if byte == b'\r' {
        b' '
    } else {
        b'?'
    }
}

fn blank_below(byte: u8) -> u8
    ensures { result ≡ blank_below byte }
{
    if byte == b'\t' { b'\t' } else { b' ' }
}
