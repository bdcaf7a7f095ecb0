//! Mendings of a text: what is put in another's place, and how that is told.

ghost use Rattle.std.specs.Prelude.{◌≡◌, IfOk, map, string_bytes};
ghost use Rattle.ob_mendings.specs.Mendings.{IsMended, blank_for, blanked, filled_up, letter_for, line_text, mending_text, move_of, put_text, spliced};

use crate::capitals::in_capitals;
use crate::origin::Move;
use itoa::Buffer;
use ob_explain_sentences::place::{halves, place_in};
use ob_explain_sentences::shown::push_line;
use std::alloc::{AllocError, Global};

/// A mending: at a place so many bytes are taken out, and others are put there, with blanks behind them up to as many; or a change elsewhere.
#[derive(Drop)]
pub struct Mending {
    pub place: usize,
    pub taken: usize,
    pub put: Vec<u8>,
    pub elsewhere: Elsewhere,
    pub told: Told,
}

/// What is changed elsewhere, so that each byte stays at its place.
#[derive(Clone, Copy)]
pub enum Elsewhere {
    Nothing,
    /// A letter stands for each `_`, and nothing else is changed.
    Letters,
    /// Words stand in capitals, and nothing else is changed.
    Capitals,
    /// From this place on so many bytes are blanks, beside what is put at the mending's place: they were moved there.
    Moved(usize, usize),
}

/// How a mending is told.
#[derive(Clone, Copy)]
pub enum Told {
    /// By these words.
    Words(&'static str),
    /// By what is put there, and these words.
    Put(&'static str),
    /// By these words, its line, and those words.
    Line(&'static str, &'static str),
}

/// The text with a mending.
pub fn mended(alloc: Global, text: &[u8], mending: &Mending) -> Result<Vec<u8>, AllocError>
    ensures { IfOk result (λ whole. IsMended text.now mending.now whole.items) }
{
    match mending.elsewhere {
        Elsewhere::Nothing => spliced(alloc, text, mending),
        Elsewhere::Letters => lettered(alloc, text),
        Elsewhere::Capitals => in_capitals(alloc, text),
        Elsewhere::Moved(from, bytes) => {
            let rest = blanked(alloc, text, from, bytes)?;
            spliced(alloc, &rest, mending)
        }
    }
}

/// The text with blanks for so many bytes from a place on.
fn blanked(alloc: Global, text: &[u8], from: usize, bytes: usize) -> Result<Vec<u8>, AllocError>
    ensures { IfOk result (λ whole. whole.items ≡ blanked from bytes text.now) }
{
    let (before, rest) = halves(text, from);
    let (moved, behind) = halves(rest, bytes);
    let mut whole = Vec::from_slice(alloc, before)?;
    whole.extend_from_slice(&blanks_for(alloc, moved)?)?;
    whole.extend_from_slice(behind)?;
    Ok(whole)
}

/// A blank for each byte but a line feed, so that each line stays where it is.
fn blanks_for(alloc: Global, bytes: &[u8]) -> Result<Vec<u8>, AllocError>
    ensures { IfOk result (λ blanks. blanks.items ≡ map blank_for bytes.now) }
{
    let mut blanks = Vec::new(alloc);
    for byte in bytes {
        blanks.push(blank_for(*byte))?;
    }
    Ok(blanks)
}

fn blank_for(byte: u8) -> u8
    ensures { result ≡ blank_for byte }
{
    if byte == b'\n' { byte } else { b' ' }
}

/// The text with what is put at the place alone.
fn spliced(alloc: Global, text: &[u8], mending: &Mending) -> Result<Vec<u8>, AllocError>
    ensures { IfOk result (λ whole. whole.items ≡ spliced text.now mending.now) }
{
    let (before, from) = halves(text, mending.place);
    let (_, behind) = halves(from, mending.taken);
    let mut whole = Vec::from_slice(alloc, before)?;
    whole.extend_from_slice(&filled_up(alloc, &mending.put, mending.taken)?)?;
    whole.extend_from_slice(behind)?;
    Ok(whole)
}

/// Some bytes, and blanks behind them up to so many.
fn filled_up(alloc: Global, put: &[u8], bytes: usize) -> Result<Vec<u8>, AllocError>
    ensures { IfOk result (λ whole. whole.items ≡ filled_up put.now bytes) }
{
    let mut whole = Vec::from_slice(alloc, put)?;
    for _at in 0..bytes.saturating_sub(put.len()) {
        whole.push(b' ')?;
    }
    Ok(whole)
}

/// The text with a letter for each `_`.
fn lettered(alloc: Global, text: &[u8]) -> Result<Vec<u8>, AllocError>
    ensures { IfOk result (λ whole. whole.items ≡ map letter_for text.now) }
{
    let mut whole = Vec::new(alloc);
    for byte in text {
        whole.push(letter_for(*byte))?;
    }
    Ok(whole)
}

/// A letter for `_`, and each other byte as it is.
fn letter_for(byte: u8) -> u8
    ensures { result ≡ letter_for byte }
{
    if byte == b'_' { b'x' } else { byte }
}

impl Mending {
    /// How it moves what stands behind it.
    pub fn moves(&self) -> Move
        ensures { result ≡ move_of self.now }
    {
        Move {
            place: self.place,
            taken: self.taken,
            put: self.put.len().max(self.taken),
        }
    }
}

/// How a mending of a text is told.
pub fn mending_text(alloc: Global, text: &[u8], mending: &Mending) -> Result<String, AllocError>
    ensures { IfOk result (λ told. string_bytes told ≡ mending_text text.now mending.now) }
{
    match mending.told {
        Told::Words(words) => String::from_str(alloc, words),
        Told::Put(words) => put_text(alloc, &mending.put, words),
        Told::Line(words, behind) => {
            line_text(alloc, words, place_in(text, mending.place).line, behind)
        }
    }
}

/// The same by what is put there.
fn put_text(alloc: Global, put: &[u8], words: &str) -> Result<String, AllocError>
    ensures { IfOk result (λ told. string_bytes told ≡ put_text put.now words.now) }
{
    let mut told = String::from_str(alloc, "with ")?;
    push_line(&mut told, put)?;
    told.push_str(words)?;
    Ok(told)
}

/// The same by the line.
fn line_text(alloc: Global, words: &str, line: usize, behind: &str) -> Result<String, AllocError>
    ensures { IfOk result (λ told. string_bytes told ≡ line_text words.now line behind.now) }
{
    let mut told = String::from_str(alloc, words)?;
    let mut buffer = Buffer::new();
    told.push_str(buffer.format(line))?;
    told.push_str(behind)?;
    Ok(told)
}
