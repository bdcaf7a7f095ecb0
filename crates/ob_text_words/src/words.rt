//! Words, and those that are names.

ghost use Rattle.std.specs.Prelude.{◌≡◌, ◌↔◌, ◌++◌, ◌∷◌, [], ◌==◌, filter, length, map, not, IsTrue, IfOk, OnOk};
ghost use Rattle.ob_text_words.specs.Words.{words, is_blank, IsName};

use ob_scan::keyword::keyword;
use std::alloc::{AllocError, Global};

/// What stands between the blanks of a line.
pub fn words_of(alloc: Global, line: &[u8]) -> Result<Vec<&[u8]>, AllocError>
    ensures { IfOk result (λ ws. map (λ w. w.now) ws.items ≡ words line.now) }
{
    line.split(|byte| is_blank(*byte))
        .filter(|word| !word.is_empty())
        .collect(alloc)
}

/// What stands between the blanks of a line, in place of what the list has: who reads many lines takes memory for the longest one.
pub fn put_words<'a>(list: &mut Vec<&'a [u8]>, line: &'a [u8]) -> Result<(), AllocError>
    ensures { OnOk result (map (λ w. w.now) list.new.items ≡ words line.now) }
{
    list.clear();
    let mut start = 0;
    for (index, byte) in line.iter().enumerate() {
        if is_blank(*byte) {
            push_word(list, &line[start..index])?;
            start = index + 1;
        }
    }
    push_word(list, &line[start..])
}

/// Appends a word, where it is something.
#[inline(always)]
fn push_word<'a>(list: &mut Vec<&'a [u8]>, word: &'a [u8]) -> Result<(), AllocError>
    ensures { OnOk result (map (λ w. w.now) list.new.items ≡ map (λ w. w.now) list.old.items ++ filter (λ w. not (length w == 0)) (word.now ∷ [])) }
{
    if !word.is_empty() {
        list.push(word)?;
    }
    Ok(())
}

fn is_blank(byte: u8) -> bool
    ensures { result ≡ is_blank byte }
{
    matches!(byte, b' ' | b'\t' | b'\r')
}

/// Whether a word is an ident, of whatever length.
pub fn is_name(word: &[u8]) -> bool
    ensures { IsTrue result ↔ IsName word.now }
{
    let Some((first, others)) = word.split_first() else {
        return false;
    };
    first.is_ascii_alphabetic()
        && others.iter().all(|byte| byte.is_ascii_alphanumeric())
        && keyword(word).is_none()
}
