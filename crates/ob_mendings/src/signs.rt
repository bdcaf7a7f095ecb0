//! Signs that are slips: those of other languages, and those that are written twice or the wrong way round; and texts of other languages.

use crate::comments::{Run, braced, comment_of, length_of_run, line_before, line_of, quoted};
use crate::fix::{
    ARROW, ASSIGN, AT_LEAST, AT_MOST, BEGIN_FOR, BYTE, COMMENT, DIV, DO_FOR, END_FOR,
    END_SEMICOLON, Fix, MOD, NOT, NOT_EQUAL, ONE, ONE_AND, ONE_EQUAL, OR, THEN_FOR, UNEQUAL, ZERO,
    changed, fixed, left_out, worded,
};
use crate::mending::{Elsewhere, Mending, Told};
use crate::part::{CONDITIONS, part_at};
use crate::tokens::ends_line;
use ob_evidence::text_site::{Site, is_kind, kind_or_name};
use ob_explain_names::declarations::is_declared;
use ob_explain_sentences::first_word::{is_same, is_same_in_any_case, word_at};
use ob_explain_sentences::place::halves;
use ob_scan::Kind;
use std::alloc::{AllocError, Global};

/// A sign of which a part stands before the place of a fault, and the rest from there on; and what is meant by it.
#[derive(Clone, Copy)]
struct Sign {
    before: &'static [u8],
    from: &'static [u8],
    fix: Fix,
}

/// A table: in each row what stands before the place, what stands from there on, and what is meant.
macro_rules! signs {
    ($($before:expr, $from:expr => $fix:expr;)*) => {
        &[$(Sign { before: $before, from: $from, fix: $fix }),*]
    };
}

/// The signs that are known. Where several stand at a place, the first one counts.
const SIGNS: &[Sign] = signs! {
    b"<", b">" => UNEQUAL;
    b"=", b">" => AT_LEAST;
    b"=", b"<" => AT_MOST;
    b"=", b"==" => ONE_EQUAL;
    b"=", b"=" => ONE_EQUAL;
    b"&", b"&" => ONE_AND;
    b"", b"<-" => ARROW;
    b"", b"!==" => NOT_EQUAL;
    b"", b"!=" => NOT_EQUAL;
    b"", b"!" => NOT;
    b"", b"||" => OR;
    b"", b"|" => OR;
    b"", b"%" => MOD;
    b"", b"/=" => NOT_EQUAL;
    b"", b"/" => DIV;
};

/// The signs that are meant to assign.
const ASSIGNS: &[Sign] = signs! {
    b"", b": =" => ASSIGN;
    b"", b"=:" => ASSIGN;
    b"", b"==" => ASSIGN;
    b"", b"=" => ASSIGN;
    b"", b":" => ASSIGN;
};

/// The mending of the sign that stands at a place, if it is a slip.
pub fn sign_mending(
    alloc: Global,
    text: &[u8],
    place: usize,
) -> Result<Option<Mending>, AllocError> {
    let (before, from) = halves(text, place);
    match from {
        [b'{', ..] => match braced(from) {
            Some(comment) => left_out(alloc, place, comment, COMMENT),
            None => fixed(alloc, place, 1, opened_by(line_before(text, place))),
        },
        [b'}', ..] => fixed(alloc, place, 1, closed_before(from)),
        [b'_', ..] => Ok(Some(changed(
            alloc,
            place,
            Elsewhere::Letters,
            "with a letter for each _",
        ))),
        [b'/', b'/', behind @ ..] if is_quotient(before, behind) => fixed(alloc, place, 2, DIV),
        [b'/', b'/', ..] => left_out(alloc, place, line_of(from), COMMENT),
        [b'/', b'*', ..] => left_out(alloc, place, comment_of(from), COMMENT),
        [b'/', b'=', ..] if is_alone(line_before(text, place)) => {
            divided(alloc, place, line_before(text, place).trim_ascii())
        }
        [b'|', ..] if ends_line(before) => fixed(alloc, place, 1, BYTE),
        [b'"' | b'\'', ..] => fixed(alloc, place, quoted(from), ZERO),
        _ => whole_mending(alloc, place, first_there(SIGNS, text, place)),
    }
}

/// Whether a line has one name up to here.
fn is_alone(line: &[u8]) -> bool {
    let name = line.trim_ascii();
    !name.is_empty() && word_at(name).len() == name.len()
}

/// The mending of `x /= y` as a statement, of this name: it is divided.
fn divided(alloc: Global, place: usize, name: &[u8]) -> Result<Option<Mending>, AllocError> {
    let mut put = Vec::from_slice(alloc, b":= ")?;
    put.extend_from_slice(name)?;
    put.extend_from_slice(b" DIV ")?;
    worded(alloc, place, 2, &put, "in its place")
}

/// Whether an operand stands before a `//`, and behind it a number, or a name and then a mark.
fn is_quotient(before: &[u8], behind: &[u8]) -> bool {
    let ends_operand = match before.trim_ascii_end() {
        [.., last] => last.is_ascii_alphanumeric() || *last == b')' || *last == b']',
        [] => false,
    };
    let operand = behind.trim_ascii_start();
    let (_, rest) = halves(operand, word_at(operand).len());
    match (operand, rest.trim_ascii_start()) {
        ([first, ..], _) if first.is_ascii_digit() => ends_operand,
        ([first, ..], [mark, ..]) => {
            ends_operand
                && first.is_ascii_alphabetic()
                && matches!(*mark, b';' | b')' | b']' | b'+' | b'-' | b'*')
        }
        _ => false,
    }
}

/// What is put for a `{` behind what stands before it in its line.
fn opened_by(line: &[u8]) -> Fix {
    let word = word_at(after_brace(line));
    if is_same_in_any_case(word, b"PROCEDURE") {
        BEGIN_FOR
    } else if is_same_in_any_case(word, b"IF") || is_same_in_any_case(word, b"ELSIF") {
        THEN_FOR
    } else if is_same_in_any_case(word, b"WHILE") || is_same_in_any_case(word, b"FOR") {
        DO_FOR
    } else {
        BYTE
    }
}

/// What is put for a `}` with which these bytes begin: nothing before an ELSE or an UNTIL, and an END with its `;` before another statement.
fn closed_before(from: &[u8]) -> Fix {
    let behind = after_brace(from);
    let word = word_at(behind);
    let line = after_brace(line_of(from));
    let (_, rest) = halves(line, word_at(line).len());
    let is_ended = matches!(rest.trim_ascii_start(), [b';' | b'.', ..]);
    if is_same_in_any_case(word, b"ELSE")
        || is_same_in_any_case(word, b"ELSIF")
        || is_same_in_any_case(word, b"UNTIL")
    {
        BYTE
    } else if is_ended || word.is_empty() {
        END_FOR
    } else {
        END_SEMICOLON
    }
}

/// Bytes without blanks and a `}` before them.
fn after_brace(bytes: &[u8]) -> &[u8] {
    let rest = bytes.trim_ascii_start();
    match rest {
        [b'}', behind @ ..] => behind.trim_ascii_start(),
        _ => rest,
    }
}

/// The mending of a byte that begins no token: by the sign that it is a part of, or without it.
pub fn byte_mending(
    alloc: Global,
    text: &[u8],
    place: usize,
) -> Result<Option<Mending>, AllocError> {
    if let Some(mending) = sign_mending(alloc, text, place)? {
        return Ok(Some(mending));
    }
    let (before, from) = halves(text, place);
    let length = length_of_run(from, Run::Foreign);
    // A name goes on with them.
    if let [.., last] = before
        && last.is_ascii_alphanumeric()
        && length > 0
    {
        return lettered(alloc, place, length);
    }
    fixed(alloc, place, length.max(1), BYTE)
}

/// The mending that puts letters in place of so many bytes.
fn lettered(alloc: Global, place: usize, length: usize) -> Result<Option<Mending>, AllocError> {
    let mut put = Vec::new(alloc);
    for _at in 0..length {
        put.push(b'x')?;
    }
    Ok(Some(Mending {
        place,
        taken: length,
        put,
        elsewhere: Elsewhere::Nothing,
        told: Told::Words("with letters in its place"),
    }))
}

/// The mending of a number that is too large.
pub fn number_mending(
    alloc: Global,
    text: &[u8],
    place: usize,
) -> Result<Option<Mending>, AllocError> {
    let (_, from) = halves(text, place);
    fixed(alloc, place, length_of_run(from, Run::Digits), ONE)
}

/// The mending of an `=` or a `:` at the place that is meant to assign, in a statement.
pub fn assign_mending(alloc: Global, site: &Site<'_, '_>) -> Result<Option<Mending>, AllocError> {
    match (part_at(site), first_there(ASSIGNS, site.text, site.place)) {
        (Some(part), Some(sign))
            if !CONDITIONS.contains(&part.leader.kind)
                && (!matches!(sign.from, [b':']) || is_assignable(site)) => {
            whole_mending(alloc, site.place, Some(sign))
        }
        _ => Ok(None),
    }
}

/// Whether a variable, or an element of one, stands before the place, and no type behind it.
fn is_assignable(site: &Site<'_, '_>) -> bool {
    let word = site.word_of(site.next());
    let is_type = is_same(word, b"INTEGER")
        || is_same(word, b"BOOLEAN")
        || matches!(kind_or_name(site.next()), Kind::Array | Kind::Record);
    !is_type
        && (is_kind(site.last(), Kind::RightBracket)
            || is_declared(site.text, site.known, site.word_of(site.last())))
}

/// The mending of a sign: the whole of it is taken out.
fn whole_mending(
    alloc: Global,
    place: usize,
    sign: Option<Sign>,
) -> Result<Option<Mending>, AllocError> {
    match sign {
        Some(sign) => {
            let begin = place.saturating_sub(sign.before.len());
            fixed(alloc, begin, sign.before.len() + sign.from.len(), sign.fix)
        }
        None => Ok(None),
    }
}

/// The first of these signs that stands at a place.
fn first_there(signs: &[Sign], text: &[u8], place: usize) -> Option<Sign> {
    let (before, from) = halves(text, place);
    for sign in signs {
        if before.ends_with(sign.before) && from.starts_with(sign.from) {
            return Some(*sign);
        }
    }
    None
}
