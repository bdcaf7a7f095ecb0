//! What a `{`, a `//`, a `/=` and a `'` are meant to be, by the bytes around them.

use crate::foreign::is_one;
use crate::habits::line_begin;
use ob_evidence::facts::note;
use ob_explain_sentences::first_word::word_at;
use ob_explain_sentences::place::halves;
use ob_explain_sentences::table_rows::Fact;
use std::alloc::AllocError;

/// Keywords that may stand behind an operand.
const BEHIND_OPERANDS: &[&str] = &[
    "THEN", "DO", "OR", "DIV", "MOD", "END", "ELSE", "ELSIF", "UNTIL", "OF",
];

/// Keywords behind which a condition stands.
const CONDITIONS: &[&str] = &["IF", "ELSIF", "WHILE", "UNTIL"];

/// Keywords behind which statements stand.
const BEFORE_STATEMENTS: &[&str] = &["THEN", "ELSE", "DO", "REPEAT", "BEGIN"];

/// Notes what the sign is meant to be that stands between these bytes and those, if that shows.
pub fn note_sign(facts: &mut Vec<Fact>, before: &[u8], from: &[u8]) -> Result<(), AllocError> {
    match sign_meant(before, from) {
        Some(meant) => note(facts, true, meant),
        None => Ok(()),
    }
}

/// What it is meant to be.
fn sign_meant(before: &[u8], from: &[u8]) -> Option<Fact> {
    match from {
        [b'{', inside @ ..] => brace_meant(line_behind(before), line_of(inside)),
        [b'/', b'/', behind @ ..] => slashes_meant(line_behind(before), line_of(behind)),
        [b'/', b'=', ..] if is_in_value(line_behind(before)) => Some(Fact::ComparisonThere),
        [b'\'', inside @ ..] if is_text(line_of(inside)) => Some(Fact::TextThere),
        _ => None,
    }
}

/// Whether these bytes of a line end in a condition, or in the value that is assigned.
fn is_in_value(before: &[u8]) -> bool {
    let mut is_value = false;
    let mut last = b';';
    for (at, byte) in before.iter().enumerate() {
        if *byte == b';' {
            is_value = false;
        } else if last == b':' && *byte == b'=' {
            is_value = true;
        } else if !last.is_ascii_alphanumeric() {
            let word = word_at(halves(before, at).1);
            is_value = is_one(CONDITIONS, word) || is_value && !is_one(BEFORE_STATEMENTS, word);
        }
        last = *byte;
    }
    is_value
}

/// Whether a `'` stands in these bytes behind several letters of ASCII.
fn is_text(inside: &[u8]) -> bool {
    for (at, byte) in inside.iter().enumerate() {
        if *byte == b'\'' {
            return at > 1;
        }
        if !byte.is_ascii() {
            return false;
        }
    }
    false
}

/// The bytes up to the first line feed.
fn line_of(bytes: &[u8]) -> &[u8] {
    for (at, byte) in bytes.iter().enumerate() {
        if *byte == b'\n' {
            return halves(bytes, at).0;
        }
    }
    bytes
}

/// The bytes behind the last line feed.
fn line_behind(bytes: &[u8]) -> &[u8] {
    halves(bytes, line_begin(bytes)).1
}

/// What a `{` is meant to be between the bytes before it in its line and those behind it: a comment, where it is closed there and holds no
/// statement, or where it begins the line; else a word that leads to statements. Behind a `=` and IN it may be a set.
fn brace_meant(before: &[u8], inside: &[u8]) -> Option<Fact> {
    let before = before.trim_ascii();
    if before.ends_with(b"=") || is_one(&["IN"], last_word(before)) {
        None
    } else if is_comment(inside) {
        Some(Fact::CommentThere)
    } else {
        word_for_brace(before, inside.trim_ascii().is_empty())
    }
}

/// Whether a `}` closes a comment that begins with these bytes of a line.
fn is_comment(inside: &[u8]) -> bool {
    for byte in inside {
        match *byte {
            b'}' => return true,
            b';' | b'=' | b'(' => return false,
            _ => {}
        }
    }
    false
}

/// What stands for a `{` behind these bytes of its line, where it ends the line or not.
fn word_for_brace(before: &[u8], ends_line: bool) -> Option<Fact> {
    let word = word_at(behind_brace(before));
    if is_one(BEFORE_STATEMENTS, last_word(before)) {
        Some(Fact::NothingMeant)
    } else if is_one(&["IF", "ELSIF"], word) {
        Some(Fact::ThenMeant)
    } else if is_one(&["WHILE", "FOR"], word) {
        Some(Fact::DoMeant)
    } else if is_one(&["PROCEDURE"], word) {
        Some(Fact::BeginMeant)
    } else if before.is_empty() && !ends_line {
        Some(Fact::CommentThere)
    } else {
        None
    }
}

/// The letters and digits with which bytes end.
fn last_word(bytes: &[u8]) -> &[u8] {
    let mut begin = 0;
    for (at, byte) in bytes.iter().enumerate() {
        if !byte.is_ascii_alphanumeric() {
            begin = at.saturating_add(1);
        }
    }
    halves(bytes, begin).1
}

/// Bytes without a `}` before them and blanks behind that.
fn behind_brace(bytes: &[u8]) -> &[u8] {
    match bytes {
        [b'}', behind @ ..] => behind.trim_ascii_start(),
        _ => bytes,
    }
}

/// What `//` is meant to be between the bytes before it in its line and those behind it: a quotient between two operands, behind which
/// no further word stands; else a comment. A name that ends the line may be both.
fn slashes_meant(before: &[u8], behind: &[u8]) -> Option<Fact> {
    let behind = behind.trim_ascii();
    let rest = behind_word(behind).trim_ascii_start();
    let word = word_at(rest);
    let is_word = !word.is_empty() && !is_one(BEHIND_OPERANDS, word);
    if !ends_operand(before.trim_ascii()) || !begins_operand(behind) || is_word {
        Some(Fact::CommentThere)
    } else if rest.is_empty() && !word_at(behind).is_empty() {
        None
    } else {
        Some(Fact::QuotientThere)
    }
}

/// What stands behind the letters and digits with which bytes begin.
fn behind_word(bytes: &[u8]) -> &[u8] {
    for (at, byte) in bytes.iter().enumerate() {
        if !byte.is_ascii_alphanumeric() {
            return halves(bytes, at).1;
        }
    }
    &[]
}

/// Whether an operand may end with the last of some bytes.
fn ends_operand(bytes: &[u8]) -> bool {
    match bytes {
        [.., last] => last.is_ascii_alphanumeric() || *last == b')' || *last == b']',
        [] => false,
    }
}

/// Whether an operand may begin with the first of some bytes.
fn begins_operand(bytes: &[u8]) -> bool {
    match bytes {
        [first, ..] => first.is_ascii_alphanumeric() || *first == b'(',
        [] => false,
    }
}
