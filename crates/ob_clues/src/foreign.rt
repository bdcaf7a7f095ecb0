//! What words are: of another language, or keywords but for small letters; types.

use ob_explain_sentences::matcher::{View, word_hint};
use ob_explain_sentences::table_rows::Number;

/// Types of numbers of other languages, behind which their bits may stand.
const NUMBER_TYPES: [&str; 5] = ["INT", "UINT", "LONGINT", "SHORTINT", "CARDINAL"];

/// Names of types, in this language or in other ones.
const TYPES: [&str; 7] = [
    "INTEGER", "BOOLEAN", "BOOL", "INT", "REAL", "CHAR", "STRING",
];

/// Keywords behind which other languages have a `:`, or none.
const BEFORE_STATEMENTS: [&str; 9] = [
    "CONST", "TYPE", "VAR", "BEGIN", "THEN", "ELSE", "DO", "REPEAT", "END",
];

/// Words of other languages that stand before a name in its declaration, or before its type.
const MODES: [&str; 2] = ["MUT", "IN"];

/// Whether a word stands in other languages before a name in its declaration, or before its type.
pub fn is_mode(word: &[u8]) -> bool {
    is_one(&MODES, word)
}

/// Whether the tables have a hint on this word: it is one of another language, or a keyword but for small letters.
pub fn is_foreign(word: &[u8]) -> bool {
    word_hint(&View {
        number: Number::C1,
        here: None,
        last: None,
        second: None,
        next: None,
        from: b"",
        word,
        word_before: b"",
        called: b"",
        could: &[],
        facts: &[],
    })
    .is_some()
}

/// Whether a word is a type of numbers that other languages have.
pub fn is_number_type(word: &[u8]) -> bool {
    let mut end: usize = 0;
    for (at, byte) in word.iter().enumerate() {
        if !byte.is_ascii_digit() {
            end = at.saturating_add(1);
        }
    }
    let (letters, _) = word.split_at(end.min(word.len()));
    is_one(&NUMBER_TYPES, letters)
}

/// Whether a word is the name of a type, in this language or in another one.
pub fn is_type_name(word: &[u8]) -> bool {
    is_one(&TYPES, word) || is_number_type(word)
}

/// Whether a word is a keyword behind which statements or declarations stand, in small letters or large.
pub fn begins_part(word: &[u8]) -> bool {
    is_one(&BEFORE_STATEMENTS, word)
}

/// Whether a word is one of these, in small letters or large.
pub(crate) fn is_one(names: &[&str], word: &[u8]) -> bool {
    for name in names {
        if word.eq_ignore_ascii_case(name.as_bytes()) {
            return true;
        }
    }
    false
}
