//! Words of other languages, and what is meant by each.

use ob_clues::foreign::is_mode;
use ob_explain_sentences::first_word::is_same_in_any_case;
use ob_mendings::fix::{
    AND_WORD, BOOLEAN, ELSIF_WORD, END_WORD, Fix, INTEGER, LOOP_WORD, MODULE_WORD, NOT_WORD,
    PROCEDURE_WORD, RECORD_WORD, SEMICOLON_THERE, UNEQUAL_WORD, VAR_THERE, VAR_WORD, WORD_BEFORE,
};

/// A word of another language, in capitals or not, and what is meant by it.
#[derive(Clone, Copy)]
pub(crate) struct Foreign {
    pub(crate) word: &'static [u8],
    pub(crate) fix: Fix,
}

/// A table: in each row a word, and what is meant.
macro_rules! words {
    ($($word:expr => $fix:expr;)*) => {
        &[$(Foreign { word: $word, fix: $fix }),*]
    };
}

/// The words that are known.
pub(crate) const WORDS: &[Foreign] = words! {
    b"AND" => AND_WORD;
    b"PROGRAM" => MODULE_WORD;
    b"UNIT" => MODULE_WORD;
    b"NOT" => NOT_WORD;
    b"ELSEIF" => ELSIF_WORD;
    b"ELIF" => ELSIF_WORD;
    b"XOR" => UNEQUAL_WORD;
    b"ENDIF" => END_WORD;
    b"ENDWHILE" => END_WORD;
    b"ENDFOR" => END_WORD;
    b"FI" => END_WORD;
    b"OD" => END_WORD;
    b"WEND" => END_WORD;
    b"LOOP" => LOOP_WORD;
    b"DECLARE" => VAR_THERE;
    b"VARIABLE" => VAR_THERE;
    b"VARIABLES" => VAR_THERE;
    b"IS" => SEMICOLON_THERE;
    b"AS" => SEMICOLON_THERE;
};

/// Words before the name of a procedure in other languages.
pub(crate) const HEADINGS: &[Foreign] = words! {
    b"FUNCTION" => PROCEDURE_WORD;
    b"FUNC" => PROCEDURE_WORD;
    b"PROC" => PROCEDURE_WORD;
    b"VOID" => PROCEDURE_WORD;
    b"DEF" => PROCEDURE_WORD;
    b"SUB" => PROCEDURE_WORD;
    b"FN" => PROCEDURE_WORD;
    b"METHOD" => PROCEDURE_WORD;
};

/// Words before a name that is declared, in other languages or too much here, beside those that `is_mode` knows.
const PREFIXES: &[Foreign] = words! {
    b"VAR" => WORD_BEFORE;
    b"CONST" => WORD_BEFORE;
    b"OUT" => VAR_WORD;
    b"INOUT" => VAR_WORD;
    b"REF" => VAR_WORD;
    b"BYREF" => VAR_WORD;
    b"BYVAL" => WORD_BEFORE;
    b"VAL" => WORD_BEFORE;
    b"LET" => WORD_BEFORE;
    b"DIM" => WORD_BEFORE;
    b"PUBLIC" => WORD_BEFORE;
    b"PRIVATE" => WORD_BEFORE;
    b"EXPORT" => WORD_BEFORE;
    b"STATIC" => WORD_BEFORE;
    b"FINAL" => WORD_BEFORE;
    b"AUTO" => WORD_BEFORE;
};

/// Types of other languages.
pub(crate) const TYPES: &[Foreign] = words! {
    b"INT" => INTEGER;
    b"LONGINT" => INTEGER;
    b"SHORTINT" => INTEGER;
    b"CARDINAL" => INTEGER;
    b"LONG" => INTEGER;
    b"UINT" => INTEGER;
    b"NUMBER" => INTEGER;
    b"BYTE" => INTEGER;
    b"I32" => INTEGER;
    b"I64" => INTEGER;
    b"U8" => INTEGER;
    b"U32" => INTEGER;
    b"U64" => INTEGER;
    b"USIZE" => INTEGER;
    b"INT32" => INTEGER;
    b"INT64" => INTEGER;
    b"CHAR" => INTEGER;
    b"STRING" => INTEGER;
    b"REAL" => INTEGER;
    b"FLOAT" => INTEGER;
    b"DOUBLE" => INTEGER;
    b"BOOL" => BOOLEAN;
};

/// Words for RECORD in other languages.
pub(crate) const RECORDS: &[Foreign] = words! {
    b"STRUCT" => RECORD_WORD;
    b"CLASS" => RECORD_WORD;
    b"OBJECT" => RECORD_WORD;
    b"UNION" => RECORD_WORD;
};

/// What is put for a word before a name that is declared, if it is too much there or of another language.
pub(crate) fn prefix_meant(word: &[u8]) -> Option<Fix> {
    match first_same(PREFIXES, word) {
        Some(prefix) => Some(prefix.fix),
        None if is_mode(word) => Some(WORD_BEFORE),
        None => None,
    }
}

/// The first of these that a word is.
pub(crate) fn first_same(words: &[Foreign], word: &[u8]) -> Option<Foreign> {
    for foreign in words {
        if is_same_in_any_case(word, foreign.word) {
            return Some(*foreign);
        }
    }
    None
}
