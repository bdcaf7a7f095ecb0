//! Hints on functions that other languages have, at the parenthesis behind their names.

use crate::table_rows::WhenOf::{Could, Here, Is, Not, Word};
use crate::table_rows::{Fact, PieceOf, Row};
use crate::word_rows::{NO_CHARACTER, NO_REAL, NO_SHIFT};
use ob_scan::Kind;

/// Functions by which other languages tell how many elements an array has.
pub const LENGTH_WORDS: &[&str] = &["LEN", "LENGTH", "SIZE"];

/// A table: in each row the names of functions that no procedure and no array has, what else is seen, and what is said.
macro_rules! rows {
    ($([$words:expr $(, $when:expr)?] => $said:expr $(, $more:expr)*;)*) => {
        &[$(Row {
            when: &[
                Here(&[Kind::LeftParen]), Could(&[Kind::LeftBracket]), Is(Fact::NoArray), Not(Fact::BehindCall),
                Word($words) $(, $when)?
            ],
            said: &[PieceOf::Text($said) $(, $more)*],
        }),*]
    };
}

/// Functions that other languages have.
pub const FUNCTION_ROWS: &[Row] = rows! {
    [&["MAX"]] => "there is no MAX; write IF a < b THEN a := b END; the greatest INTEGER is 2147483647";
    [&["MIN"]] => "there is no MIN; write IF b < a THEN a := b END; the smallest INTEGER is -2147483647 - 1";
    [&["ABS"]] => "there is no ABS; write IF x < 0 THEN x := -x END";
    [&["ODD"]] => "there is no ODD; write x MOD 2 = 1";
    [LENGTH_WORDS, Is(Fact::LengthTold)] =>
        "the length of an array is the one in its declaration, and that of this one is ", PieceOf::Second;
    [&["LEN"]] => "there is no LEN; declare the length as a constant, as CONST n = 4, and the type as ARRAY n OF INTEGER";
    [&["LENGTH", "SIZE", "SIZEOF", "HIGH"]] =>
        "the length of an array is the number in its type; declare it as CONST n = 4, and the type as ARRAY n OF INTEGER";
    [&["SQR", "POW", "POWER"]] => "there are no powers; write a product, as x * x";
    [&["SUCC"]] => "there is no SUCC; write x + 1";
    [&["PRED"]] => "there is no PRED; write x - 1";
    [&["RANDOM", "RAND"]] => "there are no random numbers; a value comes by a parameter of an export";
    [&["ORD"]] => "there is no ORD; write IF b THEN x := 1 ELSE x := 0 END";
    [&["CHR", "CAP"]] => NO_CHARACTER;
    [&["ENTIER", "FLOOR", "FLT", "TRUNC", "ROUND", "SQRT"]] => NO_REAL;
    [&["ASH", "ASR", "LSL", "LSR", "ROR", "SHL", "SHR"]] => NO_SHIFT;
};
