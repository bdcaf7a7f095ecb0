//! What is put in place of a slip, and how that is told: a line for each mending that is always the same.

use crate::mending::{Elsewhere, Mending, Told};
use std::alloc::{AllocError, Global};

/// What is put, and how that is told.
#[derive(Clone, Copy)]
pub struct Fix {
    put: &'static [u8],
    told: &'static str,
}

/// One of them.
macro_rules! fix {
    ($put:expr => $told:expr) => {
        Fix { put: $put, told: $told }
    };
}

// What is put has no line feed, so that each line stays where it is; an operator of letters stands between blanks, and so do THEN and DO.

// there is none
pub const SEMICOLON: Fix = fix!(b";" => "with a ; before it");

pub const COLON_BEFORE: Fix = fix!(b":" => "with a : before it");

pub const COMMA_BEFORE: Fix = fix!(b"," => "with a , before it");

pub const EQUAL_BEFORE: Fix = fix!(b"=" => "with = before it");

pub const LEFT_PAREN: Fix = fix!(b"(" => "with a ( before it");

pub const PAREN_BEFORE: Fix = fix!(b")" => "with a ) before it");

pub const BRACKET_BEFORE: Fix = fix!(b"]" => "with a ] before it");

pub const OF_BEFORE: Fix = fix!(b" OF " => "with OF before it");

pub const OF_TYPE: Fix = fix!(b" OF INTEGER" => "with OF INTEGER before it");

pub const THEN_BEFORE: Fix = fix!(b" THEN " => "with THEN before it");

pub const DO_BEFORE: Fix = fix!(b" DO " => "with DO before it");

pub const TYPE_BEFORE: Fix = fix!(b": INTEGER" => "with : INTEGER before it");

pub const COMMENT_END: Fix = fix!(b" *)" => "with *) at the end of this line");

pub const DOT: Fix = fix!(b"." => "with a . at the end");

pub const END_THERE: Fix = fix!(b" END " => "with END before it");

pub const END_BEFORE: Fix = fix!(b"; END " => "with one more END before it");

pub const RECORD_END: Fix = fix!(b" END; " => "with END; before it");

pub const VAR_BEFORE: Fix = fix!(b"VAR " => "with VAR before it");

pub const CONST_BEFORE: Fix = fix!(b"CONST " => "with CONST before it");

pub const TYPE_SECTION: Fix = fix!(b"TYPE " => "with TYPE before it");

pub const BEGIN_BEFORE: Fix = fix!(b"BEGIN " => "with BEGIN before it");

pub const VAR_NAME: Fix = fix!(b"VAR " => "with VAR before the name");

pub const TYPE_NAME: Fix = fix!(b"TYPE " => "with TYPE before the name");

pub const BEGIN_NAME: Fix = fix!(b"BEGIN " => "with BEGIN before the statement");

// another one stands there
pub const ASSIGN: Fix = fix!(b":=" => "with := in its place");

pub const ARROW: Fix = fix!(b":=" => "with := for <-");

pub const ONE_EQUAL: Fix = fix!(b"=" => "with one =");

pub const ONE_AND: Fix = fix!(b"&" => "with one &");

pub const DIV: Fix = fix!(b" DIV " => "with DIV in its place");

pub const MOD: Fix = fix!(b" MOD " => "with MOD in its place");

pub const OR: Fix = fix!(b" OR " => "with OR in its place");

pub const NOT: Fix = fix!(b"~" => "with ~ in its place");

pub const NOT_EQUAL: Fix = fix!(b"#" => "with # in its place");

pub const UNEQUAL: Fix = fix!(b"#" => "with # for <>");

pub const AT_LEAST: Fix = fix!(b">=" => "with >= for =>");

pub const AT_MOST: Fix = fix!(b"<=" => "with <= for =<");

pub const THEN: Fix = fix!(b" THEN " => "with THEN in its place");

pub const DO: Fix = fix!(b" DO " => "with DO in its place");

pub const COLON: Fix = fix!(b":" => "with : in its place");

pub const EQUAL: Fix = fix!(b"=" => "with = in its place");

pub const SEMICOLON_THERE: Fix = fix!(b";" => "with ; in its place");

// a word of another language does
pub const AND_WORD: Fix = fix!(b"&" => "with & for AND");

pub const AND_THEN: Fix = fix!(b"&" => "with & for AND THEN");

pub const NOT_WORD: Fix = fix!(b"~" => "with ~ for NOT");

pub const UNEQUAL_WORD: Fix = fix!(b"#" => "with # for XOR");

pub const PROCEDURE_WORD: Fix = fix!(b"PROCEDURE" => "with PROCEDURE for the word before it");

pub const PROCEDURE_THERE: Fix = fix!(b"PROCEDURE" => "with PROCEDURE in its place");

pub const MODULE_WORD: Fix = fix!(b"MODULE" => "with MODULE written there");

pub const UNTIL_WORD: Fix = fix!(b"UNTIL 0=0 " => "with UNTIL and a condition in its place");

pub const INDEX: Fix = fix!(b"][" => "with ][ in its place");

pub const OF_ARRAY: Fix = fix!(b" OF ARRAY " => "with OF ARRAY in its place");

pub const COMMA_THERE: Fix = fix!(b"," => "with , in its place");

pub const DOT_THERE: Fix = fix!(b"." => "with . in its place");

pub const THEN_FOR: Fix = fix!(b" THEN " => "with THEN for {");

pub const BEGIN_FOR: Fix = fix!(b"; BEGIN " => "with ; BEGIN for {");

pub const BEGIN_COLON: Fix = fix!(b"; BEGIN " => "with ; BEGIN for the :");

pub const DO_FOR: Fix = fix!(b" DO " => "with DO for {");

pub const END_FOR: Fix = fix!(b" END " => "with END for }");

pub const END_SEMICOLON: Fix = fix!(b" END; " => "with END; for }");

pub const ELSIF_WORD: Fix = fix!(b"ELSIF" => "with ELSIF written there");

pub const LOOP_WORD: Fix = fix!(b"WHILE TRUE DO " => "with WHILE TRUE DO for LOOP");

pub const END_WORD: Fix = fix!(b"END" => "with END written there");

pub const RECORD_WORD: Fix = fix!(b"RECORD" => "with RECORD for the word before it");

pub const EQUAL_TYPED: Fix = fix!(b"=" => "with = for this type and the := behind it");

pub const EQUAL_RECORD: Fix = fix!(b"= RECORD" => "with = RECORD in its place");

// something is too much
pub const NOTHING: Fix = fix!(b"" => "with this left out");

pub const VAR_WORD: Fix = fix!(b"VAR" => "with VAR for the word before it");

pub const VAR_THERE: Fix = fix!(b"VAR" => "with VAR in its place");

pub const WORD_BEFORE: Fix = fix!(b"" => "with the word before it left out");

pub const EXPORT: Fix = fix!(b"" => "with the * left out");

pub const END_LEFT_OUT: Fix = fix!(b"" => "with the END before it left out");

pub const COMMA_LEFT_OUT: Fix = fix!(b"" => "with the , before it left out");

pub const SEMICOLON_LEFT_OUT: Fix = fix!(b"" => "with the ; before it left out");

pub const HEADING_PAREN: Fix = fix!(b")" => "with a ) before the ; of the heading");

pub const POINTER: Fix = fix!(b"" => "with POINTER TO left out");

pub const IMPORT: Fix = fix!(b"" => "with the IMPORT left out");

pub const COMMENT: Fix = fix!(b"" => "with this comment left out");

pub const STATEMENT: Fix =
    fix!(b"" => "with this statement left out, whatever else is wrong in it");

pub const CONDITION: Fix =
    fix!(b"0=0 " => "with this condition left out, whatever else is wrong in it");

pub const BODY: Fix =
    fix!(b"" => "with the statements of this body left out, whatever else is wrong in them");

pub const DECLARATION: Fix = fix!(b"" => "with this declaration left out");

pub const PROCEDURE: Fix =
    fix!(b"" => "with this procedure left out, whatever else is wrong in it");

pub const VAR_PARAMETER: Fix = fix!(b"VAR " => "with VAR before the parameter");

pub const LOOP_HEADING: Fix = fix!(b"WHILE 0=0 DO" => "with a WHILE for the FOR");

pub const LOOP: Fix = fix!(b"WHILE 0=0 " => "with a WHILE for the FOR");

pub const RESULT: Fix = fix!(b"" => "with this type left out");

pub const INITIAL: Fix = fix!(b"" => "with this value left out");

pub const BYTE: Fix = fix!(b"" => "with this byte left out");

// a value or a type is none
pub const ZERO: Fix = fix!(b"0" => "with 0 in its place");

pub const ONE: Fix = fix!(b"1" => "with 1 in its place");

pub const VALUE: Fix = fix!(b" 1 " => "with the value 1");

pub const LENGTH: Fix = fix!(b" 1 " => "with the length 1");

pub const TYPE: Fix = fix!(b" INTEGER " => "with the type INTEGER");

pub const INTEGER: Fix = fix!(b"INTEGER" => "with INTEGER in its place");

pub const FALSE: Fix = fix!(b"FALSE" => "with FALSE in its place");

pub const TRUE: Fix = fix!(b"TRUE" => "with TRUE in its place");

pub const BOOLEAN: Fix = fix!(b"BOOLEAN" => "with BOOLEAN in its place");

/// What is put.
pub fn bytes_of(fix: Fix) -> &'static [u8] {
    fix.put
}

/// How what is put where a line ends is told before the line's number, where that is known.
pub fn told_at_end(fix: Fix) -> Option<&'static str> {
    match fix.put {
        b" THEN " => Some("with THEN at the end of line "),
        b" DO " => Some("with DO at the end of line "),
        b")" => Some("with ) at the end of line "),
        b"]" => Some("with ] at the end of line "),
        _ => None,
    }
}

/// The mending that puts something in place of so many bytes, told so.
pub fn put(
    alloc: Global,
    place: usize,
    taken: usize,
    bytes: &[u8],
    told: Told,
) -> Result<Option<Mending>, AllocError> {
    Ok(Some(Mending {
        place,
        taken,
        put: Vec::from_slice(alloc, bytes)?,
        elsewhere: Elsewhere::Nothing,
        told,
    }))
}

/// The mending that puts what is always the same in place of so many bytes.
pub fn fixed(
    alloc: Global,
    place: usize,
    taken: usize,
    fix: Fix,
) -> Result<Option<Mending>, AllocError> {
    put(alloc, place, taken, fix.put, Told::Words(fix.told))
}

/// The mending that leaves out these bytes at a place, with something in their place; their line feeds stay.
pub fn left_out(
    alloc: Global,
    place: usize,
    bytes: &[u8],
    fix: Fix,
) -> Result<Option<Mending>, AllocError> {
    let mut put = Vec::from_slice(alloc, fix.put)?;
    for byte in bytes {
        put.push(if *byte == b'\n' { b'\n' } else { b' ' })?;
    }
    Ok(Some(Mending {
        place,
        taken: bytes.len(),
        put,
        elsewhere: Elsewhere::Nothing,
        told: Told::Words(fix.told),
    }))
}

/// The mending that puts a word in place of so many bytes, told by the word and by what stands behind it here.
pub fn worded(
    alloc: Global,
    place: usize,
    taken: usize,
    word: &[u8],
    told: &'static str,
) -> Result<Option<Mending>, AllocError> {
    put(alloc, place, taken, word, Told::Put(told))
}

/// The mending of what is changed wherever it stands.
pub fn changed(alloc: Global, place: usize, elsewhere: Elsewhere, told: &'static str) -> Mending {
    Mending {
        place,
        taken: 0,
        put: Vec::new(alloc),
        elsewhere,
        told: Told::Words(told),
    }
}
