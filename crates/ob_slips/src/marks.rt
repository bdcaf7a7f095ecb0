//! Tokens that are missing, or stand where another one is meant: by the tokens around a place, and by what could stand there.

use ob_evidence::text_site::{Site, is_kind, kind_of, rest_of};
use ob_explain_names::declarations::first_of;
use ob_explain_names::expected::expected_kinds;
use ob_explain_sentences::first_word::{is_same, is_same_in_any_case};
use ob_explain_sentences::place::halves;
use ob_explain_tokens::open::is_in_record;
use ob_explain_words::declaring::declares;
use ob_mendings::fix::{
    BEGIN_BEFORE, BEGIN_NAME, BRACKET_BEFORE, COLON, COLON_BEFORE, COMMA_BEFORE, COMMA_LEFT_OUT,
    COMMA_THERE, CONST_BEFORE, DO, DO_BEFORE, END_LEFT_OUT, EQUAL, EQUAL_BEFORE, EXPORT, Fix,
    HEADING_PAREN, INDEX, LEFT_PAREN, NOTHING, OF_ARRAY, OF_BEFORE, OF_TYPE, PAREN_BEFORE,
    SEMICOLON, SEMICOLON_LEFT_OUT, SEMICOLON_THERE, THEN, THEN_BEFORE, TYPE_BEFORE, TYPE_NAME,
    TYPE_SECTION, UNTIL_WORD, VAR_BEFORE, VAR_NAME, bytes_of, fixed, put, told_at_end,
};
use ob_mendings::mending::{Mending, Told};
use ob_mendings::part::is_in_body;
use ob_mendings::tokens::{ends_line, first_of as first_kind, length_of};
use ob_scan::{Kind, Token};
use std::alloc::{AllocError, Global};

/// What stands around a place: the last token before it that is no number, and no name but that of a type, the one there, and the next one.
/// An empty list asks for nothing.
#[derive(Clone, Copy)]
struct Mark {
    behind: &'static [Kind],
    asked: Asked,
    here: &'static [Kind],
    next: &'static [Kind],
    /// A token of this kind could stand there.
    could: Kind,
    meant: Meant,
}

/// What else is asked for: that a line ends before the place, that the text does not declare the name before it, or does, that it declares the
/// one there, or does not, that this is LOOP, that a `)` comes before another statement, that behind what comes next stands an UNTIL, or what stands behind the name in a
/// declaration, that the place stands in no record and in no body, or so with a type behind what comes next.
#[derive(Clone, Copy)]
enum Asked {
    Nothing,
    Line,
    New,
    Old,
    Known,
    Unknown,
    Closed,
    Until,
    Loop,
    Named,
    Outside,
    Typed,
}

/// What is meant, before the token there, in its place, or before the last one.
#[derive(Clone, Copy)]
enum Meant {
    Before(Fix),
    There(Fix),
    Last(Fix),
    Second(Fix),
    /// Nothing in place of the last one.
    Out(Fix),
    /// A `;`, which is told by its line where a line ends.
    Semicolon(Fix),
}

/// A table: in each row what stands around the place, and what is meant.
macro_rules! marks {
    ($($behind:expr, $asked:ident, $here:expr, $next:expr, $could:expr => $where:ident $fix:expr;)*) => {
        &[$(Mark {
            behind: $behind,
            asked: Asked::$asked,
            here: $here,
            next: $next,
            could: $could,
            meant: Meant::$where($fix),
        }),*]
    };
}

/// The marks that are known. Where several stand at a place, the first one counts. The name of a type of the language counts as TYPE.
const MARKS: &[Mark] = marks! {
    // `IF x > 1 WHILE`, `IF x > 1 x := 2`, and where a line ends `IF b a[1] := 2`
    &[], Nothing, &[Kind::If, Kind::While, Kind::Repeat, Kind::End, Kind::Else, Kind::Elsif], &[], Kind::Then => Before THEN_BEFORE;
    &[], Nothing, &[Kind::Ident], &[Kind::Assign, Kind::LeftParen], Kind::Then => Before THEN_BEFORE;
    &[], Line, &[Kind::Ident], &[Kind::LeftBracket, Kind::Dot, Kind::Semicolon, Kind::End, Kind::Else, Kind::Elsif], Kind::Then => Before THEN_BEFORE;
    // `IF x > 1 TEHN x := 2`
    &[], Unknown, &[Kind::Ident], &[Kind::Ident, Kind::If, Kind::While, Kind::Repeat], Kind::Then => There THEN;
    // `IF x > 1:`, `IF x > 1; THEN`, `IF x > 1; x := 2`
    &[], Nothing, &[Kind::Colon, Kind::Do, Kind::Begin], &[], Kind::Then => There THEN;
    &[], Nothing, &[Kind::Semicolon], &[Kind::Then], Kind::Then => There NOTHING;
    &[], Nothing, &[Kind::Semicolon], &[], Kind::Then => Before THEN_BEFORE;
    // the same of a WHILE
    &[], Nothing, &[Kind::If, Kind::While, Kind::Repeat], &[], Kind::Do => Before DO_BEFORE;
    &[], Nothing, &[Kind::Ident], &[Kind::Assign, Kind::LeftParen], Kind::Do => Before DO_BEFORE;
    &[], Line, &[Kind::Ident], &[Kind::LeftBracket, Kind::Dot, Kind::Semicolon, Kind::End], Kind::Do => Before DO_BEFORE;
    // `WHILE x > 1 DOO x := 2`
    &[], Unknown, &[Kind::Ident], &[Kind::Ident, Kind::If, Kind::While, Kind::Repeat], Kind::Do => There DO;
    &[], Nothing, &[Kind::Colon, Kind::Then, Kind::Begin], &[], Kind::Do => There DO;
    &[], Loop, &[Kind::Ident], &[], Kind::Do => There DO;
    &[], Nothing, &[Kind::Semicolon], &[Kind::Do], Kind::Do => There NOTHING;
    // `IF x > 1 THEN BEGIN`
    &[Kind::Then, Kind::Else, Kind::Do, Kind::Repeat], Nothing, &[Kind::Begin], &[], Kind::If => There NOTHING;
    // `REPEAT .. END UNTIL b`, `REPEAT .. END; UNTIL b`, `REPEAT .. END`
    &[], Nothing, &[Kind::End], &[Kind::Until], Kind::Until => There NOTHING;
    &[], Until, &[Kind::End], &[Kind::Semicolon], Kind::Until => There NOTHING;
    &[], Nothing, &[Kind::End], &[], Kind::Until => There UNTIL_WORD;
    // `a[i, j]`, `ARRAY 4, 5 OF INTEGER`
    &[], Nothing, &[Kind::Comma], &[], Kind::RightBracket => There INDEX;
    &[], Nothing, &[Kind::Comma], &[], Kind::Of => There OF_ARRAY;
    // `P(1; 2)`, `P(1; x)`
    &[], Closed, &[Kind::Semicolon], &[], Kind::Comma => There COMMA_THERE;
    // `IF a THEN x := 1 END ELSE x := 2 END`
    &[Kind::End], Nothing, &[Kind::Else, Kind::Elsif], &[], Kind::Semicolon => Out END_LEFT_OUT;
    // `TYPE T = RECORD .. END RECORD;`, `a OR ELSE b`
    &[Kind::End], Nothing, &[Kind::Record], &[], Kind::Semicolon => There NOTHING;
    &[Kind::Or], Nothing, &[Kind::Else], &[], Kind::Ident => There NOTHING;
    // `VAR x*: INTEGER`, `RECORD key*, value*: INTEGER END`, `CONST n* = 5`
    &[], Nothing, &[Kind::Times], &[Kind::Colon, Kind::Comma], Kind::Colon => There EXPORT;
    &[], Nothing, &[Kind::Times], &[Kind::Equal], Kind::Equal => There EXPORT;
    // `ELSE:`
    &[Kind::Then, Kind::Else, Kind::Do, Kind::Repeat], Nothing, &[Kind::Colon], &[], Kind::If => There NOTHING;
    // `CONST n := 5`, `IF n := 5 THEN`, `CONST n: 5`, `TYPE T: ARRAY 4 OF INTEGER`
    &[Kind::Const, Kind::Type, Kind::Semicolon], New, &[Kind::Assign], &[], Kind::Equal => There EQUAL;
    &[Kind::If, Kind::Elsif, Kind::While, Kind::Until], Nothing, &[Kind::Assign], &[], Kind::Equal => There EQUAL;
    &[Kind::Const, Kind::Semicolon], Nothing, &[Kind::Colon], &[Kind::Number, Kind::Minus], Kind::Equal => There EQUAL;
    &[Kind::Type], Nothing, &[Kind::Colon], &[Kind::Array, Kind::Record, Kind::Type], Kind::Equal => There EQUAL;
    // `CONST n 5`, `TYPE T ARRAY 4 OF INTEGER`
    &[Kind::Const, Kind::Type, Kind::Semicolon], Outside, &[Kind::Number, Kind::Minus, Kind::Array, Kind::Record, Kind::Type], &[],
        Kind::Equal => Before EQUAL_BEFORE;
    // `VAR x INTEGER`, `VAR x := INTEGER`, `VAR x = INTEGER`, `VAR x y: INTEGER`
    &[], Nothing, &[Kind::Array, Kind::Record, Kind::Type], &[], Kind::Colon => Before COLON_BEFORE;
    &[], Nothing, &[Kind::Assign, Kind::Equal], &[Kind::Type], Kind::Colon => There COLON;
    &[Kind::Var, Kind::Record, Kind::Comma], Nothing, &[Kind::Assign, Kind::Equal], &[Kind::Array, Kind::Record], Kind::Colon => There COLON;
    &[Kind::Var, Kind::Record, Kind::Comma, Kind::Semicolon, Kind::LeftParen], Nothing, &[Kind::Ident], &[Kind::Colon, Kind::Comma], Kind::Colon => Before COMMA_BEFORE;
    &[Kind::Var, Kind::Comma, Kind::Semicolon, Kind::LeftParen], Known, &[Kind::Ident], &[Kind::Semicolon, Kind::RightParen], Kind::Colon => Before COLON_BEFORE;
    // `ARRAY 4 INTEGER`, `ARRAY 4;`, `a[i := 2`
    &[], Nothing, &[Kind::Ident, Kind::Array, Kind::Record, Kind::Type], &[], Kind::Of => Before OF_BEFORE;
    &[], Nothing, &[Kind::Semicolon, Kind::RightParen, Kind::End], &[], Kind::Of => Before OF_TYPE;
    &[], Nothing, &[Kind::Assign, Kind::Then, Kind::Do, Kind::Semicolon, Kind::End, Kind::RightParen], &[], Kind::RightBracket => Before BRACKET_BEFORE;
    // `VAR x, y;`, `PROCEDURE P(x, y)`
    &[], Nothing, &[Kind::Semicolon, Kind::RightParen], &[], Kind::Colon => Before TYPE_BEFORE;
};

/// The marks behind those: of declarations, headings, and statements that are joined.
const FURTHER_MARKS: &[Mark] = marks! {
    // a declaration or a statement in no section, or in one of another kind
    &[], Typed, &[Kind::Ident], &[Kind::Equal], Kind::Type => Before TYPE_SECTION;
    &[], Outside, &[Kind::Ident], &[Kind::Equal], Kind::Const => Before CONST_BEFORE;
    &[], Outside, &[Kind::Ident], &[Kind::Colon, Kind::Comma], Kind::Var => Before VAR_BEFORE;
    &[], Outside, &[Kind::Ident], &[Kind::Assign, Kind::LeftParen, Kind::LeftBracket, Kind::Dot], Kind::Begin => Before BEGIN_BEFORE;
    &[], Outside, &[Kind::If, Kind::While, Kind::Repeat], &[], Kind::Begin => Before BEGIN_BEFORE;
    &[Kind::Equal], Outside, &[Kind::Array, Kind::Record], &[], Kind::Number => Second TYPE_NAME;
    &[Kind::Semicolon], Outside, &[Kind::Colon], TYPES, Kind::Equal => Last VAR_NAME;
    &[Kind::Semicolon], Outside, &[Kind::Comma], &[Kind::Ident], Kind::Equal => Last VAR_NAME;
    &[Kind::Semicolon], Old, &[Kind::Assign, Kind::LeftBracket, Kind::Dot], &[], Kind::Colon => Last BEGIN_NAME;
    &[Kind::Semicolon], Old, &[Kind::Assign, Kind::LeftBracket, Kind::Dot], &[], Kind::Equal => Last BEGIN_NAME;
    // `VAR: x: INTEGER`, `CONST;`
    &[Kind::Const, Kind::Type, Kind::Var], Named, &[Kind::Colon], &[Kind::Ident], Kind::Ident => There NOTHING;
    &[Kind::Const, Kind::Type, Kind::Var], Nothing, &[Kind::Semicolon], &[], Kind::Ident => There NOTHING;
    // `VAR x: INTEGER;; y: BOOLEAN`, `END P;; BEGIN`
    &[Kind::Semicolon], Outside, &[Kind::Semicolon], &[], Kind::Begin => There NOTHING;
    // `VAR x, y, : INTEGER`, `RECORD .. END END;`
    &[Kind::Comma], Nothing, &[Kind::Colon], &[], Kind::Ident => Out COMMA_LEFT_OUT;
    &[Kind::End], Outside, &[Kind::End], &[Kind::Semicolon], Kind::Semicolon => There NOTHING;
    // `PROCEDURE P(x: INTEGER;)`, `PROCEDURE P(x: INTEGER; BEGIN`, `PROCEDURE P(CONST x: INTEGER)`, `PROCEDURE P(&x: INTEGER)`, `PROCEDURE: P`
    &[Kind::Semicolon], Nothing, &[Kind::RightParen], &[], Kind::Var => Out SEMICOLON_LEFT_OUT;
    &[Kind::Semicolon], Nothing, &[Kind::Begin, Kind::Const, Kind::Type, Kind::Procedure], &[], Kind::Var => Last HEADING_PAREN;
    &[Kind::LeftParen, Kind::Semicolon], Nothing, &[Kind::Const], &[Kind::Ident], Kind::Var => There NOTHING;
    &[Kind::LeftParen, Kind::Semicolon], Nothing, &[Kind::And, Kind::Times], &[Kind::Ident], Kind::Var => There VAR_NAME;
    &[Kind::Procedure], Nothing, &[Kind::Colon], &[Kind::Ident], Kind::Ident => There NOTHING;
    // a second VAR
    &[Kind::Semicolon, Kind::Comma], Outside, &[Kind::Var], &[Kind::Ident], Kind::Ident => There NOTHING;
    // `VAR x: INTEGER, y: INTEGER`, `CONST n = 5, m = 6`, `VAR x: INTEGER. BEGIN`
    &[Kind::Type, Kind::Colon, Kind::Of, Kind::Equal], Nothing, &[Kind::Comma], &[], Kind::Semicolon => There SEMICOLON_THERE;
    &[Kind::Type, Kind::Colon, Kind::Of, Kind::Equal], Nothing, &[Kind::Dot, Kind::Colon],
        &[Kind::Ident, Kind::Const, Kind::Var, Kind::Procedure, Kind::Begin, Kind::End], Kind::Semicolon => There SEMICOLON_THERE;
    // `END IF;`, `END LOOP;`
    &[Kind::End], Nothing, &[Kind::If, Kind::While, Kind::Repeat], &[Kind::Semicolon, Kind::End, Kind::Else, Kind::Elsif], Kind::Semicolon =>
        There NOTHING;
    &[Kind::End], Loop, &[Kind::Ident], &[Kind::Semicolon, Kind::End, Kind::Else, Kind::Elsif], Kind::Semicolon => There NOTHING;
    // `END P,`, `MODULE M:`, and `PROCEDURE P(x: INTEGER): BEGIN`, where no type of a result is meant
    &[Kind::End, Kind::Module], Nothing, &[Kind::Colon, Kind::Comma],
        &[Kind::Ident, Kind::If, Kind::While, Kind::Repeat, Kind::Const, Kind::Var, Kind::Procedure, Kind::Begin, Kind::End], Kind::Semicolon =>
        There SEMICOLON_THERE;
    &[Kind::RightParen, Kind::Procedure, Kind::Times], Nothing, &[Kind::Colon, Kind::Comma],
        &[Kind::Const, Kind::Var, Kind::Procedure, Kind::Begin, Kind::End], Kind::Semicolon => There SEMICOLON_THERE;
    // `IF (x > 1 THEN`, `x := (y + 1; IF`; before a name the `;` may be what is wrong, as in `P(1; x)`
    &[], Nothing, &[Kind::Then, Kind::Do, Kind::End, Kind::Else, Kind::Elsif, Kind::Until], &[], Kind::RightParen => Before PAREN_BEFORE;
    &[], Nothing, &[Kind::Semicolon], &[Kind::If, Kind::While, Kind::Repeat, Kind::End, Kind::Else, Kind::Elsif, Kind::Until],
        Kind::RightParen => Before PAREN_BEFORE;
    // `P(&x)`, `P(VAR x)`
    &[Kind::LeftParen, Kind::Comma], Nothing, &[Kind::And, Kind::Var], &[Kind::Ident], Kind::Number => There NOTHING;
    // `P(x 1)`
    &[Kind::LeftParen, Kind::Comma], Nothing, &[Kind::Ident, Kind::Number], &[Kind::Comma, Kind::RightParen], Kind::Comma => Before COMMA_BEFORE;
    // `x := = 1`, `b :== 2`, `b := := 3`
    &[Kind::Assign], Nothing, &[Kind::Equal, Kind::Assign], &[], Kind::Number => There NOTHING;
    // `x := a[i]]`, `P(1))`, `IF (x > 1)) THEN`
    &[], Nothing, &[Kind::RightParen, Kind::RightBracket], &[], Kind::And => There NOTHING;
    &[Kind::RightParen], Nothing, &[Kind::RightParen], &[], Kind::Semicolon => There NOTHING;
    // `PROCEDURE P VAR x: INTEGER);`, `P 1);`
    &[], Closed, &[Kind::Var, Kind::Ident, Kind::Number], &[], Kind::LeftParen => Before LEFT_PAREN;
    // `MODULE M VAR x: INTEGER`, `CONST n = 5 VAR x: INTEGER`, `PROCEDURE P(x: INTEGER) BEGIN`
    &[], Outside, &[Kind::Const, Kind::Type, Kind::Var, Kind::Procedure, Kind::Begin], &[], Kind::Semicolon => Semicolon SEMICOLON;
    // `x := 1 y := 2`
    &[Kind::Assign, Kind::Plus, Kind::Minus, Kind::Times, Kind::Div, Kind::Mod, Kind::RightBracket, Kind::End], Nothing, &[Kind::Ident],
        &[Kind::Assign], Kind::Semicolon => Semicolon SEMICOLON;
};

/// The mending by a mark that stands around the place.
pub(crate) fn mark_mending(
    alloc: Global,
    site: &Site<'_, '_>,
) -> Result<Option<Mending>, AllocError> {
    let could = expected_kinds(alloc, site.text, site.place)?;
    if let Some(mark) = first_around(site, &could, MARKS) {
        return meant_there(alloc, site, mark.meant);
    }
    match first_around(site, &could, FURTHER_MARKS) {
        Some(mark) => meant_there(alloc, site, mark.meant),
        None => Ok(None),
    }
}

/// The first of these marks that stands around the place.
fn first_around(site: &Site<'_, '_>, could: &[Kind], marks: &[Mark]) -> Option<Mark> {
    for mark in marks {
        if stands_around(site, could, mark) && holds_there(site, mark.asked) {
            return Some(*mark);
        }
    }
    None
}

/// Whether a mark stands around the place.
fn stands_around(site: &Site<'_, '_>, could: &[Kind], mark: &Mark) -> bool {
    could.contains(&mark.could)
        && is_asked(mark.here, kind_in(site, site.here()))
        && is_asked(mark.next, kind_in(site, site.next()))
        && is_asked(mark.behind, kind_in(site, behind(site)))
}

/// Whether what else is asked for holds at the place.
fn holds_there(site: &Site<'_, '_>, asked: Asked) -> bool {
    match asked {
        Asked::Nothing => true,
        Asked::Line => ends_line(halves(site.text, site.place).0),
        Asked::New => !declares(site.text, site.tokens, site.word_of(site.last())),
        Asked::Old => declares(site.text, site.tokens, site.word_of(site.last())),
        Asked::Known => declares(site.text, site.tokens, site.word()),
        Asked::Unknown => {
            matches!(site.word(), [b'T' | b't' | b'D' | b'd', ..])
                && !declares(site.text, site.tokens, site.word())
        }
        Asked::Closed => is_kind(first_kind(site.behind, STATEMENT), Kind::RightParen),
        Asked::Until => is_kind(first_of(rest_of(site.behind)), Kind::Until),
        Asked::Loop => is_same_in_any_case(site.word(), b"LOOP"),
        Asked::Named => is_asked(
            &[Kind::Colon, Kind::Comma, Kind::Equal],
            kind_of(first_of(rest_of(site.behind))),
        ),
        Asked::Outside => is_outside(site),
        Asked::Typed => is_outside(site)
            && is_asked(TYPES, kind_in(site, first_of(rest_of(site.behind)))),
    }
}

/// The first of these shows whether a list of arguments goes on, or another statement begins.
const STATEMENT: &[Kind] = &[
    Kind::RightParen,
    Kind::LeftParen,
    Kind::Assign,
    Kind::Semicolon,
    Kind::End,
    Kind::Else,
    Kind::Elsif,
    Kind::Until,
    Kind::If,
    Kind::While,
    Kind::Repeat,
];

/// With these a type begins.
const TYPES: &[Kind] = &[Kind::Array, Kind::Record, Kind::Type];

/// Whether the place stands in no record and in no body.
fn is_outside(site: &Site<'_, '_>) -> bool {
    !is_in_record(site.before) && !is_in_body(site.before)
}

/// The last token before the place that is no number, and no name but that of a type of the language.
fn behind(site: &Site<'_, '_>) -> Option<Token> {
    for token in site.before {
        if !matches!(
            kind_in(site, Some(*token)),
            Some(Kind::Ident | Kind::Number)
        ) {
            return Some(*token);
        }
    }
    None
}

/// What a token is: the name of a type of the language counts as TYPE.
fn kind_in(site: &Site<'_, '_>, token: Option<Token>) -> Option<Kind> {
    let word = site.word_of(token);
    if is_same(word, b"INTEGER") || is_same(word, b"BOOLEAN") {
        Some(Kind::Type)
    } else {
        kind_of(token)
    }
}

/// Whether a token is one of these, where any are asked for.
fn is_asked(kinds: &[Kind], token: Option<Kind>) -> bool {
    match (kinds, token) {
        ([], _) => true,
        ([_, ..], Some(kind)) => kinds.contains(&kind),
        ([_, ..], None) => false,
    }
}

/// The mending by what is meant at the place.
fn meant_there(
    alloc: Global,
    site: &Site<'_, '_>,
    meant: Meant,
) -> Result<Option<Mending>, AllocError> {
    match meant {
        Meant::Before(fix) => put_before(alloc, site, fix),
        Meant::There(fix) => fixed(alloc, site.place, length_of(site.here()), fix),
        Meant::Semicolon(fix) if !ends_line(halves(site.text, site.place).0) => {
            fixed(alloc, site.place, 0, fix)
        }
        Meant::Semicolon(_) => semicolon_behind(alloc, site),
        Meant::Out(fix) => fixed(alloc, start_of(site.last()), length_of(site.last()), fix),
        Meant::Last(fix) => fixed(alloc, start_of(site.last()), 0, fix),
        Meant::Second(fix) => fixed(alloc, start_of(site.second()), 0, fix),
    }
}

/// The mending that puts something before the token there: at the end of the line before it, where a line ends.
fn put_before(alloc: Global, site: &Site<'_, '_>, fix: Fix) -> Result<Option<Mending>, AllocError> {
    match (site.last(), told_at_end(fix)) {
        (Some(last), Some(told)) if ends_line(halves(site.text, site.place).0) => {
            put(alloc, last.end, 0, bytes_of(fix), Told::Line(told, ""))
        }
        _ => fixed(alloc, site.place, 0, fix),
    }
}

/// Where a token begins.
fn start_of(token: Option<Token>) -> usize {
    match token {
        Some(token) => token.start,
        None => 0,
    }
}

/// The mending that puts a `;` behind the last token before the place, at the end of its line.
pub(crate) fn semicolon_behind(
    alloc: Global,
    site: &Site<'_, '_>,
) -> Result<Option<Mending>, AllocError> {
    match site.last() {
        Some(last) => {
            let told = Told::Line("with a ; at the end of line ", "");
            put(alloc, last.end, 0, b";", told)
        }
        None => Ok(None),
    }
}
