//! The part of a body in which a place stands, a statement or a condition, and the mending that leaves it out.

use crate::fix::{CONDITION, Fix, LOOP, STATEMENT, left_out};
use crate::mending::Mending;
use crate::tokens::{first_behind, first_of};
use ob_evidence::small_keywords::next_behind;
use ob_evidence::text_site::Site;
use ob_explain_sentences::first_word::is_same_in_any_case;
use ob_explain_sentences::place::halves;
use ob_scan::{Kind, Token};
use std::alloc::{AllocError, Global};

/// A part of a body: the token behind which it begins, its first one, and the one before which it ends.
#[derive(Clone, Copy)]
pub struct Part {
    pub leader: Token,
    pub first: Token,
    pub end: Token,
}

/// With these a section of a module or a procedure begins: its heading, declarations, or its body.
pub const SECTIONS: &[Kind] = &[
    Kind::Module,
    Kind::Procedure,
    Kind::Const,
    Kind::Type,
    Kind::Var,
    Kind::Begin,
];

/// Behind these a condition begins.
pub(crate) const CONDITIONS: &[Kind] = &[Kind::If, Kind::Elsif, Kind::While, Kind::Until];

/// Behind these a condition or a statement does.
const LEADERS: &[Kind] = &[
    Kind::If,
    Kind::Elsif,
    Kind::While,
    Kind::Until,
    Kind::Semicolon,
    Kind::Begin,
    Kind::Then,
    Kind::Else,
    Kind::Do,
    Kind::Repeat,
];

/// Before these a statement ends.
pub const ENDS: &[Kind] = &[
    Kind::Semicolon,
    Kind::End,
    Kind::Else,
    Kind::Elsif,
    Kind::Until,
];

/// Before these a part ends, or another construct begins.
const STOPS: &[Kind] = &[
    Kind::Semicolon,
    Kind::End,
    Kind::Else,
    Kind::Elsif,
    Kind::Until,
    Kind::Then,
    Kind::Do,
    Kind::If,
    Kind::While,
    Kind::Repeat,
    Kind::Begin,
    Kind::Procedure,
];

/// The mending that leaves out the assignment, the call or the condition in which the place stands. Of a FOR a WHILE is made.
pub fn part_mending(alloc: Global, site: &Site<'_, '_>) -> Result<Option<Mending>, AllocError> {
    let Some(part) = part_at(site) else {
        return Ok(None);
    };
    let Some(fix) = without(site, part) else {
        return Ok(None);
    };
    let (_, from) = halves(site.text, part.first.start);
    let length = part.end.start.saturating_sub(part.first.start);
    left_out(alloc, part.first.start, halves(from, length).0, fix)
}

/// The part of a body in which the place stands.
pub fn part_at(site: &Site<'_, '_>) -> Option<Part> {
    if !is_in_body(site.before) {
        return None;
    }
    let leader = first_of(site.before, LEADERS)?;
    let first = next_behind(site.tokens, leader.start)?;
    let end = first_behind(site.tokens, leader.start, STOPS)?;
    Some(Part { leader, first, end })
}

/// Whether the first of these tokens with which a section begins is a BEGIN, and no procedure ends before it: its END, its name and a `;`.
pub fn is_in_body(tokens: &[Token]) -> bool {
    let mut next = Kind::Module;
    let mut second = Kind::Module;
    for token in tokens {
        if SECTIONS.contains(&token.kind) {
            return token.kind == Kind::Begin;
        }
        if token.kind == Kind::End && next == Kind::Ident && second == Kind::Semicolon {
            return false;
        }
        second = next;
        next = token.kind;
    }
    false
}

/// Words with which other languages begin a statement that has others in it.
const OPENERS: [&[u8]; 9] = [
    b"CASE", b"SWITCH", b"LOOP", b"WITH", b"UNLESS", b"FOREACH", b"TRY", b"MATCH", b"SELECT",
];

/// Whether a token is a name, a number or a sign with which people begin a statement.
fn begins_statement(kind: Kind) -> bool {
    matches!(
        kind,
        Kind::Ident
            | Kind::Number
            | Kind::Assign
            | Kind::Equal
            | Kind::Plus
            | Kind::Minus
            | Kind::LeftParen
    )
}

/// Whether a word is one of these.
fn opens(word: &[u8]) -> bool {
    for opener in &OPENERS {
        if is_same_in_any_case(word, opener) {
            return true;
        }
    }
    false
}

/// What is put in place of a part that is left out: of a condition that ends as one does, and of a statement that begins with a name and ends
/// as one does.
fn without(site: &Site<'_, '_>, part: Part) -> Option<Fix> {
    let ends_statement = ENDS.contains(&part.end.kind);
    match part.leader.kind {
        Kind::If | Kind::Elsif if part.end.kind == Kind::Then => Some(CONDITION),
        Kind::While if part.end.kind == Kind::Do => Some(CONDITION),
        Kind::Until if ends_statement => Some(CONDITION),
        Kind::If | Kind::Elsif | Kind::While | Kind::Until => None,
        _ if !begins_statement(part.first.kind) || opens(site.word_of(Some(part.first))) => None,
        _ if ends_statement && is_same_in_any_case(site.word_of(Some(part.first)), b"FOR") => {
            None
        }
        _ if ends_statement => Some(STATEMENT),
        _
            if part.end.kind == Kind::Do
                && is_same_in_any_case(site.word_of(Some(part.first)), b"FOR") => { Some(LOOP) }
        _ => None,
    }
}
