//! Sections of declarations that stand behind what belongs behind them.

use crate::mending::{Elsewhere, Mending, Told};
use ob_evidence::text_site::Site;
use ob_explain_sentences::place::halves;
use ob_scan::{Kind, Token};
use std::alloc::{AllocError, Global};

/// The sections before a place that belong behind one: the first of them, and whether the one before them is of the same kind.
#[derive(Clone, Copy)]
struct Misplaced {
    first: Token,
    joins: bool,
}

/// The mending of a section that stands behind one that belongs behind it: it is put before that. Behind another one of its kind its
/// first word is left out.
pub fn order_mending(alloc: Global, site: &Site<'_, '_>) -> Result<Option<Mending>, AllocError> {
    let (Some(here), Some(end)) = (site.here(), section_end(site.behind)) else {
        return Ok(None);
    };
    let own = rank(here.kind);
    if own == 0 {
        return Ok(None);
    }
    let Some(misplaced) = misplaced_before(site.before, own) else {
        return Ok(None);
    };
    let begin = if misplaced.joins {
        here.end
    } else {
        here.start
    };
    let (section, _) = halves(halves(site.text, begin).1, end.start.saturating_sub(begin));
    let taken = end.start.saturating_sub(here.start);
    Ok(Some(Mending {
        place: misplaced.first.start,
        taken: 0,
        put: in_one_line(alloc, section)?,
        elsewhere: Elsewhere::Moved(here.start, taken),
        told: Told::Line(told_of(misplaced.joins), ""),
    }))
}

/// How it is told, before its line: whether its first word is left out.
fn told_of(joins: bool) -> &'static str {
    if joins {
        "with what it declares, without the word before it, put before line "
    } else {
        "with this section put before line "
    }
}

/// Bytes with a blank for each line feed.
pub fn in_one_line(alloc: Global, bytes: &[u8]) -> Result<Vec<u8>, AllocError> {
    let mut line = Vec::new(alloc);
    for byte in bytes {
        line.push(if *byte == b'\n' { b' ' } else { *byte })?;
    }
    Ok(line)
}

/// The order of the sections: only what has one has a place in it.
fn rank(kind: Kind) -> usize {
    match kind {
        Kind::Const => 1,
        Kind::Type => 2,
        Kind::Var => 3,
        Kind::Procedure => 4,
        _ => 0,
    }
}

/// The sections before a place that belong behind one of this rank: these tokens stand before it and go back from there. What stands in a
/// procedure, a record or parentheses is passed over.
fn misplaced_before(tokens: &[Token], own: usize) -> Option<Misplaced> {
    let mut inside: usize = 0;
    let mut first = None;
    for token in tokens {
        let kind = token.kind;
        if matches!(kind, Kind::End | Kind::RightParen) {
            inside = inside.saturating_add(1);
        } else if inside > 0 {
            inside = inside.saturating_sub(opened(kind));
            if inside == 0 && kind == Kind::Procedure && own < rank(kind) {
                first = Some(*token);
            }
        } else if own < rank(kind) && kind != Kind::Procedure {
            first = Some(*token);
        } else if opened(kind) > 0
            || rank(kind) > 0
            || kind == Kind::Begin
            || kind == Kind::Module
        {
            let joins = rank(kind) == own;
            return first.map(|first| Misplaced { first, joins });
        }
    }
    None
}

/// How many an END or a `)` closes by this token.
pub fn opened(kind: Kind) -> usize {
    match kind {
        Kind::If | Kind::While | Kind::Record | Kind::Procedure | Kind::LeftParen => 1,
        _ => 0,
    }
}

/// The token before which a section ends, among those behind its first: another section, a body, or behind a `;` a name that begins no
/// declaration.
fn section_end(tokens: &[Token]) -> Option<Token> {
    let mut inside: usize = 0;
    let mut last = Kind::Module;
    let mut named: Option<Token> = None;
    for token in tokens {
        let kind = token.kind;
        if named.is_some() && !follows_declared(kind) {
            return named;
        }
        if kind == Kind::Record {
            inside = inside.saturating_add(1);
        } else if kind == Kind::End && inside > 0 {
            inside -= 1;
        } else if rank(kind) > 0 || matches!(kind, Kind::Begin | Kind::End) {
            return Some(*token);
        }
        let is_first = inside == 0 && last == Kind::Semicolon && kind == Kind::Ident;
        named = is_first.then_some(*token);
        last = kind;
    }
    None
}

/// Whether this may stand behind a name that is declared.
fn follows_declared(kind: Kind) -> bool {
    matches!(
        kind,
        Kind::Equal | Kind::Colon | Kind::Comma | Kind::Times | Kind::Assign
    )
}
