//! Declarations and headings as other languages write them: words before a name that is declared, and a type before its name.

use crate::foreign_words::{HEADINGS, TYPES, first_same, prefix_meant};
use crate::words::is_new;
use ob_evidence::small_keywords::next_behind;
use ob_evidence::text_site::{Site, is_kind, kind_or_name, rest_of};
use ob_explain_names::declarations::first_of;
use ob_explain_sentences::first_word::is_same_in_any_case;
use ob_explain_tokens::open::is_in_record;
use ob_explain_tokens::parens::is_in_parens;
use ob_mendings::fix::{
    COLON_BEFORE, Fix, NOTHING, PROCEDURE_THERE, VAR_THERE, WORD_BEFORE, bytes_of, fixed, worded,
};
use ob_mendings::mending::{Elsewhere, Mending, Told};
use ob_mendings::part::is_in_body;
use ob_mendings::tokens::{between, first_behind, first_of as token_of, length_of};
use ob_scan::{Kind, Token};
use std::alloc::{AllocError, Global};

/// The mending of the word before a name, where that is the name of a procedure, or one that is declared.
pub(crate) fn prefix_mending(
    alloc: Global,
    site: &Site<'_, '_>,
) -> Result<Option<Mending>, AllocError> {
    let (Some(name), Some(here)) = (site.last(), site.here()) else {
        return Ok(None);
    };
    if is_in_body(site.before) {
        return Ok(None);
    }
    if let Some(heading) = heading_there(site) {
        // `public void P(int x)`
        if is_too_much(site, name) {
            return fixed(alloc, name.start, length_of(Some(name)), WORD_BEFORE);
        }
        return heading_with(alloc, site, here, heading);
    }
    // `private int x;`, behind another variable and before all, `public static void P`
    let is_before_type = type_meant(site.word()).is_some() && is_kind(site.next(), Kind::Ident);
    if is_too_much(site, name) && (is_before_type || is_too_much(site, here)) {
        return fixed(alloc, name.start, length_of(Some(name)), WORD_BEFORE);
    }
    if is_too_much(site, here) && type_meant(site.word_of(site.next())).is_some() {
        return fixed(alloc, here.start, length_of(Some(here)), NOTHING);
    }
    if let Some(last) = variable_there(site) {
        let length = last.end.saturating_sub(here.start);
        return fixed(alloc, here.start, length, VAR_THERE);
    }
    word_before(alloc, site, name)
}

/// The mending of this word before a name at the place: PROCEDURE for it, or what is put before what is declared.
fn word_before(
    alloc: Global,
    site: &Site<'_, '_>,
    name: Token,
) -> Result<Option<Mending>, AllocError> {
    let word = site.word_of(Some(name));
    let is_heading = is_kind(site.second(), Kind::Procedure);
    if !is_kind(site.here(), Kind::Ident) || !is_heading && !is_new(site, name) {
        return Ok(None);
    }
    if let Some(heading) = first_same(HEADINGS, word)
        && type_meant(site.word()).is_none()
    {
        return heading_with(alloc, site, name, heading.fix);
    }
    match prefix_meant(word) {
        Some(fix) if ends_name(site.next()) && !is_kind(site.second(), Kind::Colon) => {
            fixed(alloc, name.start, length_of(Some(name)), fix)
        }
        _ => Ok(None),
    }
}

/// Whether a token is a word of another language that is too much before what is declared.
fn is_too_much(site: &Site<'_, '_>, token: Token) -> bool {
    match prefix_meant(site.word_of(Some(token))) {
        Some(fix) => is_new(site, token) && bytes_of(fix).is_empty(),
        None => false,
    }
}

/// The last of the words that stand for VAR at the place, as `let` or `let mut`, before a name and what stands behind one in a declaration.
fn variable_there(site: &Site<'_, '_>) -> Option<Token> {
    let (here, next) = (site.here()?, site.next()?);
    let word = site.word();
    let is_var = is_same_in_any_case(word, b"LET") || is_same_in_any_case(word, b"DIM");
    if !is_var || next.kind != Kind::Ident {
        return None;
    }
    let is_second = is_same_in_any_case(site.word_of(Some(next)), b"MUT");
    let behind = kind_or_name(first_of(rest_of(site.behind)));
    match behind {
        Kind::Ident if is_second => Some(next),
        Kind::Colon | Kind::Comma | Kind::Assign | Kind::Equal => Some(here),
        _ => None,
    }
}

/// The mending that puts PROCEDURE for a word; the type of a result behind the heading is left out too.
fn heading_with(
    alloc: Global,
    site: &Site<'_, '_>,
    word: Token,
    fix: Fix,
) -> Result<Option<Mending>, AllocError> {
    match result_in(site.behind) {
        Some((begin, end)) => Ok(Some(Mending {
            place: word.start,
            taken: length_of(Some(word)),
            put: Vec::from_slice(alloc, bytes_of(fix))?,
            elsewhere: Elsewhere::Moved(begin, end.saturating_sub(begin)),
            told: Told::Words("with PROCEDURE for the word, and the type of its result left out"),
        })),
        None => fixed(alloc, word.start, length_of(Some(word)), fix),
    }
}

/// Where the type of a result begins, with its `:`, and ends, in the heading that goes on with these tokens.
fn result_in(tokens: &[Token]) -> Option<(usize, usize)> {
    let mut inside: usize = 0;
    let mut colon: Option<Token> = None;
    let mut end: Option<usize> = None;
    for token in tokens {
        match (token.kind, colon, end) {
            (Kind::Semicolon, Some(colon), Some(end)) => return Some((colon.start, end)),
            (Kind::Ident, Some(_), None) => end = Some(token.end),
            (_, Some(_), _) => return None,
            (Kind::LeftParen, None, _) => inside = inside.saturating_add(1),
            (Kind::RightParen, None, _) => inside = inside.saturating_sub(1),
            (Kind::Colon, None, _) if inside == 0 => colon = Some(*token),
            (Kind::Semicolon | Kind::Begin | Kind::End, None, _) if inside == 0 => return None,
            _ => {}
        }
    }
    None
}

/// PROCEDURE, if a word of another language for it stands at the place, before a name.
fn heading_there(site: &Site<'_, '_>) -> Option<Fix> {
    match first_same(HEADINGS, site.word()) {
        Some(_) if is_kind(site.next(), Kind::Ident) => Some(PROCEDURE_THERE),
        _ => None,
    }
}

/// Whether a token stands behind a name in a list of names.
fn ends_name(token: Option<Token>) -> bool {
    matches!(
        kind_or_name(token),
        Kind::Colon
            | Kind::Comma
            | Kind::Semicolon
            | Kind::LeftParen
            | Kind::RightParen
            | Kind::Times
    )
}

/// The mending of a type before its name, as in `INTEGER x;`: the name, a `:` and the type. Where no variables are declared it has VAR before it.
pub(crate) fn swapped_mending(
    alloc: Global,
    site: &Site<'_, '_>,
) -> Result<Option<Mending>, AllocError> {
    if is_in_body(site.before) {
        return Ok(None);
    }
    if is_typed_name(site) {
        return fixed(alloc, site.place, 0, COLON_BEFORE);
    }
    let is_there = type_meant(site.word()).is_some() && is_kind(site.next(), Kind::Ident);
    let (named, name, end) = if is_there {
        (site.here(), site.next(), first_of(rest_of(site.behind)))
    } else {
        (site.last(), site.here(), site.next())
    };
    let (Some(named), Some(name), Some(end)) = (named, name, end) else {
        return Ok(None);
    };
    match tail_from(site, name, end) {
        Some(tail) if name.kind == Kind::Ident => declared_so(alloc, site, named, name, tail),
        _ => Ok(None),
    }
}

/// Whether a type stands at the place behind a name that is none, and a declaration ends behind it, as in `VAR x int;`.
fn is_typed_name(site: &Site<'_, '_>) -> bool {
    let leader = kind_or_name(site.second());
    let name = site.word_of(site.last());
    type_meant(site.word()).is_some()
        && is_kind(site.last(), Kind::Ident)
        && type_meant(name).is_none()
        && first_same(HEADINGS, name).is_none()
        && matches!(
            leader,
            Kind::Var | Kind::Semicolon | Kind::Comma | Kind::LeftParen | Kind::Record
        )
        && matches!(
            kind_or_name(site.next()),
            Kind::Semicolon | Kind::RightParen | Kind::Comma | Kind::End
        )
}

/// What stands behind a type and a name: where the names end, the length of an array, if there is one, and where the declaration ends.
#[derive(Clone, Copy)]
struct Tail<'t> {
    names: usize,
    length: &'t [u8],
    end: usize,
}

/// What stands behind this name, from that token on: nothing, further names, a length in brackets, or a value, which is told of next.
fn tail_from<'t>(site: &Site<'t, '_>, name: Token, first: Token) -> Option<Tail<'t>> {
    let ends = &[Kind::RightBracket, Kind::Semicolon];
    match first.kind {
        Kind::Semicolon | Kind::RightParen | Kind::Equal | Kind::Assign => Some(Tail {
            names: name.end,
            length: b"",
            end: name.end,
        }),
        Kind::Comma => {
            let last = last_name(site, first)?;
            Some(Tail {
                names: last.end,
                length: b"",
                end: last.end,
            })
        }
        Kind::LeftBracket => {
            let close = first_behind(site.tokens, first.start, ends)?;
            let behind = next_behind(site.tokens, close.start)?;
            if close.kind != Kind::RightBracket || behind.kind != Kind::Semicolon {
                return None;
            }
            Some(Tail {
                names: name.end,
                length: between(site.text, first.end, close.start),
                end: close.end,
            })
        }
        _ => None,
    }
}

/// The last of the names that commas separate, from this one on, up to a `;`.
fn last_name(site: &Site<'_, '_>, comma: Token) -> Option<Token> {
    let mut last = comma;
    for token in site.tokens {
        if token.start <= comma.start {
            continue;
        }
        match (last.kind, token.kind) {
            (Kind::Comma, Kind::Ident) | (Kind::Ident, Kind::Comma) => last = *token,
            (Kind::Ident, Kind::Semicolon) => return Some(last),
            _ => return None,
        }
    }
    None
}

/// The mending of the name of a type and a name behind it, with what stands behind that.
fn declared_so(
    alloc: Global,
    site: &Site<'_, '_>,
    named: Token,
    name: Token,
    tail: Tail<'_>,
) -> Result<Option<Mending>, AllocError> {
    let Some(meant) = type_meant(site.word_of(Some(named))) else {
        return Ok(None);
    };
    let mut put = Vec::from_slice(alloc, section_for(site))?;
    put.extend_from_slice(between(site.text, name.start, tail.names))?;
    put.extend_from_slice(b": ")?;
    if !tail.length.is_empty() {
        put.extend_from_slice(b"ARRAY ")?;
        put.extend_from_slice(tail.length)?;
        put.extend_from_slice(b" OF ")?;
    }
    put.extend_from_slice(meant)?;
    let taken = tail.end.saturating_sub(named.start);
    worded(alloc, named.start, taken, &put, " in its place")
}

/// What stands before the name of a variable that is declared at the place: nothing in a record, a list of parameters or a section of variables.
fn section_for(site: &Site<'_, '_>) -> &'static [u8] {
    // a VAR among the parameters of a heading begins no section
    let kinds = [
        Kind::Var,
        Kind::Const,
        Kind::Type,
        Kind::Module,
        Kind::Procedure,
        Kind::RightParen,
    ];
    let section = token_of(site.before, &kinds);
    if is_in_parens(site.before) || is_in_record(site.before) || is_kind(section, Kind::Var) {
        b""
    } else {
        b"VAR "
    }
}

/// The type that a word is, or that is meant by it.
fn type_meant(word: &[u8]) -> Option<&'static [u8]> {
    if is_same_in_any_case(word, b"INTEGER") {
        Some(b"INTEGER")
    } else if is_same_in_any_case(word, b"BOOLEAN") || is_same_in_any_case(word, b"BOOL") {
        Some(b"BOOLEAN")
    } else if first_same(TYPES, word).is_some() {
        Some(b"INTEGER")
    } else {
        None
    }
}
