//! Operands as other languages write them: an index between parentheses, a call in an assignment, and the length of an array.

use crate::words::is_new;
use ob_clues::calls::{call_meant, length_before, length_meant};
use ob_clues::procedure_names::is_procedure;
use ob_evidence::text_site::{Site, is_kind, rest_of};
use ob_explain_names::declarations::first_of;
use ob_explain_sentences::first_word::is_same_in_any_case;
use ob_explain_sentences::function_rows::LENGTH_WORDS;
use ob_explain_words::declaring::declares;
use ob_mendings::fix::worded;
use ob_mendings::mending::Mending;
use ob_mendings::part::part_at;
use ob_mendings::rewritten::are_known;
use ob_mendings::tokens::{between, first_of as token_of, last_before};
use ob_scan::{Kind, Token};
use std::alloc::{AllocError, Global};

/// The mending of an index between parentheses, as `a(i)` of a variable: brackets.
pub(crate) fn index_mending(
    alloc: Global,
    site: &Site<'_, '_>,
) -> Result<Option<Mending>, AllocError> {
    let ends = [Kind::RightParen, Kind::LeftParen, Kind::Semicolon];
    // `a(i)(j) := 1`
    if is_kind(site.here(), Kind::LeftParen) && is_kind(site.last(), Kind::RightParen) {
        return twice_bracketed(alloc, site);
    }
    let (open, close) = if is_kind(site.here(), Kind::Assign) {
        (token_of(site.before, &[Kind::LeftParen]), site.last())
    } else {
        (site.here(), token_of(site.behind, &ends))
    };
    match (open, close) {
        (Some(open), Some(close))
            if open.kind == Kind::LeftParen && close.kind == Kind::RightParen => {
            bracketed(alloc, site, open, close)
        }
        _ => Ok(None),
    }
}

/// The mending that puts brackets for these parentheses, if the name of a variable stands before them.
fn bracketed(
    alloc: Global,
    site: &Site<'_, '_>,
    open: Token,
    close: Token,
) -> Result<Option<Mending>, AllocError> {
    let Some(last) = last_before(site.before, open.start) else {
        return Ok(None);
    };
    let name = site.word_of(Some(last));
    // Behind `a[i]` stands an index of the element.
    let is_element = last.kind == Kind::RightBracket;
    let is_variable = !is_procedure(site, site.tokens, name)
        && declares(site.text, site.tokens, name);
    if !is_element && !is_variable || !are_known(site, open.end, close.start) {
        return Ok(None);
    }
    let begin = if is_element { open.start } else { last.start };
    let mut put = Vec::from_slice(alloc, name)?;
    put.push(b'[')?;
    put.extend_from_slice(between(site.text, open.end, close.start))?;
    put.push(b']')?;
    let taken = close.end.saturating_sub(begin);
    worded(alloc, begin, taken, &put, " in its place")
}

/// The mending of two indices in parentheses, where the second ones begin at the place: brackets for all.
fn twice_bracketed(alloc: Global, site: &Site<'_, '_>) -> Result<Option<Mending>, AllocError> {
    let (Some(first), Some(end), Some(second), Some(close)) = (
        token_of(site.before, &[Kind::LeftParen]),
        site.last(),
        site.here(),
        token_of(
            site.behind,
            &[Kind::RightParen, Kind::LeftParen, Kind::Semicolon],
        ),
    ) else {
        return Ok(None);
    };
    let name = match last_before(site.before, first.start) {
        Some(name) if close.kind == Kind::RightParen => name,
        _ => return Ok(None),
    };
    let word = site.word_of(Some(name));
    if is_procedure(site, site.tokens, word)
        || !declares(site.text, site.tokens, word)
        || !are_known(site, first.end, end.start)
        || !are_known(site, second.end, close.start)
    {
        return Ok(None);
    }
    let mut put = Vec::from_slice(alloc, word)?;
    put.push(b'[')?;
    put.extend_from_slice(between(site.text, first.end, end.start))?;
    put.extend_from_slice(b"][")?;
    put.extend_from_slice(between(site.text, second.end, close.start))?;
    put.push(b']')?;
    let taken = close.end.saturating_sub(name.start);
    worded(alloc, name.start, taken, &put, " in its place")
}

/// The mending of `v := P(x)`, where P gives a value by a VAR parameter behind that: `P(x, v)`.
pub(crate) fn call_mending(
    alloc: Global,
    site: &Site<'_, '_>,
) -> Result<Option<Mending>, AllocError> {
    let call = call_meant(alloc, site)?;
    match part_at(site) {
        Some(part) if !call.is_empty() && are_known(site, part.first.start, part.end.start) => {
            let whole = between(site.text, part.first.start, part.end.start);
            worded(alloc, part.first.start, whole.len(), &call, " in its place")
        }
        _ => Ok(None),
    }
}

/// The mending of `len(a)` and of `a.length`: the length in the declaration of the array.
pub(crate) fn size_mending(
    alloc: Global,
    site: &Site<'_, '_>,
) -> Result<Option<Mending>, AllocError> {
    let is_field = is_kind(site.here(), Kind::Dot);
    let (word, last, length) = if is_field {
        (site.next(), site.next(), length_before(site))
    } else {
        let close = first_of(rest_of(site.behind));
        (site.last(), close, length_meant(site))
    };
    match (site.last(), last) {
        (Some(first), Some(last))
            if !length.is_empty()
                && is_length(site.word_of(word))
                && (is_field || is_new(site, first)) => {
            let taken = last.end.saturating_sub(first.start);
            worded(alloc, first.start, taken, length, " in its place")
        }
        _ => Ok(None),
    }
}

/// Whether a word asks for the length of an array in other languages.
fn is_length(word: &[u8]) -> bool {
    for other in LENGTH_WORDS {
        if is_same_in_any_case(word, other.as_bytes()) {
            return true;
        }
    }
    false
}
