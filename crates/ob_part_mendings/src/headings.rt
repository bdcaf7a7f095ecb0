//! Headings of procedures: where the `*` of an export stands, and which name they have.

use ob_evidence::nearest_names::end_name;
use ob_evidence::small_keywords::next_behind;
use ob_evidence::text_site::{Site, is_kind};
use ob_mendings::fix::{EXPORT, fixed, worded};
use ob_mendings::mending::{Elsewhere, Mending, Told};
use ob_mendings::part::is_in_body;
use ob_mendings::tokens::{first_of, length_of};
use ob_scan::{Kind, Token};
use std::alloc::{AllocError, Global};

/// The mending of `PROCEDURE* P`: the `*` stands behind the name.
pub fn star_mending(alloc: Global, site: &Site<'_, '_>) -> Result<Option<Mending>, AllocError> {
    match (site.last(), site.next()) {
        (Some(procedure), Some(name))
            if procedure.kind == Kind::Procedure
                && name.kind == Kind::Ident
                && is_kind(site.here(), Kind::Times) => {
            let mut put = Vec::from_slice(alloc, b"PROCEDURE ")?;
            put.extend_from_slice(site.word_of(Some(name)))?;
            put.push(b'*')?;
            let taken = name.end.saturating_sub(procedure.start);
            worded(alloc, procedure.start, taken, &put, " in its place")
        }
        _ => Ok(None),
    }
}

/// The mending of `PROCEDURE P(x: INTEGER)*`: the `*` stands behind the name.
pub fn late_star_mending(
    alloc: Global,
    site: &Site<'_, '_>,
) -> Result<Option<Mending>, AllocError> {
    match (site.here(), heading_name(site)) {
        (Some(star), Some(name))
            if star.kind == Kind::Times
                && is_kind(site.last(), Kind::RightParen)
                && !is_in_body(site.before) => Ok(Some(Mending {
            place: name.end,
            taken: 0,
            put: Vec::from_slice(alloc, b"*")?,
            elsewhere: Elsewhere::Moved(star.start, length_of(Some(star))),
            told: Told::Words("with the * behind the name of the procedure"),
        })),
        _ => Ok(None),
    }
}

/// The name in the nearest heading of a procedure before the place.
pub(crate) fn heading_name(site: &Site<'_, '_>) -> Option<Token> {
    let procedure = first_of(site.before, &[Kind::Procedure])?;
    next_behind(site.tokens, procedure.start)
}

/// The mending of an export that may not be one: without its `*`.
pub fn export_mending(alloc: Global, site: &Site<'_, '_>) -> Result<Option<Mending>, AllocError> {
    match site.next() {
        Some(times) if times.kind == Kind::Times => {
            fixed(alloc, times.start, length_of(Some(times)), EXPORT)
        }
        _ => Ok(None),
    }
}

/// The mending of a heading whose name stands nowhere else, or in another heading too, where the name behind the END stands elsewhere: by that.
pub fn heading_mending(alloc: Global, site: &Site<'_, '_>) -> Result<Option<Mending>, AllocError> {
    let word = site.word();
    match end_name(site) {
        Some(name) if is_meant(site, site.word_of(Some(name)), word) => worded(
            alloc,
            name.start,
            length_of(Some(name)),
            word,
            " in the heading",
        ),
        _ => Ok(None),
    }
}

/// Whether the heading that has a name is meant to have another one.
fn is_meant(site: &Site<'_, '_>, name: &[u8], other: &[u8]) -> bool {
    let is_called = count_of(site, other, false) > 1 && count_of(site, name, false) == 1;
    let is_twice = count_of(site, name, true) > 1;
    (is_called || is_twice) && !other.is_empty() && count_of(site, other, true) == 0
}

/// How often a name stands in the text, or in headings alone.
pub fn count_of(site: &Site<'_, '_>, name: &[u8], in_headings: bool) -> usize {
    let mut count: usize = 0;
    let mut is_heading = false;
    for token in site.tokens {
        if site.word_of(Some(*token)) == name && (is_heading || !in_headings) {
            count = count.saturating_add(1);
        }
        is_heading = matches!(token.kind, Kind::Procedure | Kind::Module);
    }
    count
}
