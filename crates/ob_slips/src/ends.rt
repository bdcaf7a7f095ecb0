//! What ends a module, a procedure or a construct: an END or a name that is missing, an END too many, and the `.` at the end.

use crate::words::is_new;
use ob_clues::procedure_names::next_ended;
use ob_evidence::nearest_names::leads_to_statement;
use ob_evidence::small_keywords::next_behind;
use ob_evidence::text_site::{Site, is_kind, kind_or_name, rest_of};
use ob_explain_names::expected::expected_kinds;
use ob_explain_sentences::first_word::is_same_in_any_case;
use ob_explain_sentences::place::halves;
use ob_explain_tokens::open::{is_unit, open_construct};
use ob_mendings::fix::{
    DOT, DOT_THERE, END_BEFORE, END_LEFT_OUT, END_THERE, END_WORD, IMPORT, RECORD_END, fixed,
    left_out, worded,
};
use ob_mendings::mending::Mending;
use ob_mendings::part::{SECTIONS, is_in_body};
use ob_mendings::tokens::{first_behind, first_of, length_of};
use ob_part_mendings::headings::count_of;
use ob_scan::{Kind, Token};
use std::alloc::{AllocError, Global};

/// The mending that puts an END before the place, where the name of the module or the procedure stands that is open there: behind an END, which
/// then closed something in it, or behind a statement; or behind a word that is meant to be END.
pub(crate) fn missing_end(
    alloc: Global,
    site: &Site<'_, '_>,
) -> Result<Option<Mending>, AllocError> {
    let Some(unit) = open_construct(site.before) else {
        return Ok(None);
    };
    if unit.kind == Kind::Record {
        return record_end(alloc, site);
    }
    if closes_around(site.here(), unit.kind) {
        return fixed(alloc, site.place, 0, END_THERE);
    }
    if !is_unit(unit.kind) || site.word().is_empty() || name_of(site, unit) != site.word() {
        return Ok(None);
    }
    if is_kind(site.last(), Kind::End) {
        fixed(alloc, site.place, 0, END_BEFORE)
    } else if next_ended(site) == site.word() {
        Ok(None)
    } else {
        match site.last() {
            Some(word) if is_new(site, word) && leads_to_statement(kind_or_name(site.second())) => {
                fixed(alloc, word.start, length_of(Some(word)), END_WORD)
            }
            _ => fixed(alloc, site.place, 0, END_THERE),
        }
    }
}

/// The mending that puts the END of a record before the place, where a section or a body begins, or before the name of the next type.
fn record_end(alloc: Global, site: &Site<'_, '_>) -> Result<Option<Mending>, AllocError> {
    match (kind_or_name(site.here()), site.last()) {
        (Kind::Const | Kind::Type | Kind::Var | Kind::Procedure | Kind::Begin, _) => {
            fixed(alloc, site.place, 0, RECORD_END)
        }
        (Kind::Equal, Some(name)) if is_type(site, site.word_of(Some(name))) => {
            fixed(alloc, name.start, 0, RECORD_END)
        }
        _ => Ok(None),
    }
}

/// Whether a name stands somewhere as a type.
fn is_type(site: &Site<'_, '_>, name: &[u8]) -> bool {
    let mut last = Kind::Module;
    for token in site.tokens {
        if matches!(last, Kind::Colon | Kind::Of) && site.word_of(Some(*token)) == name {
            return true;
        }
        last = token.kind;
    }
    false
}

/// Whether a token closes or goes on with what stands around a construct of this kind, which wants an END first.
fn closes_around(here: Option<Token>, kind: Kind) -> bool {
    match kind {
        Kind::If => is_kind(here, Kind::Until),
        Kind::While => {
            is_kind(here, Kind::Until) || is_kind(here, Kind::Else) || is_kind(here, Kind::Elsif)
        }
        _ => false,
    }
}

/// The mending of an END at which a name is missing: by the name of what it closes, or without it, where a later END closes that.
pub(crate) fn nameless_end(
    alloc: Global,
    site: &Site<'_, '_>,
) -> Result<Option<Mending>, AllocError> {
    let (Some(end), Some(unit)) = (site.last(), open_construct(rest_of(site.before))) else {
        return Ok(None);
    };
    if end.kind != Kind::End || !is_unit(unit.kind) {
        return Ok(None);
    }
    let name = name_of(site, unit);
    if is_ended_behind(site, unit) || next_ended(site) == name {
        return fixed(alloc, end.start, length_of(Some(end)), END_LEFT_OUT);
    }
    let mut put = Vec::from_slice(alloc, b"END ")?;
    put.extend_from_slice(name)?;
    worded(
        alloc,
        end.start,
        length_of(Some(end)),
        &put,
        " written there",
    )
}

/// Whether an END from the place on closes what this token begins, with no section between: with its name, or with one that no heading has.
fn is_ended_behind(site: &Site<'_, '_>, unit: Token) -> bool {
    let mut last = site.here();
    for token in site.behind {
        if SECTIONS.contains(&kind_or_name(last)) {
            return false;
        }
        if is_kind(last, Kind::End) && token.kind == Kind::Ident {
            return ends_unit(site, unit, *token);
        }
        last = Some(*token);
    }
    false
}

/// Whether a name behind an END is meant to be that of what this token begins.
fn ends_unit(site: &Site<'_, '_>, unit: Token, name: Token) -> bool {
    let word = site.word_of(Some(name));
    let mark = if unit.kind == Kind::Module {
        Kind::Dot
    } else {
        Kind::Semicolon
    };
    word == name_of(site, unit)
        || is_kind(next_behind(site.tokens, name.start), mark) && count_of(site, word, true) == 0
}

/// The mending that puts the END of the last procedure, with its name, before another END, behind which the name of the module stands.
pub(crate) fn inner_end(alloc: Global, site: &Site<'_, '_>) -> Result<Option<Mending>, AllocError> {
    let behind = rest_of(site.before);
    let (Some(end), Some(unit)) = (site.last(), open_construct(behind)) else {
        return Ok(None);
    };
    let (Some(last), Some(module)) = (
        first_of(behind, &[Kind::Procedure]),
        first_of(behind, &[Kind::Module]),
    ) else {
        return Ok(None);
    };
    if last.start != unit.start || name_of(site, module) != site.word() {
        return Ok(None);
    }
    let mut put = Vec::from_slice(alloc, b"END ")?;
    put.extend_from_slice(name_of(site, unit))?;
    put.extend_from_slice(b"; ")?;
    worded(alloc, end.start, 0, &put, "before the END")
}

/// The mending that puts the END of a procedure, with its name, before the next one.
pub(crate) fn unended_mending(
    alloc: Global,
    site: &Site<'_, '_>,
) -> Result<Option<Mending>, AllocError> {
    match open_construct(site.before) {
        Some(unit)
            if unit.kind == Kind::Procedure
                && is_kind(site.here(), Kind::Procedure)
                && is_in_body(site.before) => {
            let mut put = Vec::from_slice(alloc, b"END ")?;
            put.extend_from_slice(name_of(site, unit))?;
            put.extend_from_slice(b"; ")?;
            worded(alloc, site.place, 0, &put, "before it")
        }
        _ => Ok(None),
    }
}

/// The mending that puts a `.` at the end of the text.
pub(crate) fn missing_dot(
    alloc: Global,
    site: &Site<'_, '_>,
) -> Result<Option<Mending>, AllocError> {
    let could = expected_kinds(alloc, site.text, site.place)?;
    match (could.as_slice(), site.here()) {
        ([Kind::Dot], None) => fixed(alloc, site.place, 0, DOT),
        ([Kind::Dot], Some(here))
            if matches!(here.kind, Kind::Semicolon | Kind::Comma | Kind::Colon) => {
            fixed(alloc, site.place, length_of(Some(here)), DOT_THERE)
        }
        _ => Ok(None),
    }
}

/// The mending that leaves out an IMPORT up to its `;`.
pub(crate) fn import_mending(
    alloc: Global,
    site: &Site<'_, '_>,
) -> Result<Option<Mending>, AllocError> {
    let word = if is_import(site, site.here()) {
        site.here()
    } else {
        site.last()
    };
    let Some(word) = word else {
        return Ok(None);
    };
    match first_behind(site.tokens, word.start, &[Kind::Semicolon]) {
        Some(end) if is_import(site, Some(word)) => {
            let (_, from) = halves(site.text, word.start);
            let length = end.end.saturating_sub(word.start);
            left_out(alloc, word.start, halves(from, length).0, IMPORT)
        }
        _ => Ok(None),
    }
}

/// Whether a token is IMPORT or what other languages have for it.
fn is_import(site: &Site<'_, '_>, token: Option<Token>) -> bool {
    let word = site.word_of(token);
    is_same_in_any_case(word, b"IMPORT")
        || is_same_in_any_case(word, b"USES")
        || is_same_in_any_case(word, b"FROM")
        || is_same_in_any_case(word, b"USING")
}

/// The name of a module or of a procedure that begins with this token.
fn name_of<'t>(site: &Site<'t, '_>, unit: Token) -> &'t [u8] {
    site.word_of(next_behind(site.tokens, unit.start))
}
