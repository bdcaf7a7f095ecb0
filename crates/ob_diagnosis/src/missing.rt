//! Which token may be missing before a place.

use ob_clues::foreign::is_mode;
use ob_clues::further::is_closed_behind;
use ob_clues::procedure_names::{is_assigned, is_procedure, next_ended};
use ob_evidence::small_keywords::next_behind;
use ob_evidence::text_site::{Site, is_kind};
use ob_explain_names::expected::is_expected;
use ob_explain_sentences::kinds::sample;
use ob_explain_sentences::place::halves;
use ob_explain_sentences::table_rows::Fact;
use ob_explain_tokens::open::{is_unit, open_construct};
use ob_scan::{Kind, Token};
use std::alloc::{AllocError, Global};

/// The token that is missing before the one there, which could stand there behind it, where tokens of these kinds could.
pub(crate) fn missing_there(
    alloc: Global,
    site: &Site<'_, '_>,
    could: &[Kind],
) -> Result<Option<Fact>, AllocError> {
    let Some(here) = site.here() else {
        return Ok(None);
    };
    if could.contains(&Kind::LeftParen)
        && is_closed_behind(site)
        && goes_on_behind(alloc, site, Kind::LeftParen, here.kind)?
    {
        Ok(Some(Fact::NoLeftParen))
    } else if could.contains(&Kind::End) && ends_there(site) {
        Ok(Some(Fact::NoEnd))
    } else if could.contains(&Kind::And)
        && !could.contains(&Kind::Comma)
        && begins_operand(site, here)
    {
        Ok(Some(Fact::NoOperator))
    } else {
        missing_mark(alloc, site, here, could)
    }
}

/// Whether the name there is that of the procedure or module that is open there, and no END with this name comes next.
fn ends_there(site: &Site<'_, '_>) -> bool {
    let Some(opening) = open_construct(site.before) else {
        return false;
    };
    let word = site.word();
    !word.is_empty()
        && is_unit(opening.kind)
        && site.word_of(next_behind(site.tokens, opening.start)) == word
        && (is_kind(site.next(), Kind::Semicolon) || is_kind(site.next(), Kind::Dot))
        && next_ended(site) != word
}

/// Whether the token there is an operand and begins no statement.
fn begins_operand(site: &Site<'_, '_>, here: Token) -> bool {
    match here.kind {
        Kind::Number | Kind::Not => true,
        Kind::Ident => {
            !is_first_in_line(site)
                && !is_procedure(site, site.tokens, site.word())
                && !is_kind(site.next(), Kind::LeftParen)
                && !is_assigned(site)
        }
        _ => false,
    }
}

/// Whether a line feed stands between the token before the place and the one there.
fn is_first_in_line(site: &Site<'_, '_>) -> bool {
    let (before, _) = halves(site.text, site.place);
    match site.last() {
        Some(last) => halves(before, last.end).1.contains(&b'\n'),
        None => true,
    }
}

/// Which of the tokens that stand between others is missing before the one there.
fn missing_mark(
    alloc: Global,
    site: &Site<'_, '_>,
    here: Token,
    could: &[Kind],
) -> Result<Option<Fact>, AllocError> {
    let (kind, fact) = awaited(could);
    // Nothing is missing behind a word that is too much.
    if is_mode(site.word_of(site.last())) {
        return Ok(None);
    }
    if begins_late_section(here, could) {
        Ok(Some(Fact::NoSemicolon))
    } else if goes_on_behind(alloc, site, kind, here.kind)? {
        Ok(Some(fact))
    } else if could.contains(&Kind::Comma) && goes_on_behind(alloc, site, Kind::Comma, here.kind)? {
        Ok(Some(Fact::NoComma))
    } else {
        Ok(None)
    }
}

/// Whether a section begins there where a declaration is to end first, so that its `;` is missing even if the section stands too late.
fn begins_late_section(here: Token, could: &[Kind]) -> bool {
    matches!(here.kind, Kind::Const | Kind::Type | Kind::Var)
        && could.contains(&Kind::Semicolon)
        && !could.contains(&Kind::End)
        && !could.contains(&Kind::Until)
        && !could.contains(&Kind::RightParen)
}

/// Whether the text before the place goes on with a token of this kind and, behind it, with one of that kind.
fn goes_on_behind(
    alloc: Global,
    site: &Site<'_, '_>,
    kind: Kind,
    here: Kind,
) -> Result<bool, AllocError> {
    let mut tried = Vec::from_slice(alloc, site.text.split_at(site.place.min(site.text.len())).0)?;
    tried.push(b' ')?;
    tried.extend_from_slice(sample(kind).as_bytes())?;
    let end = tried.len();
    is_expected(alloc, &tried, end, here)
}

/// Which of THEN, DO, `;`, `]` and `)` may be missing where tokens of these kinds could stand.
fn awaited(could: &[Kind]) -> (Kind, Fact) {
    if could.contains(&Kind::Then) {
        (Kind::Then, Fact::NoThen)
    } else if could.contains(&Kind::Do) {
        (Kind::Do, Fact::NoDo)
    } else if could.contains(&Kind::Semicolon) {
        (Kind::Semicolon, Fact::NoSemicolon)
    } else if could.contains(&Kind::RightBracket) {
        (Kind::RightBracket, Fact::NoBracket)
    } else if could.contains(&Kind::RightParen) {
        (Kind::RightParen, Fact::NoParen)
    } else {
        (Kind::Semicolon, Fact::NoSemicolon)
    }
}
