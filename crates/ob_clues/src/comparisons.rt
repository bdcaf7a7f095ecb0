//! Comparisons: one behind another, and a whole array or record beside a single value.

use ob_evidence::facts::note;
use ob_evidence::text_site::{Site, rest_of};
use ob_explain_parts::operand_types::{Form, form_before, form_behind};
use ob_explain_sentences::table_rows::{Fact, Type};
use ob_explain_tokens::operand_tokens::is_relation;
use ob_scan::{Kind, Token};
use std::alloc::{AllocError, Global};

/// Whether a comparison ends before the place, of which no & and no OR stands behind the sign.
pub fn is_chained(site: &Site<'_, '_>) -> bool {
    let mut closed: usize = 0;
    for token in site.before {
        if closed == 0 && !is_compared(token.kind) {
            return is_relation(token.kind);
        }
        closed = closed_before(closed, token.kind);
    }
    false
}

/// How many parentheses and brackets that close behind a token are still closed before it.
fn closed_before(closed: usize, kind: Kind) -> usize {
    match kind {
        Kind::RightParen | Kind::RightBracket => closed.saturating_add(1),
        Kind::LeftParen | Kind::LeftBracket => closed.saturating_sub(1),
        _ => closed,
    }
}

/// Whether a token stands in a sum or a product, the last one of what stands in parentheses or brackets included.
fn is_compared(kind: Kind) -> bool {
    matches!(
        kind,
        Kind::Ident
            | Kind::Number
            | Kind::Dot
            | Kind::RightParen
            | Kind::RightBracket
            | Kind::Plus
            | Kind::Minus
            | Kind::Times
            | Kind::Div
            | Kind::Mod
            | Kind::Not
    )
}

/// Notes that the expression at the place, which is of this type, is a whole array or record where a single value is wanted, or is compared with one.
pub fn note_beside(
    facts: &mut Vec<Fact>,
    alloc: Global,
    site: &Site<'_, '_>,
    found: Type,
) -> Result<(), AllocError> {
    if !facts.contains(&Fact::OtherWhole) && !is_beside_single(alloc, site)? {
        return Ok(());
    }
    match found {
        Type::Array => note(facts, true, Fact::ArrayBeside),
        Type::Record => note(facts, true, Fact::RecordBeside),
        _ => Ok(()),
    }
}

/// Whether the operand at the place is compared with an INTEGER or a BOOLEAN.
fn is_beside_single(alloc: Global, site: &Site<'_, '_>) -> Result<bool, AllocError> {
    let other = match site.last() {
        Some(last) if is_relation(last.kind) => {
            let before = rest_of(site.before);
            form_before(alloc, site.text, site.known, site.tokens, before)?
        }
        _ => {
            let behind = behind_relation(site.behind);
            form_behind(alloc, site.text, site.known, site.tokens, behind)?
        }
    };
    Ok(matches!(other, Form::Integer | Form::Boolean))
}

/// What stands behind the first sign of these tokens that compares.
fn behind_relation(tokens: &[Token]) -> &[Token] {
    for (count, token) in tokens.iter().enumerate() {
        if is_relation(token.kind) {
            let (_, rest) = tokens.split_at(count.min(tokens.len()));
            return rest_of(rest);
        }
    }
    &[]
}
