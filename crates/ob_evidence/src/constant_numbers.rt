//! Numbers of constant expressions, as they are written.

ghost use Rattle.std.specs.Prelude.{◌≡◌, ◌++◌, [], codes, IfOk, if◌then◌else◌};
ghost use Rattle.ob_evidence.specs.Numbers.{binds_closer, first_operand, is_known, is_one_token, length_from, length_there, second_operand, written};
ghost use Rattle.ob_evidence.specs.Sites.{scene_of};

use crate::text_site::{Site, kind_of};
use ob_explain_names::declarations::token_bytes;
use ob_explain_names::numerals::{Numeral, numeral_before, numeral_next};
use ob_explain_tokens::around::tokens_behind;
use ob_explain_tokens::operand_tokens::is_of;
use ob_scan::{Kind, Token};
use std::alloc::{AllocError, Global};

/// The number before the operator at the place, where it is known.
pub fn first_operand(alloc: Global, site: &Site<'_, '_>) -> Result<Option<Numeral>, AllocError>
    ensures { IfOk result (λ numeral. numeral ≡ first_operand (scene_of site.now)) }
{
    let closer = binds_closer(kind_of(site.here()));
    numeral_before(
        alloc,
        site.text,
        site.known,
        site.tokens,
        closer,
        site.before,
    )
}

/// The number behind it.
pub fn second_operand(alloc: Global, site: &Site<'_, '_>) -> Result<Option<Numeral>, AllocError>
    ensures { IfOk result (λ numeral. numeral ≡ second_operand (scene_of site.now)) }
{
    let closer = binds_closer(kind_of(site.here()));
    numeral_next(
        alloc,
        site.text,
        site.known,
        site.tokens,
        closer,
        site.behind,
    )
}

/// Whether an operator binds closer than a sign.
fn binds_closer(operator: Option<Kind>) -> bool
    ensures { result ≡ binds_closer operator }
{
    matches!(operator, Some(Kind::Times | Kind::Div | Kind::Mod))
}

/// The length of an array that begins at the place, where it is one token and a number or stands for one.
pub fn length_there(alloc: Global, site: &Site<'_, '_>) -> Result<Option<Numeral>, AllocError>
    ensures { IfOk result (λ numeral. numeral ≡ length_there (scene_of site.now)) }
{
    let from = tokens_behind(alloc, site.tokens, site.place.saturating_sub(1))?;
    length_from(alloc, site, &from)
}

/// The length with which tokens begin.
fn length_from(
    alloc: Global,
    site: &Site<'_, '_>,
    from: &[Token],
) -> Result<Option<Numeral>, AllocError>
    ensures { IfOk result (λ numeral. numeral ≡ length_from (scene_of site.now) from.now) }
{
    if is_one_token(from) {
        numeral_next(alloc, site.text, site.known, site.tokens, true, from)
    } else {
        Ok(None)
    }
}

/// Whether OF stands behind the first of tokens.
fn is_one_token(from: &[Token]) -> bool
    ensures { result ≡ is_one_token from.now }
{
    match from {
        [_, second, ..] => is_of(second.kind),
        _ => false,
    }
}

/// Whether a number is known.
pub fn is_known(numeral: Option<Numeral>) -> bool
    ensures { result ≡ is_known numeral }
{
    match numeral {
        Some(_) => true,
        None => false,
    }
}

/// A number as it is written.
pub fn written(alloc: Global, text: &[u8], numeral: Option<Numeral>) -> Result<Vec<u8>, AllocError>
    ensures { IfOk result (λ bytes. bytes.items ≡ written text.now numeral) }
{
    match numeral {
        Some(numeral) => signed(
            alloc,
            numeral.is_negative,
            token_bytes(text, numeral.digits),
        ),
        None => Ok(Vec::new(alloc)),
    }
}

/// Digits, behind a minus or not.
fn signed(alloc: Global, is_negative: bool, digits: &[u8]) -> Result<Vec<u8>, AllocError>
    ensures { IfOk result (λ bytes. bytes.items ≡ (if is_negative then codes "-" else []) ++ digits.now) }
{
    let mut bytes = Vec::new(alloc);
    if is_negative {
        bytes.push(b'-')?;
    }
    bytes.extend_from_slice(digits)?;
    Ok(bytes)
}
