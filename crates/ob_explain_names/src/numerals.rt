//! The numbers that the operands of an operation in a constant expression are, by the tokens beside its operator.

ghost use Rattle.std.specs.Prelude.{◌≡◌, IfOk};
ghost use Rattle.ob_explain_names.specs.Declarations.{declared_as};
ghost use Rattle.ob_explain_names.specs.Numerals.{is_constant, negated, negated_too, negative, numeral_before, numeral_behind, numeral_declared};
ghost use Rattle.ob_explain_names.specs.Numerals.{numeral_next, numeral_of, plain, signed};

use crate::declarations::declared_as;
use crate::known::{Known, Sort};
use crate::lookup::name_at;
use ob_explain_tokens::around::tokens_behind;
use ob_explain_tokens::operand_tokens::{
    ends_operand, is_minus, is_name, is_number, is_semicolon, is_sign, multiplies,
};
use ob_scan::Token;
use std::alloc::{AllocError, Global};

/// A number as it is written, behind a minus or not.
#[derive(Clone, Copy)]
pub struct Numeral {
    pub is_negative: bool,
    pub digits: Token,
}

/// The number before an operator, which binds closer than a sign or not, of the tokens there, the last one first.
pub fn numeral_before(
    alloc: Global,
    text: &[u8],
    known: &[Known],
    tokens: &[Token],
    closer: bool,
    before: &[Token],
) -> Result<Option<Numeral>, AllocError>
    ensures { IfOk result (λ n. n ≡ numeral_before text.now known.now tokens.now closer before.now) }
{
    let [operand, second, third, ..] = before else {
        return Ok(None);
    };
    if multiplies(second.kind) {
        return Ok(None);
    }
    let numeral = numeral_of(alloc, text, known, tokens, *operand)?;
    if closer || !is_sign(second.kind) {
        Ok(numeral)
    } else if ends_operand(third.kind) {
        Ok(None)
    } else {
        Ok(signed(*second, numeral))
    }
}

/// The number behind an operator, which binds closer than a sign or not, of the tokens there.
pub fn numeral_next(
    alloc: Global,
    text: &[u8],
    known: &[Known],
    tokens: &[Token],
    closer: bool,
    behind: &[Token],
) -> Result<Option<Numeral>, AllocError>
    ensures { IfOk result (λ n. n ≡ numeral_next text.now known.now tokens.now closer behind.now) }
{
    let [operand, second, ..] = behind else {
        return Ok(None);
    };
    if multiplies(second.kind) && !closer {
        Ok(None)
    } else {
        numeral_of(alloc, text, known, tokens, *operand)
    }
}

/// The number that an operand of one token is.
#[tactic(auto, unfolding(crate::specs::Numerals::numeral_of))]
fn numeral_of(
    alloc: Global,
    text: &[u8],
    known: &[Known],
    tokens: &[Token],
    operand: Token,
) -> Result<Option<Numeral>, AllocError>
    ensures { IfOk result (λ n. n ≡ numeral_of text.now known.now tokens.now operand) }
{
    if is_number(operand.kind) {
        Ok(Some(plain(operand)))
    } else if is_name(operand.kind) {
        let name = declared_as(text, known, name_at(text, operand.start));
        numeral_declared(alloc, tokens, name)
    } else {
        Ok(None)
    }
}

/// The number as which a constant is declared.
fn numeral_declared(
    alloc: Global,
    tokens: &[Token],
    name: Option<Known>,
) -> Result<Option<Numeral>, AllocError>
    ensures { IfOk result (λ n. n ≡ numeral_declared tokens.now name) }
{
    match name {
        Some(name) if is_constant(name.sort) => {
            let behind = tokens_behind(alloc, tokens, name.place)?;
            Ok(numeral_behind(&behind))
        }
        _ => Ok(None),
    }
}

fn is_constant(sort: Sort) -> bool
    ensures { result ≡ is_constant sort }
{
    matches!(sort, Sort::Constant)
}

/// The number as which a constant is declared, of the tokens behind its name.
pub fn numeral_behind(behind: &[Token]) -> Option<Numeral>
    ensures { result ≡ numeral_behind behind.now }
{
    let [_equal, first, second, third, ..] = behind else {
        return None;
    };
    if is_number(first.kind) && is_semicolon(second.kind) {
        Some(plain(*first))
    } else if (is_minus(first.kind) && is_number(second.kind)) && is_semicolon(third.kind) {
        Some(negative(*second))
    } else {
        None
    }
}

fn plain(digits: Token) -> Numeral
    ensures { result ≡ plain digits }
{
    Numeral {
        is_negative: false,
        digits,
    }
}

fn negative(digits: Token) -> Numeral
    ensures { result ≡ negative digits }
{
    Numeral {
        is_negative: true,
        digits,
    }
}

/// A number behind a sign.
fn signed(sign: Token, numeral: Option<Numeral>) -> Option<Numeral>
    ensures { result ≡ signed sign numeral }
{
    if is_minus(sign.kind) {
        negated_too(numeral)
    } else {
        numeral
    }
}

fn negated_too(numeral: Option<Numeral>) -> Option<Numeral>
    ensures { result ≡ negated_too numeral }
{
    match numeral {
        Some(numeral) => Some(negated(numeral)),
        None => None,
    }
}

/// A number behind a minus.
fn negated(numeral: Numeral) -> Numeral
    ensures { result ≡ negated numeral }
{
    Numeral {
        is_negative: !numeral.is_negative,
        digits: numeral.digits,
    }
}
