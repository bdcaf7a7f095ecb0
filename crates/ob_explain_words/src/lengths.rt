//! The length of an array, where it is a number or the name of a constant that is declared as one.

ghost use Rattle.std.specs.Prelude.{◌≡◌, IfOk};
ghost use Rattle.ob_explain_words.specs.Lengths.{length_behind, value_of, value_of_digits};
ghost use Rattle.ob_explain_words.specs.Scopes.{scope_of};

use crate::scope::Scope;
use ob_explain_names::declarations::token_bytes;
use ob_explain_names::numerals::{Numeral, numeral_next};
use ob_explain_tokens::operand_tokens::is_of;
use ob_scan::Token;
use ob_text_words::numbers::read_numeral;
use std::alloc::{AllocError, Global};

/// The length of an array, of the tokens behind ARRAY.
pub(crate) fn length_behind(
    alloc: Global,
    scope: Scope<'_>,
    behind: &[Token],
) -> Result<Option<usize>, AllocError>
    ensures { IfOk result (λ length. length ≡ length_behind (scope_of scope.entry) behind.now) }
{
    let [_length, second, ..] = behind else {
        return Ok(None);
    };
    if is_of(second.kind) {
        let numeral = numeral_next(alloc, scope.text, scope.known, scope.tokens, true, behind)?;
        Ok(value_of(scope.text, numeral))
    } else {
        Ok(None)
    }
}

/// The value of a number, where it is told and has no minus.
fn value_of(text: &[u8], numeral: Option<Numeral>) -> Option<usize>
    ensures { result ≡ value_of text.now numeral }
{
    match numeral {
        Some(numeral) if !numeral.is_negative => value_of_digits(token_bytes(text, numeral.digits)),
        _ => None,
    }
}

/// The number that digits spell.
#[tactic(auto, unfolding(crate::specs::Lengths::value_of_digits))]
fn value_of_digits(word: &[u8]) -> Option<usize>
    ensures { result ≡ value_of_digits word.now }
{
    match read_numeral(word) {
        Some(value) => Some(value as usize),
        None => None,
    }
}
