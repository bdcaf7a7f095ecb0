//! Values of parameters, as words.

ghost use Rattle.std.specs.Prelude.{◌≡◌, Bool, map, IfOk, MatchOption};
ghost use Rattle.ob_interface.specs.declared.scalar.Scalar.{Scalar};
ghost use Rattle.ob_text_words.specs.Finding.{FindsAs};
ghost use Rattle.ob_text_words.specs.ScalarTexts.{truth_text};
ghost use Rattle.ob_text_words.specs.Values.{AreValues, IsValue, is_of_mode, types_of};

use crate::numbers::read_integer;
use ob_interface::export::Formal;
use ob_interface::scalar::{Scalar, ScalarType};
use smallvec::SmallVec;
use std::alloc::{AllocError, Global};

/// The truth value that a word says.
fn read_truth(word: &[u8]) -> Option<bool>
    ensures { MatchOption result ((b : Bool) → word.now ≡ truth_text b → ⊥) (λ b. word.now ≡ truth_text b) }
{
    match word {
        b"TRUE" => Some(true),
        b"FALSE" => Some(false),
        _ => None,
    }
}

/// The value of a type that a word says.
pub fn read_value(scalar_type: ScalarType, word: &[u8]) -> Option<Scalar>
    ensures { MatchOption result ((s : Scalar) → IsValue scalar_type word.now s → ⊥) (λ s. IsValue scalar_type word.now s) }
{
    match scalar_type {
        ScalarType::Integer => Some(Scalar::Int(read_integer(word)?)),
        ScalarType::Boolean => Some(Scalar::Bool(read_truth(word)?)),
    }
}

/// The values that words say for the parameters of one mode, VAR or not; `None` where they don't fit.
#[inline]
pub fn read_values(
    alloc: Global,
    formals: &[Formal],
    is_var: bool,
    words: &[&[u8]],
) -> Result<Option<SmallVec<Scalar, 8>>, AllocError>
    ensures { IfOk result (FindsAs (λ values. values.items) (AreValues (types_of is_var formals.now) (map (λ w. w.now) words.now))) }
{
    let mut values = SmallVec::new(alloc);
    for formal in formals {
        if is_of_mode(is_var, formal) {
            let Some(word) = words.get(values.len()) else {
                return Ok(None);
            };
            let Some(value) = read_value(formal.scalar_type, word) else {
                return Ok(None);
            };
            values.push(value)?;
        }
    }
    if values.len() == words.len() {
        Ok(Some(values))
    } else {
        Ok(None)
    }
}

/// Whether a parameter is a VAR parameter, or is none, as is asked.
#[inline(always)]
pub fn is_of_mode(is_var: bool, formal: &Formal) -> bool
    ensures { result ≡ is_of_mode is_var formal.now }
{
    if is_var {
        formal.is_var
    } else {
        !formal.is_var
    }
}
