//! Values that are wanted of a call, and the results of its body.

ghost use Rattle.std.specs.Prelude.{◌≡◌, ◌≤◌, ◌↔◌, IsTrue};
ghost use Rattle.ob_code_calls.specs.Calls.{meaning_of, results_of};
ghost use Rattle.ob_code_correct.specs.CodeMeaning as Words;
ghost use Rattle.ob_code_correct.specs.Compiled.{HasReserve};

use ob_code_engine::CodeEngine;
use ob_code_machine::Body;
use ob_interface::export::Formal;
use ob_interface::scalar::{Scalar, ScalarType};
use wf_object::Engine;

/// Whether a value is the one of a type that a word stands for: an INTEGER is 0 where the word is none, and each word but 0 is TRUE.
#[inline(always)]
fn is_value_of(value: Scalar, scalar_type: ScalarType, word: i64) -> bool
    ensures { IsTrue result ↔ (Words.scalar_in scalar_type word ≡ value) }
{
    match (value, scalar_type) {
        (Scalar::Int(number), ScalarType::Integer) if word >= -2147483648 && word <= 2147483647 => {
            i64::from(number) == word
        }
        (Scalar::Int(number), ScalarType::Integer) => number == 0,
        (Scalar::Bool(truth), ScalarType::Boolean) => truth == (word != 0),
        _ => false,
    }
}

/// Whether values are those of the results of a body that has returned, one for each VAR parameter.
#[inline(always)]
pub(crate) fn are_results(
    engine: &CodeEngine,
    run: &Body,
    parameters: &[Formal],
    values: &[Scalar],
) -> bool
    requires ready { HasReserve engine.now.parts run.now }
    requires few { Words.result_count parameters.now ≤ (meaning_of engine.now.parts).replies }
    ensures { IsTrue result ↔ (Words.values_of parameters.now (results_of (meaning_of engine.now.parts) run.now) ≡ values.now) }
{
    let mut place = 0;
    let mut others = values;
    for parameter in parameters {
        if parameter.is_var {
            let Some((value, next)) = others.split_first() else {
                return false;
            };
            let word = engine.result(run, place);
            if !is_value_of(*value, parameter.scalar_type, word) {
                return false;
            }
            place += 1;
            others = next;
        }
    }
    others.is_empty()
}
