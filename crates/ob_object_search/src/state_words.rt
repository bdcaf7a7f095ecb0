//! States in words.

ghost use Rattle.std.specs.Prelude.{◌≡◌, ◌++◌, IfOk, OnOk, map};
ghost use Rattle.ob_code_calls.specs.Scalars.{held_of};
ghost use Rattle.ob_object_search.specs.Words.{word_of, value_words, parts_words, words_of};
ghost use Rattle.ob_store.specs.View.{value_in, values_in, variables_in};

use ob_interface::NoMemory;
use ob_interface::scalar::Scalar;
use ob_store::value::Value;
use smallvec::SmallVec;
use std::alloc::Global;
use wf_order::searched_object::Words;

/// The word of a scalar.
fn word_of(scalar: Scalar) -> u64
    ensures { result ≡ word_of scalar }
{
    match scalar {
        Scalar::Int(number) if number >= 0 => 8 * number as u64,
        Scalar::Int(number) => 8 * (-1 - number) as u64 + 1,
        Scalar::Bool(true) => 10,
        Scalar::Bool(false) => 2,
    }
}

/// Adds the words of a value.
#[cycle(words)]
fn push_value(words: &mut Words, value: &Value) -> Result<(), NoMemory>
    ensures { OnOk result (words.new.items ≡ words.old.items ++ value_words (value_in value.now)) }
{
    match value {
        Value::Single(scalar) => words.push(word_of(*scalar))?,
        Value::Parts(parts) => {
            words.push(3)?;
            words.push(parts.len() as u64)?;
            push_all(words, parts.as_slice())?;
        }
    }
    Ok(())
}

/// Adds the words of values.
#[cycle(words)]
fn push_all(words: &mut Words, values: &[Value]) -> Result<(), NoMemory>
    ensures { OnOk result (words.new.items ≡ words.old.items ++ parts_words (values_in values.now)) }
{
    for value in values {
        push_value(words, value)?;
    }
    Ok(())
}

/// The words of variables that hold scalars.
pub(crate) fn scalar_words(alloc: Global, scalars: &[Scalar]) -> Result<Words, NoMemory>
    ensures { IfOk result (λ words. words.items ≡ words_of (map held_of scalars.now)) }
{
    let mut words = SmallVec::new(alloc);
    // Mostly there is one, for which there is room.
    if let [scalar] = scalars {
        words.push_reserved(word_of(*scalar));
        return Ok(words);
    }
    for scalar in scalars {
        words.push(word_of(*scalar))?;
    }
    Ok(words)
}

/// The words of variables that have these values.
#[tactic(auto, using(crate::proofs::Wording::words_all))]
pub(crate) fn words_in(alloc: Global, values: &[Value]) -> Result<Words, NoMemory>
    ensures { IfOk result (λ words. words.items ≡ words_of (variables_in values.now)) }
{
    let mut words = SmallVec::new(alloc);
    push_all(&mut words, values)?;
    Ok(words)
}
