//! The words of a state.

ghost use Rattle.std.specs.Prelude.{◌≡◌, ◌++◌, IfOk, OnOk};
ghost use Rattle.ob_code_scheme.specs.Layout as Words;
ghost use Rattle.ob_store.specs.View.{value_in, values_in, state_of};

use ob_interface::NoMemory;
use ob_interface::scalar::Scalar;
use ob_store::state::State;
use ob_store::value::Value;
use std::alloc::Global;

/// The word of a scalar: TRUE is 1 and FALSE is 0.
fn word_of_scalar(scalar: Scalar) -> i64
    ensures { result ≡ Words.word scalar }
{
    match scalar {
        Scalar::Int(number) => i64::from(number),
        Scalar::Bool(truth) => i64::from(truth),
    }
}

/// Writes the words of a value behind others.
#[cycle(writing)]
fn write_value(words: &mut Vec<i64>, value: &Value) -> Result<(), NoMemory>
    ensures { OnOk result (words.new.items ≡ words.old.items ++ Words.flat (value_in value.now)) }
{
    match value {
        Value::Single(scalar) => words.push(word_of_scalar(*scalar))?,
        Value::Parts(parts) => write_values(words, parts.as_slice())?,
    }
    Ok(())
}

/// The same of values one after the other.
#[cycle(writing)]
fn write_values(words: &mut Vec<i64>, values: &[Value]) -> Result<(), NoMemory>
    ensures { OnOk result (words.new.items ≡ words.old.items ++ Words.flat_all (values_in values.now)) }
{
    for value in values {
        write_value(words, value)?;
    }
    Ok(())
}

/// The words of a state: those of its variables, in text order.
pub fn encode(alloc: Global, state: &State) -> Result<Vec<i64>, NoMemory>
    ensures { IfOk result (λ words. words.items ≡ Words.encoded (state_of state.now)) }
{
    let mut words = Vec::new(alloc);
    for value in state.values() {
        write_value(&mut words, value)?;
    }
    Ok(words)
}
