//! States from words.

ghost use Rattle.std.specs.Prelude.{◌≡◌, ℤ, List, IfOk, option_map, map, drop};
ghost use Rattle.ob_code_scheme.specs.Layout as Words;
ghost use Rattle.ob_layout.specs.Frames.{variable_by};
ghost use Rattle.ob_layout.specs.Reading.{value_read, parts_read, whole_of};
ghost use Rattle.ob_layout.specs.Shapes.{type_in, types_of, fields_by};
ghost use Rattle.ob_layout.specs.View.{shapes_of};
ghost use Rattle.ob_store.specs.View.{state_of};

use crate::shapes::{Field, Parts, Shapes};
use ob_checked::program::Variable;
use ob_checked::types::DataType;
use ob_interface::NoMemory;
use ob_interface::scalar::{Scalar, ScalarType};
use ob_store::state::State;
use ob_store::value::Value;
use std::alloc::Global;

/// The scalar of a type, where a word is one.
fn scalar_in(scalar_type: ScalarType, word: i64) -> Option<Scalar>
    ensures { result ≡ Words.scalar_in scalar_type word }
{
    match scalar_type {
        ScalarType::Integer => {
            if word < i64::from(i32::MIN) || word > i64::from(i32::MAX) {
                return None;
            }
            Some(Scalar::Int(word as i32))
        }
        ScalarType::Boolean => {
            if word == 0 {
                Some(Scalar::Bool(false))
            } else if word == 1 {
                Some(Scalar::Bool(true))
            } else {
                None
            }
        }
    }
}

/// The value of a scalar type that words begin with from a position on.
fn single_in(scalar_type: ScalarType, words: &[i64], from: usize) -> Option<(Value, usize)>
    ensures { value_read words.now result ≡ Words.single_in scalar_type (drop from words.now) }
{
    if from >= words.len() {
        return None;
    }
    let scalar = scalar_in(scalar_type, words[from])?;
    Some((Value::Single(scalar), from + 1))
}

/// Parts as one value.
fn whole(read: Option<(Vec<Value>, usize)>) -> Option<(Value, usize)>
    ensures { (words : List ℤ) → value_read words result ≡ whole_of (parts_read words read) }
{
    let (parts, behind) = read?;
    Some((Value::Parts(parts), behind))
}

/// The value of a type that words begin with from a position on, and where the words behind it begin.
#[cycle(reading)]
fn read_value(
    alloc: Global,
    shapes: &Shapes,
    data_type: DataType,
    words: &[i64],
    from: usize,
) -> Result<Option<(Value, usize)>, NoMemory>
    ensures { IfOk result (λ o. value_read words.now o ≡ Words.value_in (type_in (shapes_of shapes.now) data_type) (drop from words.now)) }
{
    let number = match data_type {
        DataType::Simple(scalar_type) => return Ok(single_in(scalar_type, words, from)),
        DataType::Structured(number) => number,
    };
    match shapes.shape(number) {
        None => Ok(single_in(ScalarType::Integer, words, from)),
        Some(shape) => match &shape.parts {
            Parts::Elements { length, element } => {
                let read = read_elements(alloc, shapes, *element, *length, words, from)?;
                Ok(whole(read))
            }
            Parts::Fields(fields) => {
                let read = read_fields(alloc, shapes, fields.as_slice(), words, from)?;
                Ok(whole(read))
            }
        },
    }
}

/// So many elements, one after the other.
#[cycle(reading)]
fn read_elements(
    alloc: Global,
    shapes: &Shapes,
    element: DataType,
    length: usize,
    words: &[i64],
    from: usize,
) -> Result<Option<(Vec<Value>, usize)>, NoMemory>
    ensures { IfOk result (λ o. parts_read words.now o ≡ Words.parts_in (Words.value_in (type_in (shapes_of shapes.now) element)) length (drop from words.now)) }
{
    let mut parts = Vec::new(alloc);
    let mut at = from;
    for made in 0..length {
        let Some((part, behind)) = read_value(alloc, shapes, element, words, at)? else {
            return Ok(None);
        };
        parts.push(part)?;
        at = behind;
    }
    Ok(Some((parts, at)))
}

/// The fields of a record, one after the other.
#[cycle(reading)]
fn read_fields(
    alloc: Global,
    shapes: &Shapes,
    fields: &[Field],
    words: &[i64],
    from: usize,
) -> Result<Option<(Vec<Value>, usize)>, NoMemory>
    ensures { IfOk result (λ o. parts_read words.now o ≡ Words.fields_in (fields_by (types_of (shapes_of shapes.now)) fields.now) (drop from words.now)) }
{
    let mut parts = Vec::new(alloc);
    let mut at = from;
    for field in fields {
        let Some((part, behind)) = read_value(alloc, shapes, field.data_type, words, at)? else {
            return Ok(None);
        };
        parts.push(part)?;
        at = behind;
    }
    Ok(Some((parts, at)))
}

/// The state of variables that words are of.
pub(crate) fn decoded(
    alloc: Global,
    shapes: &Shapes,
    variables: &[Variable],
    words: &[i64],
) -> Result<Option<State>, NoMemory>
    ensures { IfOk result (λ o. option_map state_of o ≡ Words.decoded (map (variable_by (types_of (shapes_of shapes.now))) variables.now) words.now) }
{
    let mut values = Vec::new(alloc);
    let mut at = 0;
    for variable in variables {
        let Some((value, behind)) = read_value(alloc, shapes, variable.data_type, words, at)? else {
            return Ok(None);
        };
        values.push(value)?;
        at = behind;
    }
    if at < words.len() {
        return Ok(None);
    }
    Ok(Some(State::new(values)))
}
