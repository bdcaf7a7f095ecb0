//! States whose variables are all INTEGER or BOOLEAN, as words.

ghost use Rattle.std.specs.Prelude.{◌≡◌, List, Some, IfOk, IfSome, IsTrue, map};
ghost use Rattle.ob_checked.specs.Types.{Entry, type_in};
ghost use Rattle.ob_checked.specs.View.{variable_of};
ghost use Rattle.ob_code_calls.specs.Scalars.{IsLaidAs, IsReadAs, held_of};
ghost use Rattle.ob_code_scheme.specs.Layout as Words;

use ob_checked::program::Variable;
use ob_checked::types::DataType;
use ob_interface::NoMemory;
use ob_interface::scalar::{Scalar, ScalarType};
use smallvec::SmallVec;
use std::alloc::Global;

/// The values of variables that are all scalars.
pub type Scalars = SmallVec<Scalar, 2>;

/// Whether variables are all scalars.
pub fn are_scalars(variables: &[Variable]) -> bool {
    variables.iter().all(|variable| matches!(variable.data_type, DataType::Simple(_)))
}

/// The word of a scalar that is of a type: TRUE is 1 and FALSE is 0.
fn word_in(data_type: DataType, scalar: Scalar) -> Option<i64>
    ensures { (types : List Entry) → IfSome result (IsLaidAs (type_in types data_type) scalar) }
{
    match (data_type, scalar) {
        (DataType::Simple(ScalarType::Integer), Scalar::Int(number)) => Some(i64::from(number)),
        (DataType::Simple(ScalarType::Boolean), Scalar::Bool(truth)) => Some(i64::from(truth)),
        _ => None,
    }
}

/// Writes the words of variables with these values, where each is of its type.
pub fn lay_scalars(variables: &[Variable], scalars: &[Scalar], words: &mut [i64]) -> bool
    ensures { (types : List Entry) → IsTrue result → Words.IsEncoding (map (variable_of types) variables.now) (map held_of scalars.now) words.new }
{
    if variables.len() != words.len() || scalars.len() != words.len() {
        return false;
    }
    for place in 0..words.len() {
        let Some(word) = word_in(variables[place].data_type, scalars[place]) else {
            return false;
        };
        words[place] = word;
    }
    true
}

/// The scalar of a type that a word is.
fn scalar_in(data_type: DataType, word: i64) -> Option<Scalar>
    ensures { (types : List Entry) → IfSome result (λ scalar. IsReadAs (type_in types data_type) word scalar) }
{
    match data_type {
        DataType::Simple(ScalarType::Integer) if word >= -2147483648 && word <= 2147483647 => {
            Some(Scalar::Int(word as i32))
        }
        DataType::Simple(ScalarType::Boolean) if word == 0 => Some(Scalar::Bool(false)),
        DataType::Simple(ScalarType::Boolean) if word == 1 => Some(Scalar::Bool(true)),
        _ => None,
    }
}

/// The values of variables whose words these are, where all are scalars.
pub fn read_scalars(
    alloc: Global,
    variables: &[Variable],
    words: &[i64],
) -> Result<Option<Scalars>, NoMemory>
    ensures { (types : List Entry) → IfOk result (λ read. IfSome read (λ scalars.
        Words.decoded (map (variable_of types) variables.now) words.now ≡ Some (map held_of scalars.items))) }
{
    if variables.len() != words.len() {
        return Ok(None);
    }
    let mut scalars = SmallVec::new(alloc);
    for place in 0..words.len() {
        let Some(scalar) = scalar_in(variables[place].data_type, words[place]) else {
            return Ok(None);
        };
        scalars.push(scalar)?;
    }
    Ok(Some(scalars))
}
