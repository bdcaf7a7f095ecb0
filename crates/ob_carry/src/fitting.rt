//! Named values as values by position of a type.

ghost use Rattle.std.specs.Prelude.{◌≡◌, ◌↔◌, IfOk, IsTrue, option_map};
ghost use Rattle.ob_checked.specs.Types.{type_in, types_of, fields_by};
ghost use Rattle.ob_checked.specs.View.{table_of};
ghost use Rattle.ob_store.specs.View.{value_in, values_in};
ghost use Rattle.ob_meaning.specs.ByNameValue as Meanings;
ghost use Rattle.ob_meaning.specs.ByPositionValue as Positions;
ghost use Rattle.ob_carry.specs.Values.{IsScalarOf, IsFitted, AreFittedElements, AreFittedFields};
ghost use Rattle.ob_carry.specs.View.{named_in, elements_of, fields_of};

use crate::fields_by_name::{NamedField, NamedValue};
use ob_checked::types::{DataType, Types};
use ob_interface::NoMemory;
use ob_interface::scalar::{Scalar, ScalarType};
use ob_scopes::type_parts::{elements_of, fields_of, simple_type};
use ob_store::value::Value;
use std::alloc::Global;

/// Is a scalar of a type?
fn is_of(scalar_type: ScalarType, scalar: Scalar) -> bool
    ensures { IsTrue result ↔ IsScalarOf scalar_type scalar }
{
    match scalar {
        Scalar::Int(_) => scalar_type == ScalarType::Integer,
        Scalar::Bool(_) => scalar_type == ScalarType::Boolean,
    }
}

/// A scalar as a value of a type.
fn scalar_fitted(types: &Types, data_type: DataType, scalar: Scalar) -> Option<Value>
    ensures { IsFitted (type_in (table_of types.now) data_type) (Meanings.Single scalar) (option_map value_in result) }
{
    match simple_type(types, data_type) {
        Some(scalar_type) if is_of(scalar_type, scalar) => Some(Value::Single(scalar)),
        _ => None,
    }
}

/// The value of these parts, if there are some.
fn with_parts(parts: Option<Vec<Value>>) -> Option<Value>
    ensures { option_map value_in result ≡ option_map (λ all. Positions.Parts (values_in all.items)) parts }
{
    match parts {
        Some(all) => Some(Value::Parts(all)),
        None => None,
    }
}

/// The value by position of a type, where the named value is one of that type.
#[cycle(fitting)]
pub fn fitted(
    alloc: Global,
    types: &Types,
    data_type: DataType,
    value: &NamedValue,
) -> Result<Option<Value>, NoMemory>
    ensures { IfOk result (λ r. IsFitted (type_in (table_of types.now) data_type) (named_in value.now) (option_map value_in r)) }
{
    match value {
        NamedValue::Single(scalar) => Ok(scalar_fitted(types, data_type, *scalar)),
        NamedValue::Elements(elements) => match elements_of(types, data_type) {
            Some((length, element)) => {
                let parts = elements_fitted(alloc, types, length, element, elements.as_slice())?;
                Ok(with_parts(parts))
            }
            None => Ok(None),
        },
        NamedValue::Fields(fields) => match fields_of(types, data_type) {
            Some(declared) => {
                let parts = fields_fitted(alloc, types, declared.as_slice(), fields.as_slice())?;
                Ok(with_parts(parts))
            }
            None => Ok(None),
        },
    }
}

/// So many elements by position, where the named values are that many of their type.
#[cycle(fitting)]
fn elements_fitted(
    alloc: Global,
    types: &Types,
    length: usize,
    element: DataType,
    elements: &[NamedValue],
) -> Result<Option<Vec<Value>>, NoMemory>
    ensures { IfOk result (λ r. AreFittedElements (type_in (table_of types.now) element) length (elements_of elements.now)
        (option_map (λ parts. values_in parts.items) r)) }
{
    if elements.len() != length {
        return Ok(None);
    }
    let mut parts = Vec::with_capacity(alloc, length)?;
    for value in elements {
        match fitted(alloc, types, element, value)? {
            Some(part) => parts.push(part)?,
            None => return Ok(None),
        }
    }
    Ok(Some(parts))
}

/// The fields of a record by position, where the named values have their names, in their order, and are of their types.
#[cycle(fitting)]
fn fields_fitted(
    alloc: Global,
    types: &Types,
    declared: &[(String, DataType)],
    fields: &[NamedField],
) -> Result<Option<Vec<Value>>, NoMemory>
    ensures { IfOk result (λ r. AreFittedFields (fields_by (types_of (table_of types.now)) declared.now) (fields_of fields.now)
        (option_map (λ parts. values_in parts.items) r)) }
{
    if fields.len() != declared.len() {
        return Ok(None);
    }
    let mut parts = Vec::with_capacity(alloc, fields.len())?;
    for (position, given) in fields.iter().enumerate() {
        let field = &declared[position];
        if field.0.as_str() != given.name.as_str() {
            return Ok(None);
        }
        match fitted(alloc, types, field.1, &given.value)? {
            Some(part) => parts.push(part)?,
            None => return Ok(None),
        }
    }
    Ok(Some(parts))
}
