//! Values by position of a type as values by the names of fields.

ghost use Rattle.std.specs.Prelude.{IfOk};
ghost use Rattle.ob_checked.specs.Types.{fields_by, type_in, types_of};
ghost use Rattle.ob_checked.specs.View.{table_of};
ghost use Rattle.ob_store.specs.View.{value_in, values_in};
ghost use Rattle.ob_meaning.specs.ByPositionValue as Positions;
ghost use Rattle.ob_typing.specs.Program as Programs;
ghost use Rattle.ob_carry.specs.View.{elements_of, fields_of, named_in};
ghost use Rattle.ob_carry.specs.Names.{AreNamesOf, AreFieldNamesOf, IsNameOf};

use crate::fields_by_name::{NamedField, NamedValue};
use ob_checked::types::{DataType, Types};
use ob_interface::NoMemory;
use ob_interface::scalar::Scalar;
use ob_scopes::type_parts::{elements_of, fields_of};
use ob_store::value::Value;
use std::alloc::Global;

/// A scalar, which has no fields.
fn scalar_named(scalar: Scalar) -> NamedValue
    ensures { (t : Programs.DataType) → IsNameOf t (named_in result) (Positions.Single scalar) }
{
    match scalar {
        Scalar::Int(number) => NamedValue::Single(Scalar::Int(number)),
        Scalar::Bool(value) => NamedValue::Single(Scalar::Bool(value)),
    }
}

/// A value of a type, by the names of fields.
#[cycle(naming)]
pub fn named(
    alloc: Global,
    types: &Types,
    data_type: DataType,
    value: &Value,
) -> Result<NamedValue, NoMemory>
    ensures { IfOk result (λ v. IsNameOf (type_in (table_of types.now) data_type) (named_in v) (value_in value.now)) }
{
    match value {
        Value::Single(scalar) => Ok(scalar_named(*scalar)),
        Value::Parts(parts) => match elements_of(types, data_type) {
            Some((_, element)) => {
                let elements = elements_named(alloc, types, element, parts.as_slice())?;
                Ok(NamedValue::Elements(elements))
            }
            None => match fields_of(types, data_type) {
                Some(declared) => {
                    let fields = fields_named(alloc, types, declared.as_slice(), parts.as_slice())?;
                    Ok(NamedValue::Fields(fields))
                }
                // Parts of a scalar type, which are never met.
                None => Ok(NamedValue::Elements(Vec::new(alloc))),
            },
        },
    }
}

/// The elements of an array.
#[cycle(naming)]
fn elements_named(
    alloc: Global,
    types: &Types,
    element: DataType,
    parts: &[Value],
) -> Result<Vec<NamedValue>, NoMemory>
    ensures { IfOk result (λ vs. AreNamesOf (type_in (table_of types.now) element) (elements_of vs.items) (values_in parts.now)) }
{
    let mut elements = Vec::with_capacity(alloc, parts.len())?;
    for part in parts {
        elements.push(named(alloc, types, element, part)?)?;
    }
    Ok(elements)
}

/// The fields of a record.
#[cycle(naming)]
fn fields_named(
    alloc: Global,
    types: &Types,
    declared: &[(String, DataType)],
    parts: &[Value],
) -> Result<Vec<NamedField>, NoMemory>
    ensures { IfOk result (λ fs. AreFieldNamesOf (fields_by (types_of (table_of types.now)) declared.now) (fields_of fs.items) (values_in parts.now)) }
{
    if parts.len() != declared.len() {
        // They are parts of another type, which is never met.
        return Ok(Vec::new(alloc));
    }
    let mut fields = Vec::with_capacity(alloc, parts.len())?;
    for (position, part) in parts.iter().enumerate() {
        let field = &declared[position];
        let value = named(alloc, types, field.1, part)?;
        let name = String::from_str(alloc, &field.0)?;
        fields.push(NamedField { name, value })?;
    }
    Ok(fields)
}
