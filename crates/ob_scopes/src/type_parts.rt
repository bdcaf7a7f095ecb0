//! The fields of a record and the elements of an array.

ghost use Rattle.std.specs.Prelude.{◌≡◌, List, option_map};
ghost use Rattle.ob_typing.specs.Program as Programs;
ghost use Rattle.ob_typing.specs.Scopes as Declared;
ghost use Rattle.ob_checked.specs.Types.{type_by, type_in, types_of, fields_in, fields_by};
ghost use Rattle.ob_checked.specs.View.{table_of};
ghost use Rattle.ob_scopes.specs.SimpleTypes.{simple_type};

use ob_checked::fields::Fields;
use ob_checked::types::{DataType, Structure, Types};
use ob_interface::scalar::ScalarType;

/// The fields of a record.
pub fn fields_of(types: &Types, data_type: DataType) -> Option<&Fields>
    ensures { option_map (λ f. fields_by (types_of (table_of types.now)) (fields_in f.now)) result ≡ Declared.fields_of (type_in (table_of types.now) data_type) }
{
    let DataType::Structured(number) = data_type else {
        return None;
    };
    match types.structured(number) {
        Some(structured) => match &structured.structure {
            Structure::Record { fields } => Some(fields),
            Structure::Array { .. } => None,
        },
        None => None,
    }
}

/// The length of an array, and the type of its elements.
pub fn elements_of(types: &Types, data_type: DataType) -> Option<(usize, DataType)>
    ensures { option_map (λ e. (e.0, type_in (table_of types.now) e.1)) result ≡ Declared.elements_of (type_in (table_of types.now) data_type) }
{
    let DataType::Structured(number) = data_type else {
        return None;
    };
    match types.structured(number) {
        Some(structured) => match &structured.structure {
            Structure::Array { length, element } => Some((*length, *element)),
            Structure::Record { .. } => None,
        },
        None => None,
    }
}

/// The position and the type of the field of a name.
pub fn field_named(fields: &Fields, name: &str) -> Option<(usize, DataType)>
    ensures { (types : List Programs.DataType) → option_map (λ f. (f.0, type_by types f.1)) result ≡ Declared.field_from 0 (fields_by types (fields_in fields.now)) name.now }
{
    fields.find(name)
}

/// The scalar type that a type is, where it is one.
pub fn simple_type(types: &Types, data_type: DataType) -> Option<ScalarType>
    ensures { result ≡ simple_type (type_in (table_of types.now) data_type) }
{
    match data_type {
        DataType::Simple(scalar) => Some(scalar),
        DataType::Structured(number) => match types.structured(number) {
            Some(_) => None,
            // A number outside the table, which is never met.
            None => Some(ScalarType::Integer),
        },
    }
}
