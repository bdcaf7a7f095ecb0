//! Types that are the same.

ghost use Rattle.std.specs.Prelude.{◌≡◌, true, ℕ};
ghost use Rattle.ob_typing.specs.Scopes.{same_type, same_fields};
ghost use Rattle.ob_checked.specs.Types.{type_in, types_of, structure_by, fields_by};
ghost use Rattle.ob_checked.specs.View.{table_of};
ghost use Rattle.ob_scopes.specs.Shapes.{type_of_shape};

use ob_checked::types::{DataType, Structure, Structured, Types};
use ob_checked::written_operators::same_scalar_type;
use ob_interface::scalar::ScalarType;

/// What a type consists of: a scalar, or an occurrence of ARRAY or RECORD.
#[derive(Clone, Copy)]
enum Shape<'t> {
    Simple(ScalarType),
    Occurrence(&'t Structured),
}

/// What a type consists of.
fn shape_in(types: &Types, data_type: DataType) -> Shape<'_>
    ensures { type_of_shape (table_of types.now) result ≡ type_in (table_of types.now) data_type }
{
    match data_type {
        DataType::Simple(scalar) => Shape::Simple(scalar),
        DataType::Structured(number) => match types.structured(number) {
            Some(structured) => Shape::Occurrence(structured),
            // A number outside the table, which is never met.
            None => Shape::Simple(ScalarType::Integer),
        },
    }
}

/// Whether two types have one number, and so are the same without a look at what they consist of.
fn same_number(left: DataType, right: DataType) -> bool
    ensures { result ≡ true → left ≡ right }
{
    match (left, right) {
        (DataType::Structured(number), DataType::Structured(other)) => number == other,
        _ => false,
    }
}

/// Whether two types are the same. Structured ones come from one occurrence of ARRAY or RECORD, so that the places of
/// these tell them apart, and what they consist of is looked at only behind equal places.
#[cycle(same_type)]
pub fn same_type(types: &Types, left: DataType, right: DataType) -> bool
    ensures { result ≡ same_type (type_in (table_of types.now) left) (type_in (table_of types.now) right) }
{
    if same_number(left, right) {
        return true;
    }
    match (shape_in(types, left), shape_in(types, right)) {
        (Shape::Simple(scalar), Shape::Simple(other)) => same_scalar_type(scalar, other),
        (Shape::Occurrence(occurrence), Shape::Occurrence(other)) => {
            if occurrence.place != other.place {
                return false;
            }
            same_structure(types, &occurrence.structure, &other.structure)
        }
        _ => false,
    }
}

/// Whether what stands behind ARRAY or RECORD at one place is the same.
#[cycle(same_type)]
fn same_structure(types: &Types, left: &Structure, right: &Structure) -> bool
    ensures { (place : ℕ) → result ≡ same_type (structure_by (types_of (table_of types.now)) place left.now) (structure_by (types_of (table_of types.now)) place right.now) }
{
    match (left, right) {
        (
            Structure::Array { length, element },
            Structure::Array {
                length: other,
                element: of_other,
            },
        ) => {
            if length != other {
                return false;
            }
            same_type(types, *element, *of_other)
        }
        (Structure::Record { fields }, Structure::Record { fields: others }) => {
            same_fields(types, fields.as_slice(), others.as_slice())
        }
        _ => false,
    }
}

/// Whether fields have the same names and types, one by one.
#[cycle(same_type)]
fn same_fields(types: &Types, left: &[(String, DataType)], right: &[(String, DataType)]) -> bool
    ensures { result ≡ same_fields (fields_by (types_of (table_of types.now)) left.now) (fields_by (types_of (table_of types.now)) right.now) }
{
    if left.len() != right.len() {
        return false;
    }
    for position in 0..left.len() {
        let field = &left[position];
        let other = &right[position];
        if field.0 != other.0 {
            return false;
        }
        if !same_type(types, field.1, other.1) {
            return false;
        }
    }
    true
}
