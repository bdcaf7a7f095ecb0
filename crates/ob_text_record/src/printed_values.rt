//! Values as text: scalars, arrays and records.

ghost use Rattle.std.specs.Prelude.{◌≡◌, ◌++◌, OnErr, OnOk, string_bytes};
ghost use Rattle.ob_checked.specs.Types.{type_in};
ghost use Rattle.ob_checked.specs.View.{table_of};
ghost use Rattle.ob_store.specs.View.{value_in, values_in};
ghost use Rattle.ob_text_words.specs.Appending.{GoesOn};
ghost use Rattle.ob_text_record.specs.Values.{array_text, record_text_in, separator, value_text};

use ob_checked::fields::Fields;
use ob_checked::types::{DataType, Types};
use ob_scopes::type_parts::{elements_of, fields_of};
use ob_store::value::Value;
use ob_text_words::scalar_words;
use std::alloc::AllocError;

/// Appends a value of a type.
#[cycle(writing)]
pub fn push_value(
    text: &mut String,
    types: &Types,
    data_type: DataType,
    value: &Value,
) -> Result<(), AllocError>
    ensures ok { OnOk result (string_bytes text.new
        ≡ string_bytes text.old ++ value_text (type_in (table_of types.now) data_type) (value_in value.now)) }
    ensures left { OnErr result (GoesOn (string_bytes text.old) (string_bytes text.new)) }
{
    match value {
        Value::Single(scalar) => scalar_words::push_value(text, *scalar),
        Value::Parts(parts) => match elements_of(types, data_type) {
            Some((_, element)) => push_array(text, types, element, parts.as_slice()),
            None => match fields_of(types, data_type) {
                Some(fields) => push_record(text, types, fields, parts.as_slice()),
                None => Ok(()),
            },
        },
    }
}

/// Appends an array: its elements in brackets, with a comma between two.
#[cycle(writing)]
fn push_array(
    text: &mut String,
    types: &Types,
    element: DataType,
    parts: &[Value],
) -> Result<(), AllocError>
    ensures ok { OnOk result (string_bytes text.new
        ≡ string_bytes text.old ++ array_text (type_in (table_of types.now) element) (values_in parts.now)) }
    ensures left { OnErr result (GoesOn (string_bytes text.old) (string_bytes text.new)) }
{
    text.push_str("[")?;
    for (position, part) in parts.iter().enumerate() {
        push_separator(text, position)?;
        push_value(text, types, element, part)?;
    }
    text.push_str("]")
}

/// Appends a record: its fields with their names in braces, with a comma between two.
#[cycle(writing)]
fn push_record(
    text: &mut String,
    types: &Types,
    fields: &Fields,
    parts: &[Value],
) -> Result<(), AllocError>
    ensures ok { OnOk result (string_bytes text.new
        ≡ string_bytes text.old ++ record_text_in (table_of types.now) fields.now (values_in parts.now)) }
    ensures left { OnErr result (GoesOn (string_bytes text.old) (string_bytes text.new)) }
{
    text.push_str("{")?;
    for (position, part) in parts.iter().enumerate() {
        let Some((name, data_type)) = fields.as_slice().get(position) else {
            break;
        };
        push_separator(text, position)?;
        text.push_str(name)?;
        text.push_str("=")?;
        push_value(text, types, *data_type, part)?;
    }
    text.push_str("}")
}

/// Appends what stands before the part at a position: a comma, but for the first one.
fn push_separator(text: &mut String, position: usize) -> Result<(), AllocError>
    ensures ok { OnOk result (string_bytes text.new ≡ string_bytes text.old ++ separator position) }
    ensures left { OnErr result (GoesOn (string_bytes text.old) (string_bytes text.new)) }
{
    if position > 0 {
        text.push_str(",")
    } else {
        Ok(())
    }
}
