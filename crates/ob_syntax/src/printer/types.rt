//! The printed text of types.

ghost use Rattle.std.specs.Prelude.{◌≡◌, [], ◌∷◌, ◌++◌, string_bytes, OnOk};
ghost use Rattle.ob_grammar.specs.View.{type_of, fields_in};
ghost use Rattle.ob_syntax.specs.Printing.{spaced, type_words, field_words};

use crate::printer::expressions::push_expr;
use crate::printer::{push_name, push_names, push_separator, push_word};
use ob_grammar::tree::{FieldList, TypeExpr};
use ob_interface::NoMemory;

/// Appends a type.
#[cycle(types)]
pub(super) fn push_type(text: &mut String, type_expr: &TypeExpr) -> Result<(), NoMemory>
    ensures { OnOk result (string_bytes text.new ≡ string_bytes text.old ++ spaced (type_words (type_of type_expr.now))) }
{
    match type_expr {
        TypeExpr::Named(name) => push_name(text, name),
        TypeExpr::Array {
            length,
            element,
            ..
        } => {
            push_word(text, "ARRAY")?;
            push_expr(text, length)?;
            push_word(text, "OF")?;
            push_type(text, element)
        }
        TypeExpr::Record { fields, .. } => {
            push_word(text, "RECORD")?;
            push_fields(text, fields)?;
            push_word(text, "END")
        }
    }
}

/// Appends the fields of a record, with a semicolon between two lists.
#[cycle(types)]
fn push_fields(text: &mut String, lists: &[FieldList]) -> Result<(), NoMemory>
    ensures { OnOk result (string_bytes text.new ≡ string_bytes text.old ++ spaced (field_words (fields_in lists.now))) }
{
    let mut is_first = true;
    for list in lists {
        push_separator(text, is_first, ";")?;
        push_field_list(text, list)?;
        is_first = false;
    }
    Ok(())
}

/// Appends fields of one type, or nothing.
#[cycle(types)]
fn push_field_list(text: &mut String, list: &FieldList) -> Result<(), NoMemory>
    ensures { OnOk result (string_bytes text.new ≡ string_bytes text.old ++ spaced (field_words (fields_in (list.now ∷ [])))) }
{
    match list {
        FieldList::Empty => Ok(()),
        FieldList::Fields { names, of_type } => {
            push_names(text, names)?;
            push_word(text, ":")?;
            push_type(text, of_type)
        }
    }
}
