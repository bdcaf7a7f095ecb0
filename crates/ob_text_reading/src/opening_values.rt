//! The values that an object began with, from the lines behind the budget.

ghost use Rattle.std.specs.Prelude.{◌≡◌, ◌+◌, ◌<◌, ◌^◌, ◌++◌, ◌∷◌, [], length, map, IfErr, IfOk, OnOk};
ghost use Rattle.ob_checked.specs.View.{table_of, variable_of};
ghost use Rattle.ob_store.specs.View.{value_in, variables_in};
ghost use Rattle.ob_text_words.specs.Finding.{FindsAs};
ghost use Rattle.ob_text_words.specs.Words.{words};
ghost use Rattle.ob_text_reading.specs.Openings.{IsOpening, OpeningFault, OpensWith};
ghost use Rattle.ob_text_values_reading.specs.RecordTexts.{lines_behind};

use crate::record_reading::RecordFault;
use ob_carry::fitting::fitted;
use ob_checked::program::Variable;
use ob_checked::types::Types;
use ob_interface::NoMemory;
use ob_store::value::Value;
use ob_text_values_reading::lines::split_line;
use ob_text_values_reading::variables::read_variable;
use std::alloc::{AllocError, Global};

/// How many lines stand before the first of these.
const LINES_BEFORE: usize = 3;

/// Puts the values of variables into an empty list, from a line for each, in their order; with what stands behind those.
pub(crate) fn read_openings<'a>(
    alloc: Global,
    types: &Types,
    variables: &[Variable],
    behind: Option<&'a [u8]>,
    values: &mut Vec<Value>,
) -> Result<Option<&'a [u8]>, RecordFault>
    requires empty { values.old.items ≡ [] }
    requires few { length (lines_behind behind) + 4 < 2 ^ 64 }
    ensures openings { IfOk result (λ rest. OpensWith (map (variable_of (table_of types.now)) variables.now)
        (lines_behind behind.entry) (lines_behind rest) (variables_in values.new.items)) }
    ensures fault { IfErr result (OpeningFault (map (variable_of (table_of types.now)) variables.now) (lines_behind behind.entry)) }
{
    let mut left = behind;
    let mut number = LINES_BEFORE;
    for variable in variables {
        number += 1;
        let Some(text) = left else {
            return Err(RecordFault::Form(number));
        };
        let (line, rest) = split_line(text);
        let Some(value) = read_opening(alloc, types, variable, line)? else {
            return Err(RecordFault::Form(number));
        };
        push_value(values, value)?;
        left = rest;
    }
    Ok(left)
}

/// Appends a value.
pub(crate) fn push_value(values: &mut Vec<Value>, value: Value) -> Result<(), AllocError>
    ensures { OnOk result (values.new.items ≡ values.old.items ++ «value» ∷ []) }
{
    values.push(value)?;
    Ok(())
}

/// The value of a variable that a line says.
pub fn read_opening(
    alloc: Global,
    types: &Types,
    variable: &Variable,
    line: &[u8],
) -> Result<Option<Value>, NoMemory>
    ensures { IfOk result (FindsAs value_in (IsOpening (variable_of (table_of types.now) variable.now) (words line.now))) }
{
    let Some(field) = read_variable(alloc, b'I', line)? else {
        return Ok(None);
    };
    if field.name.as_str() != variable.name.as_str() {
        return Ok(None);
    }
    fitted(alloc, types, variable.data_type, &field.value)
}
