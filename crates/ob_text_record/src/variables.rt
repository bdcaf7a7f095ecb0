//! The lines of variables.

ghost use Rattle.std.specs.Prelude.{◌≡◌, ◌++◌, OnErr, OnOk, string_bytes};
ghost use Rattle.ob_checked.specs.View.{program_of, table_of, variable_of};
ghost use Rattle.ob_store.specs.View.{state_of, value_in};
ghost use Rattle.ob_text_words.specs.Appending.{GoesOn};
ghost use Rattle.ob_text_record.specs.Variables.{line_behind, lines_behind, opening_text, state_text};

use crate::printed_values::push_value;
use ob_checked::program::{Program, Variable};
use ob_checked::types::Types;
use ob_store::state::State;
use ob_store::value::Value;
use std::alloc::AllocError;

/// Appends the line of a variable with its value, behind what the line begins with.
fn push_line(
    text: &mut String,
    mark: &str,
    types: &Types,
    variable: &Variable,
    value: &Value,
) -> Result<(), AllocError>
    ensures ok { OnOk result (string_bytes text.new
        ≡ string_bytes text.old ++ line_behind mark.now (variable_of (table_of types.now) variable.now) (value_in value.now)) }
    ensures left { OnErr result (GoesOn (string_bytes text.old) (string_bytes text.new)) }
{
    text.push_str(mark)?;
    text.push_str(&variable.name)?;
    text.push_str(" ")?;
    push_value(text, types, variable.data_type, value)?;
    text.push_str("\n")
}

/// Appends the lines of the module's variables with their values in a state, in text order, each behind what it begins with.
fn push_lines(
    text: &mut String,
    mark: &str,
    program: &Program,
    state: &State,
) -> Result<(), AllocError>
    ensures ok { OnOk result (string_bytes text.new
        ≡ string_bytes text.old ++ lines_behind mark.now (program_of program.now).variables (state_of state.now)) }
    ensures left { OnErr result (GoesOn (string_bytes text.old) (string_bytes text.new)) }
{
    for (variable, value) in program.variables.iter().zip(state.values()) {
        push_line(text, mark, &program.types, variable, value)?;
    }
    Ok(())
}

/// Appends the lines of the module's variables with their values in a state at the end.
pub fn push_state(text: &mut String, program: &Program, state: &State) -> Result<(), AllocError>
    ensures ok { OnOk result (string_bytes text.new
        ≡ string_bytes text.old ++ state_text (program_of program.now).variables (state_of state.now)) }
    ensures left { OnErr result (GoesOn (string_bytes text.old) (string_bytes text.new)) }
{
    push_lines(text, "V ", program, state)
}

/// Appends the lines of the module's variables with their values in a state at the beginning.
pub fn push_opening(text: &mut String, program: &Program, state: &State) -> Result<(), AllocError>
    ensures ok { OnOk result (string_bytes text.new
        ≡ string_bytes text.old ++ opening_text (program_of program.now).variables (state_of state.now)) }
    ensures left { OnErr result (GoesOn (string_bytes text.old) (string_bytes text.new)) }
{
    push_lines(text, "I ", program, state)
}
