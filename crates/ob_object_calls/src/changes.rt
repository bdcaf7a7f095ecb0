//! The variables that calls change, as the lines that tell them.

ghost use Rattle.std.specs.Prelude.{◌≡◌, ◌++◌, All, IfOk, OnOk, map, string_bytes};
ghost use Rattle.ob_checked.specs.View.{program_of, table_of, variable_of};
ghost use Rattle.ob_code_correct.specs.Compiled.{Fits};
ghost use Rattle.ob_object_compile.specs.Sound.{IsSoundObject};
ghost use Rattle.ob_object_compile.specs.View.{object_in};
ghost use Rattle.ob_object_calls.specs.DetailLines.{all_changes_at, line_changed, lines_at, lines_changed};
ghost use Rattle.ob_store.specs.View.{state_of, value_in};
ghost use Rattle.ob_text_record.specs.Variables.{variable_line};
ghost use Rattle.ob_text_words.specs.ScriptCalls.{object_call, script_call_of};

use crate::coded_calls::coded;
use ob_checked::program::{Program, Variable};
use ob_checked::types::Types;
use ob_interface::NoMemory;
use ob_object_compile::Object;
use ob_store::state::State;
use ob_store::value::Value;
use ob_text_record::printed_values::push_value;
use ob_text_words::script_call::ScriptCall;
use std::alloc::{AllocError, Global};

/// Of a script's calls, made one at a time from the state with which an object begins, each with its budget: the lines of the variables
/// that each changed.
pub(crate) fn changes_in_turn(
    alloc: Global,
    object: &Object,
    calls: &[ScriptCall],
) -> Result<Vec<String>, NoMemory>
    requires sound { IsSoundObject (object_in object.now) }
    requires fit { All (λ c. Fits (object_in object.now).program (object_call (script_call_of c))) calls.now }
    ensures { IfOk result (λ changes. map string_bytes changes.items
        ≡ all_changes_at (object_in object.now).program (object_in object.now).engine.budget (object_in object.now).opening
        (map (λ c. object_call (script_call_of c)) calls.now)) }
{
    let program = object.checked().program();
    let mut lines = state_lines(alloc, program, object.opening())?;
    let mut coded = coded(alloc, object)?;
    let mut changes = Vec::with_capacity(alloc, calls.len())?;
    for call in calls {
        let asked = call.asked(alloc)?;
        let _ = coded.call(&asked);
        let state = coded.state(alloc, object.layout())?;
        let after = state_lines(alloc, program, &state)?;
        changes.push(lines_changed(alloc, &lines, &after)?)?;
        lines = after;
    }
    Ok(changes)
}

/// The lines of the module's variables with their values in a state, in text order.
fn state_lines(alloc: Global, program: &Program, state: &State) -> Result<Vec<String>, AllocError>
    ensures { IfOk result (λ lines. map string_bytes lines.items ≡ lines_at (program_of program.now).variables (state_of state.now)) }
{
    let mut lines = Vec::new(alloc);
    for (variable, value) in program.variables.iter().zip(state.values()) {
        lines.push(line_of(alloc, &program.types, variable, value)?)?;
    }
    Ok(lines)
}

/// The line of a variable with its value.
fn line_of(
    alloc: Global,
    types: &Types,
    variable: &Variable,
    value: &Value,
) -> Result<String, AllocError>
    ensures { IfOk result (λ line. string_bytes line ≡ variable_line (variable_of (table_of types.now) variable.now) (value_in value.now)) }
{
    let mut line = String::from_str(alloc, "V ")?;
    line.push_str(&variable.name)?;
    line.push_str(" ")?;
    push_value(&mut line, types, variable.data_type, value)?;
    line.push_str("\n")?;
    Ok(line)
}

/// The lines that are others than those before.
fn lines_changed(alloc: Global, before: &[String], after: &[String]) -> Result<String, AllocError>
    ensures { IfOk result (λ text. string_bytes text ≡ lines_changed (map string_bytes before.now) (map string_bytes after.now)) }
{
    let mut text = String::new(alloc);
    for (old, new) in before.iter().zip(after) {
        push_changed(&mut text, old, new)?;
    }
    Ok(text)
}

/// Appends a line where it is another than the one before.
fn push_changed(text: &mut String, old: &str, new: &str) -> Result<(), AllocError>
    ensures { OnOk result (string_bytes text.new ≡ string_bytes text.old ++ line_changed old.now new.now) }
{
    if old == new {
        Ok(())
    } else {
        text.push_str(new)
    }
}
