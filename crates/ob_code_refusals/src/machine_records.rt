//! The record of a machine and its numbers, as text.

ghost use Rattle.std.specs.Prelude.{◌≡◌, ◌<◌};
ghost use Rattle.ob_code_scheme.specs.Layout.{encoded};
ghost use Rattle.ob_object_compile.specs.Sound.{IsSoundObject};
ghost use Rattle.ob_object_compile.specs.View.{object_in};

use crate::trouble::Trouble;
use ob_code_engine::CodeEngine;
use ob_object_compile::Object;
use ob_object_run::recorded;
use ob_text_record::write_record;
use std::alloc::{AllocError, Global};
use wf_object::Machine;

/// Adds the numbers and the record of a machine of the object.
pub fn add_record(
    alloc: Global,
    object: &Object,
    machine: Machine<CodeEngine>,
    text: &mut String,
) -> Result<(), Trouble>
    requires sound { IsSoundObject (object_in object.now) }
    requires code { machine.engine.parts ≡ (object_in object.now).engine }
    requires opening { machine.opening ≡ encoded (object_in object.now).opening }
    requires some { 0 < machine.sizes.processes }
{
    add_numbers(&machine, text)?;
    let record = recorded(alloc, machine, object.processes(), object.layout())?;
    text.push_str(write_record(alloc, object.checked(), &record)?.as_str())?;
    Ok(())
}

/// Adds what process 0 has spent on its last call and what bounds that, how many words the blocks keep, and the variables as they
/// are copied and as they are lent.
fn add_numbers(machine: &Machine<CodeEngine>, text: &mut String) -> Result<(), Trouble>
    requires { 0 < machine.now.sizes.processes }
{
    let spent = machine.spent(0);
    add_number(text, "bodies", spent.bodies)?;
    add_number(text, "inside", spent.inside)?;
    add_number(text, "outside", spent.outside)?;
    add_number(text, "bound", machine.bound())?;
    add_number(text, "table", machine.shared().table_words() as u128)?;
    add_words(text, "copied", machine.state_words()?.as_slice())?;
    add_words(text, "lent", machine.variables())?;
    Ok(())
}

fn add_number(text: &mut String, name: &str, number: u128) -> Result<(), AllocError> {
    writeln!(text, "{name} {number}")
}

fn add_words(text: &mut String, name: &str, words: &[i64]) -> Result<(), AllocError> {
    text.push_str(name)?;
    for word in words {
        write!(text, " {word}")?;
    }
    text.push_str("\n")
}
