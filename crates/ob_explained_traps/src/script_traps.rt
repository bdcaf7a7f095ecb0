//! Where the calls of a script trap: from the bytes of a module and of a script to the bytes that are printed.

ghost use Rattle.std.specs.Prelude.{◌≡◌, Err, IfOk, IfErr, length, string_bytes};
ghost use Rattle.ob_explained.specs.Sources.{source_of};
ghost use Rattle.ob_explained_traps.specs.CallLines.{call_lines};
ghost use Rattle.ob_explained_traps.specs.ScriptTraps.{IsTrapsText, told_of_calls};
ghost use Rattle.ob_object_compile.specs.Asked.{TellsAtOnce};
ghost use Rattle.ob_object_compile.specs.View.{asked_of};
ghost use Rattle.ob_object_calls.specs.SequentialRun.{IsSeqRefusal};

use crate::call_lines::call_lines;
use crate::told_calls::Calls;
use crate::trap_lines::{Setting, traps_told};
use ob_explained::Source;
use ob_interface::NoMemory;
use ob_object_calls::SeqTextFault;
use ob_object_calls::script_calls::{callers, object_calls};
use ob_object_compile::{Asked, CompileFault, Object, compile_asked};
use ob_text_scripts::read_scripts;
use ob_text_words::script_call::ScriptCall;
use ob_trap_places::sequence::sites_in_turn;
use std::alloc::Global;

/// What is told of the script's calls that trap, made one at a time in line order on the object that is asked for, from the state
/// with which it begins: of each place in the module's text, which has this name, the first call that traps there, the line of the
/// operation, what could not be done, and how many calls trap there.
pub fn traps_text(
    alloc: Global,
    module_name: &str,
    asked: Asked<'_>,
    script: Source<'_>,
) -> Result<String, SeqTextFault>
    ensures told { IfOk result (λ text. IsTrapsText module_name.now (asked_of asked.entry) (source_of script.entry) (string_bytes text)) }
    ensures refused { IfErr result (IsSeqRefusal (asked_of asked.entry) script.entry.text.now) }
    ensures at_once { TellsAtOnce (asked_of asked.entry) (λ e. result ≡ Err (SeqTextFault.Compile e)) }
{
    let compiled = compile_asked(alloc, asked)?;
    let scripts = read_scripts(alloc, compiled.checked(), asked.processes, script.text)?;
    let object = Source {
        name: module_name,
        text: asked.text,
    };
    let told = told_of_calls(alloc, object, &compiled, script, scripts.calls())?;
    Ok(told)
}

/// What is told of these calls on the object of a text.
fn told_of_calls(
    alloc: Global,
    object: Source<'_>,
    compiled: &Object,
    script: Source<'_>,
    calls: &[ScriptCall],
) -> Result<String, NoMemory>
    requires { length (call_lines script.text.now) ≡ length calls.now }
    ensures { IfOk result (λ text. string_bytes text ≡ told_of_calls object.entry script.entry compiled.now calls.now) }
{
    let callers = callers(alloc, calls)?;
    let asked = object_calls(alloc, calls)?;
    let opening = compiled.opening().copy(alloc)?;
    let checked = compiled.checked();
    let budget = compiled.budget();
    let sites = sites_in_turn(alloc, checked, opening, &asked, budget)?;
    let lines = call_lines(alloc, script.text)?;
    let setting = Setting {
        object,
        tree: checked.tree(),
        calls: Calls::OfScript {
            name: script.name,
            callers: &callers,
            lines: &lines,
        },
        budget,
    };
    Ok(traps_told(alloc, setting, &sites)?)
}
