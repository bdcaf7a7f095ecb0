//! A module's object, with scripts of calls on it.

ghost use Rattle.std.specs.Prelude.{◌≡◌, Err, IfOk, IfErr};
ghost use Rattle.ob_object_compile.specs.Asked.{TellsAtOnce};
ghost use Rattle.ob_object_compile.specs.View.{asked_of};
ghost use Rattle.ob_object_outcomes.specs.Scripted.{AreFitting, IsScripted, scripted_in};
ghost use Rattle.ob_object_calls.specs.SequentialRun.{IsSeqRefusal};
ghost use Rattle.ob_typing.specs.ModuleText.{IsModule};
ghost use Rattle.ob_typing.specs.Program.{Program};

use crate::scripts::scripts_of;
use ob_checked::checked::Checked;
use ob_interface::NoMemory;
use ob_interface::export::Export;
use ob_object_calls::SeqTextFault;
use ob_object_compile::{Asked, Object, compile_asked};
use ob_object_search::ModuleObject;
use ob_text_scripts::read_scripts;
use std::alloc::Global;
use wf_history::KeptCall;

/// A module's object, and what each process calls on it.
#[derive(Drop)]
pub struct Scripted {
    object: Object,
    scripts: Vec<Vec<KeptCall>>,
}

impl Scripted {
    ghost use Rattle.std.specs.Prelude.{◌≡◌, IfOk, map};
    ghost use Rattle.ob_checked.specs.CheckedModule.{program_in};
    ghost use Rattle.ob_checked.specs.Exports.{signatures};
    ghost use Rattle.ob_interface.specs.View.{signature_of};
    ghost use Rattle.ob_object_outcomes.specs.Scripted.{scripted_in};
    ghost use Rattle.ob_store.specs.View.{state_of};
    ghost use Rattle.wf_outcomes.specs.Explored.{calls_in};

    /// The object, as an exploration takes it.
    pub fn object(&self, alloc: Global) -> Result<ModuleObject<'_>, NoMemory>
        ensures program { IfOk result (λ o. program_in o.checked.now ≡ (scripted_in self.now).object.program) }
        ensures budget { IfOk result (λ o. o.budget ≡ (scripted_in self.now).object.engine.budget) }
        ensures opening { IfOk result (λ o. state_of o.opening.now ≡ (scripted_in self.now).object.opening) }
    {
        ModuleObject::new(
            alloc,
            self.object.checked(),
            self.object.opening(),
            self.object.budget(),
        )
    }

    /// The checked module.
    pub fn checked(&self) -> &Checked
        ensures { program_in result.now ≡ (scripted_in self.now).object.program }
    {
        self.object.checked()
    }

    /// What a caller knows of the module's exports.
    pub fn exports(&self) -> &[Export]
        ensures { map signature_of result.now ≡ signatures (scripted_in self.now).object.program }
    {
        self.object.checked().exports()
    }

    /// What each process calls, in its order.
    pub fn scripts(&self) -> &[Vec<KeptCall>]
        ensures { calls_in result.now ≡ (scripted_in self.now).scripts }
    {
        &self.scripts
    }
}

/// The object that is asked for, and what each process calls on it by the lines of a script.
pub fn scripted_text(
    alloc: Global,
    asked: Asked<'_>,
    script: &[u8],
) -> Result<Scripted, SeqTextFault>
    ensures scripted { IfOk result (λ s. IsScripted (asked_of asked.entry) script.now (scripted_in s)) }
    ensures fitting { IfOk result (λ s. AreFitting (scripted_in s)) }
    ensures alone { IfOk result (λ s. (other : Program) → IsModule (asked_of asked.entry).text other → other ≡ (scripted_in s).object.program) }
    ensures refused { IfErr result (IsSeqRefusal (asked_of asked.entry) script.now) }
    ensures at_once { TellsAtOnce (asked_of asked.entry) (λ e. result ≡ Err (SeqTextFault.Compile e)) }
{
    let object = compile_asked(alloc, asked)?;
    let read = read_scripts(alloc, object.checked(), asked.processes, script)?;
    let scripts = scripts_of(alloc, read.calls(), asked.processes)?;
    Ok(Scripted { object, scripts })
}
