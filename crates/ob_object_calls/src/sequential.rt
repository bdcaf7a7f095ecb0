//! A sequential run: the calls of a script made one at a time, from bytes to bytes.

ghost use Rattle.std.specs.Prelude.{◌≡◌, ◌<◌, [], Err, All, IfOk, IfErr, map, string_bytes};
ghost use Rattle.ob_code_correct.specs.Compiled.{Fits};
ghost use Rattle.ob_interface.specs.Processes.{most_processes};
ghost use Rattle.ob_mean.specs.Sequences.{replies_to};
ghost use Rattle.ob_object_compile.specs.Asked.{TellsAtOnce, by_body};
ghost use Rattle.ob_object_compile.specs.Sound.{IsSoundObject};
ghost use Rattle.ob_object_compile.specs.View.{asked_of, object_in};
ghost use Rattle.ob_object_calls.specs.CallLines.{reply_lines};
ghost use Rattle.ob_object_calls.specs.SequentialRun.{IsSeqRefusal, IsSequentialRun};
ghost use Rattle.ob_text_words.specs.ScriptCalls.{object_call, script_call_of};

use crate::coded_calls::coded;
use ob_interface::{MOST_PROCESSES, NoMemory};
use ob_object_compile::laws::compilations_are_sound;
use ob_object_compile::{Asked, Beginning, CompileFault, Object, compile_asked};
use ob_text_scripts::{ScriptFault, read_scripts};
use ob_text_words::reply_lines::push_reply_line;
use ob_text_words::script_call::ScriptCall;
use std::alloc::Global;
use thiserror::Error;

/// Why there is no sequential run: the first fault, in the order of the variants.
#[derive(Clone, Copy, Debug, Error)]
pub enum SeqTextFault {
    /// The text has no object with the budget.
    #[error("{0}")]
    Compile(CompileFault),
    /// The script is none.
    #[error("{0}")]
    Script(ScriptFault),
    /// Want of memory.
    #[error("NoMemory")]
    NoMemory,
}

impl From<CompileFault> for SeqTextFault {
    ghost use Rattle.std.specs.Prelude.{◌≡◌};
    ghost use Rattle.ob_object_calls.specs.SequentialParts.{of_compile};

    ghost from_gives = { λ e f. f ≡ of_compile e };

    fn from(fault: CompileFault) -> SeqTextFault {
        match fault {
            CompileFault::NoMemory => SeqTextFault::NoMemory,
            other => SeqTextFault::Compile(other),
        }
    }
}

impl From<ScriptFault> for SeqTextFault {
    ghost use Rattle.std.specs.Prelude.{◌≡◌};
    ghost use Rattle.ob_object_calls.specs.SequentialParts.{of_script};

    ghost from_gives = { λ e f. f ≡ of_script e };

    fn from(fault: ScriptFault) -> SeqTextFault {
        match fault {
            ScriptFault::NoMemory => SeqTextFault::NoMemory,
            other => SeqTextFault::Script(other),
        }
    }
}

impl From<NoMemory> for SeqTextFault {
    ghost use Rattle.std.specs.Prelude.{◌≡◌};
    ghost use Rattle.ob_object_calls.specs.declared.sequential.SeqTextFault.TheVariants as Faults;

    ghost from_gives = { λ _ f. f ≡ Faults.NoMemory };

    fn from(_: NoMemory) -> SeqTextFault {
        SeqTextFault::NoMemory
    }
}

/// The E lines of the replies to the script's calls, made one at a time in line order from the module's opening state, each with the
/// budget of turns. The script may name all processes that an object can have.
pub fn seq_text(
    alloc: Global,
    module: &[u8],
    script: &[u8],
    budget: u64,
) -> Result<String, SeqTextFault>
    ensures run { IfOk result (λ text. IsSequentialRun (by_body «module».now most_processes budget) script.now (string_bytes text)) }
    ensures refused { IfErr result (IsSeqRefusal (by_body «module».now most_processes budget) script.now) }
    ensures at_once { TellsAtOnce (by_body «module».now most_processes budget) (λ e. result ≡ Err (SeqTextFault.Compile e)) }
{
    let asked = Asked {
        text: module,
        processes: MOST_PROCESSES,
        budget,
        beginning: Beginning::Body,
    };
    seq_asked(alloc, asked, script)
}

/// The same of an object that is asked for, from the state with which it begins.
pub fn seq_asked(alloc: Global, asked: Asked<'_>, script: &[u8]) -> Result<String, SeqTextFault>
    ensures run { IfOk result (λ text. IsSequentialRun (asked_of asked.entry) script.now (string_bytes text)) }
    ensures refused { IfErr result (IsSeqRefusal (asked_of asked.entry) script.now) }
    ensures at_once { TellsAtOnce (asked_of asked.entry) (λ e. result ≡ Err (SeqTextFault.Compile e)) }
{
    compilations_are_sound();
    let object = compile_asked(alloc, asked)?;
    let scripts = read_scripts(alloc, object.checked(), asked.processes, script)?;
    Ok(replies_text(alloc, &object, scripts.calls())?)
}

/// The E lines of the replies to calls that are made one at a time on an object, each with its budget of turns. The calls are made by the
/// object's code, and the line of a reply is written before the next call is made.
fn replies_text(alloc: Global, object: &Object, calls: &[ScriptCall]) -> Result<String, NoMemory>
    requires sound { IsSoundObject (object_in object.now) }
    requires fit { All (λ c. Fits (object_in object.now).program (object_call (script_call_of c))) calls.now }
    requires processes { All (λ c. c.process < (object_in object.now).processes) calls.now }
    ensures { IfOk result (λ text. string_bytes text ≡ reply_lines [] (map (λ c. c.process) calls.now)
        (replies_to (object_in object.now).program (object_in object.now).engine.budget (object_in object.now).opening
        (map (λ c. object_call (script_call_of c)) calls.now))) }
{
    let mut coded = coded(alloc, object)?;
    let mut text = String::new(alloc);
    let mut made = vec![in alloc; 0u64; object.processes()]?;
    for call in calls {
        let asked = call.asked(alloc)?;
        let reply = coded.call(&asked);
        made[call.process] += 1;
        push_reply_line(&mut text, call.process, made[call.process], &reply)?;
    }
    Ok(text)
}
