//! Scripts: the calls that a run makes.

ghost use Rattle.std.specs.Prelude.{◌≡◌, ◌<◌, All, List, IfOk, IfErr, map};
ghost use Rattle.ob_checked.specs.CheckedModule.{program_in};
ghost use Rattle.ob_checked.specs.Exports.{signatures};
ghost use Rattle.ob_interface.specs.Export.{CallFits};
ghost use Rattle.ob_interface.specs.View.{signature_of};
ghost use Rattle.ob_text_scripts.specs.Script.{IsOnlyScript, IsScript, IsScriptFault};
ghost use Rattle.ob_text_words.specs.ScriptCalls.{object_call, script_call_of};

mod line;

use crate::script::line::read_line;
use ob_checked::checked::Checked;
use ob_interface::NoMemory;
use ob_interface::export::Export;
use ob_text_words::script_call::ScriptCall;
use ob_text_words::words::put_words;
use smallvec::SmallVec;
use std::alloc::{AllocError, AllocFailed, Global};
use std::marker::Model;
use thiserror::Error;

/// The calls of a script, in line order.
#[derive(Drop)]
pub struct Scripts {
    calls: Vec<ScriptCall>,
}

impl Model for Scripts {
    ghost use Rattle.std.specs.Prelude.{List, map};
    ghost use Rattle.ob_text_words.specs.ScriptCalls;
    ghost use Rattle.ob_text_words.specs.ScriptCalls.{script_call_of};

    ghost Value = { List ScriptCalls.ScriptCall };

    ghost view = { λ s. map script_call_of s.calls.items };
}

impl Scripts {
    /// The calls, in line order.
    pub fn calls(&self) -> &[ScriptCall]
        ensures { map script_call_of result.now ≡ self.now }
    {
        &self.calls
    }

    /// The calls, in line order; the script is given up.
    pub fn into_calls(self) -> Vec<ScriptCall>
        ensures { map script_call_of result.items ≡ self }
    {
        self.calls
    }

    /// A script of the same calls.
    pub fn copy(&self, alloc: Global) -> Result<Scripts, NoMemory>
        ensures { IfOk result (λ copy. copy ≡ self.now) }
    {
        let calls = self.calls();
        let mut copies = Vec::with_capacity(alloc, calls.len())?;
        for call in calls {
            copies.push(copied(alloc, call)?)?;
        }
        Ok(Scripts { calls: copies })
    }
}

/// A copy of a call.
fn copied(alloc: Global, call: &ScriptCall) -> Result<ScriptCall, AllocError>
    ensures { IfOk result (λ copy. script_call_of copy ≡ script_call_of call.now) }
{
    Ok(ScriptCall {
        process: call.process,
        proc: call.proc,
        args: SmallVec::from_slice(alloc, call.args.as_slice())?,
    })
}

/// Why a text is no script. Lines count from 1.
#[derive(Clone, Copy, Debug, PartialEq, Eq, Error)]
pub enum ScriptFault {
    /// L1: the first word is no process, or the second one is missing or no name.
    #[error("L1 line {0}")]
    Form(usize),
    /// L2: no export has the procedure's name.
    #[error("L2 line {0}")]
    Procedure(usize),
    /// L3: the arguments don't fit the value parameters.
    #[error("L3 line {0}")]
    Arguments(usize),
    /// L4: there is no such process.
    #[error("L4 line {0}")]
    Process(usize),
    /// Want of memory.
    #[error("NoMemory")]
    NoMemory,
}

impl From<AllocError> for ScriptFault {
    ghost use Rattle.std.specs.Prelude.{◌≡◌};
    ghost use Rattle.ob_text_scripts.specs.declared.script.ScriptFault.TheVariants.{NoMemory};

    ghost from_gives = { λ _ e. e ≡ NoMemory };

    fn from(_: AllocError) -> ScriptFault {
        ScriptFault::NoMemory
    }
}

impl<T: Drop> From<AllocFailed<T>> for ScriptFault {
    ghost use Rattle.std.specs.Prelude.{◌≡◌};
    ghost use Rattle.ob_text_scripts.specs.declared.script.ScriptFault.TheVariants.{NoMemory};

    ghost from_gives = { λ _ e. e ≡ NoMemory };

    fn from(_: AllocFailed<T>) -> ScriptFault {
        ScriptFault::NoMemory
    }
}

/// The calls of a script on a module's exports, by processes below `processes`, in line order.
pub fn read_scripts(
    alloc: Global,
    checked: &Checked,
    processes: usize,
    text: &[u8],
) -> Result<Scripts, ScriptFault>
    ensures script { IfOk result (λ calls. IsScript (signatures (program_in checked.now)) processes text.now calls) }
    ensures alone { IfOk result (IsOnlyScript (signatures (program_in checked.now)) processes text.now) }
    ensures fault { IfErr result (λ e. IsScriptFault (signatures (program_in checked.now)) processes text.now e) }

    // Each call is by one of the processes, and fits the exports.
    ensures processes { IfOk result (λ calls. All (λ c. c.process < processes) calls) }
    ensures fit { IfOk result (λ calls. All (λ c. CallFits (signatures (program_in checked.now)) (object_call c)) calls) }
{
    let calls = read_calls(alloc, checked.exports(), processes, text)?;
    Ok(Scripts { calls })
}

/// The calls of a script on these exports.
fn read_calls(
    alloc: Global,
    exports: &[Export],
    processes: usize,
    text: &[u8],
) -> Result<Vec<ScriptCall>, ScriptFault>
    ensures script { IfOk result (λ calls. IsScript (map signature_of exports.now) processes text.now (map script_call_of calls.items)) }
    ensures fault { IfErr result (λ e. IsScriptFault (map signature_of exports.now) processes text.now e) }
{
    let mut calls = Vec::new(alloc);
    let mut words = Vec::new(alloc);
    for (index, line) in text.split(|byte| *byte == b'\n').enumerate() {
        put_words(&mut words, line)?;
        if let Some(call) = read_line(alloc, exports, processes, index + 1, &words)? {
            calls.push(call)?;
        }
    }
    Ok(calls)
}
