//! What each process calls.

ghost use Rattle.std.specs.Prelude.{◌≡◌, IfOk, map};
ghost use Rattle.ob_object_outcomes.specs.Scripts.{calls_by, scripts_by};
ghost use Rattle.ob_text_words.specs.ScriptCalls.{object_call, script_call_of};
ghost use Rattle.wf_history.specs.View.{kept_call};
ghost use Rattle.wf_outcomes.specs.Explored.{calls_in};

use ob_interface::NoMemory;
use ob_text_words::script_call::ScriptCall;
use std::alloc::Global;
use wf_history::{KeptCall, KeptScalars};

/// What a script's call asks of the object.
fn kept(alloc: Global, call: &ScriptCall) -> Result<KeptCall, NoMemory>
    ensures { IfOk result (λ k. kept_call k ≡ object_call (script_call_of call.now)) }
{
    Ok(KeptCall {
        proc: call.proc,
        args: KeptScalars::from_slice(alloc, call.args.as_slice())?,
    })
}

/// The calls of one process, in the order of the script.
fn own_calls(alloc: Global, calls: &[ScriptCall], process: usize) -> Result<Vec<KeptCall>, NoMemory>
    ensures { IfOk result (λ own. map kept_call own.items ≡ calls_by process (map script_call_of calls.now)) }
{
    let mut own = Vec::new(alloc);
    for call in calls {
        if call.process == process {
            own.push(kept(alloc, call)?)?;
        }
    }
    Ok(own)
}

/// The calls of each process, in the order of the script.
pub(crate) fn scripts_of(
    alloc: Global,
    calls: &[ScriptCall],
    processes: usize,
) -> Result<Vec<Vec<KeptCall>>, NoMemory>
    ensures { IfOk result (λ scripts. calls_in scripts.items ≡ scripts_by processes (map script_call_of calls.now)) }
{
    let mut scripts = Vec::new(alloc);
    for process in 0..processes {
        scripts.push(own_calls(alloc, calls, process)?)?;
    }
    Ok(scripts)
}
