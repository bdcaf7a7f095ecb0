//! A script's calls as the interpreter takes them.

ghost use Rattle.std.specs.Prelude.{◌≡◌, IfOk, map};
ghost use Rattle.ob_mean.specs.View.{call_of};
ghost use Rattle.ob_text_words.specs.ScriptCalls.{object_call, script_call_of};

use ob_mean::call::Call;
use ob_text_words::script_call::ScriptCall;
use std::alloc::{AllocError, Global};

/// The processes that make a script's calls.
pub fn callers(alloc: Global, calls: &[ScriptCall]) -> Result<Vec<usize>, AllocError>
    ensures { IfOk result (λ made. made.items ≡ map (λ c. c.process) calls.now) }
{
    calls.iter().map(|call| call.process).collect(alloc)
}

/// What a script's calls ask of the object.
pub fn object_calls(alloc: Global, calls: &[ScriptCall]) -> Result<Vec<Call>, AllocError>
    ensures { IfOk result (λ made. map call_of made.items ≡ map (λ c. object_call (script_call_of c)) calls.now) }
{
    let mut made = Vec::with_capacity(alloc, calls.len())?;
    for call in calls {
        made.push(call_asked(alloc, call)?)?;
    }
    Ok(made)
}

/// What a script's call asks of the object.
fn call_asked(alloc: Global, call: &ScriptCall) -> Result<Call, AllocError>
    ensures { IfOk result (λ made. call_of made ≡ object_call (script_call_of call.now)) }
{
    Ok(Call {
        export: call.proc,
        arguments: Vec::from_slice(alloc, call.args.as_slice())?,
    })
}
