//! Calls made one at a time on an object, by its code.

ghost use Rattle.std.specs.Prelude.{◌≡◌, All, IfOk, map};
ghost use Rattle.ob_code_correct.specs.Compiled.{Fits};
ghost use Rattle.ob_interface.specs.View.{reply_of};
ghost use Rattle.ob_mean.specs.Sequences.{replies_to};
ghost use Rattle.ob_object_compile.specs.Sound.{IsSoundObject};
ghost use Rattle.ob_object_compile.specs.View.{object_in};
ghost use Rattle.ob_text_words.specs.ScriptCalls.{object_call, script_call_of};

use crate::coded_calls::coded;
use ob_interface::NoMemory;
use ob_interface::call::Reply;
use ob_object_compile::Object;
use ob_text_words::script_call::ScriptCall;
use std::alloc::Global;

/// The replies to a script's calls, made one at a time from the state with which the object begins, each with its budget.
pub(crate) fn replies_on(
    alloc: Global,
    object: &Object,
    calls: &[ScriptCall],
) -> Result<Vec<Reply>, NoMemory>
    requires sound { IsSoundObject (object_in object.now) }
    requires fit { All (λ c. Fits (object_in object.now).program (object_call (script_call_of c))) calls.now }
    ensures { IfOk result (λ rs. map reply_of rs.items
        ≡ replies_to (object_in object.now).program (object_in object.now).engine.budget (object_in object.now).opening
        (map (λ c. object_call (script_call_of c)) calls.now)) }
{
    let mut coded = coded(alloc, object)?;
    let mut replies = Vec::with_capacity(alloc, calls.len())?;
    for call in calls {
        let asked = call.asked(alloc)?;
        replies.push(coded.call(&asked))?;
    }
    Ok(replies)
}
