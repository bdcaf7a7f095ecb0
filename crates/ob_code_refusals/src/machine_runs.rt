//! Runs by the steps of a machine.

ghost use Rattle.std.specs.Prelude.{◌≡◌, ◌<◌, All, IfOk};
ghost use Rattle.ob_code_correct.specs.Compiled.{IsFitting};
ghost use Rattle.ob_code_scheme.specs.Layout.{encoded};
ghost use Rattle.ob_object_compile.specs.Sound.{IsSoundObject};
ghost use Rattle.ob_object_compile.specs.View.{object_in};
ghost use Rattle.ob_text_words.specs.Schedule.{process_of};
ghost use Rattle.ob_text_words.specs.ScriptCalls.{object_call, script_call_of};

use crate::again::{play, submit_all};
use crate::machine_records::add_record;
use crate::trouble::Trouble;
use ob_code_engine::CodeEngine;
use ob_layout::encode;
use ob_object_compile::Object;
use ob_text_words::Item;
use ob_text_words::script_call::ScriptCall;
use std::alloc::Global;
use wf_object::Machine;

/// Adds the numbers and the record of a machine to which these calls are submitted and on which these items are played.
pub fn by_steps<R: Eprint + AllocGlobal>(
    rt: &R,
    object: &Object,
    calls: &[ScriptCall],
    items: &[Item],
    text: &mut String,
) -> Result<(), Trouble>
    requires sound { IsSoundObject (object_in object.now) }
    requires some { 0 < (object_in object.now).processes }
    requires callers { All (λ c. c.process < (object_in object.now).processes) calls.now }
    requires fits { All (λ c. IsFitting (object_in object.now).engine.exports (object_call (script_call_of c))) calls.now }
    requires turns { All (λ item. process_of item < (object_in object.now).processes) items.now }
{
    let alloc = rt.alloc();
    let mut machine = opened(alloc, object)?;
    submit_all(rt, alloc, &mut machine, calls)?;
    play(rt, &mut machine, items)?;
    add_record(alloc, object, machine, text)
}

/// A machine of the object, before any call.
fn opened(alloc: Global, object: &Object) -> Result<Machine<CodeEngine>, Trouble>
    requires { IsSoundObject (object_in object.now) }
    ensures code { IfOk result (λ m. m.engine.parts ≡ (object_in object.now).engine) }
    ensures opening { IfOk result (λ m. m.opening ≡ encoded (object_in object.now).opening) }
    ensures processes { IfOk result (λ m. m.sizes.processes ≡ (object_in object.now).processes) }
{
    let engine = object.engine().copy(alloc)?;
    let words = encode(alloc, object.opening())?;
    Ok(Machine::new(alloc, engine, object.processes(), words.as_slice())?)
}
