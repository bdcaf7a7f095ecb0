//! The calls of an object, made by its code.

ghost use Rattle.std.specs.Prelude.{IfOk};
ghost use Rattle.ob_code_calls.specs.Standing.{StandsAt};
ghost use Rattle.ob_object_compile.specs.Sound.{IsSoundObject};
ghost use Rattle.ob_object_compile.specs.View.{object_in};

use ob_code_calls::{CodeCalls, CodedState};
use ob_interface::NoMemory;
use ob_object_compile::Object;
use std::alloc::Global;

/// An object's calls by its code, from the state with which it begins.
pub(crate) fn coded(alloc: Global, object: &Object) -> Result<CodedState, NoMemory>
    requires { IsSoundObject (object_in object.now) }
    ensures { IfOk result (StandsAt (object_in object.now).program (object_in object.now).engine.budget (object_in object.now).opening) }
{
    let engine = object.engine();
    let code = engine.code().copy(alloc)?;
    let calls = CodeCalls::new(
        alloc,
        object.checked(),
        object.layout(),
        code,
        engine.budget(),
    )?;
    CodedState::begin(alloc, calls, object.opening())
}
