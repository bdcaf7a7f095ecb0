//! The calls that scripts say.

ghost use Rattle.std.specs.Prelude.{◌≡◌, IfOk};
ghost use Rattle.ob_interface.specs.View.{call_of};
ghost use Rattle.ob_text_words.specs.ScriptCalls.{object_call, script_call_of};

use ob_interface::call::Call;
use ob_interface::scalar::Scalar;
use smallvec::SmallVec;
use std::alloc::{AllocError, Global};

/// A call by a process, whose number counts from 0: the number of the export, and the value arguments in text order. It takes
/// memory of its own only where it has more than 2 arguments, since all calls of a script are held at once.
#[derive(Drop)]
pub struct ScriptCall {
    pub process: usize,
    pub proc: usize,
    pub args: SmallVec<Scalar, 2>,
}

impl ScriptCall {
    /// What the call asks of the object.
    #[inline]
    pub fn asked(&self, alloc: Global) -> Result<Call, AllocError>
        ensures { IfOk result (λ call. call_of call ≡ object_call (script_call_of self.now)) }
    {
        Ok(Call {
            proc: self.proc,
            args: SmallVec::from_slice(alloc, &self.args)?,
        })
    }
}
