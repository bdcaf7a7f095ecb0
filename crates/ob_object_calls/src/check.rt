//! Whether a text has an object.

ghost use Rattle.std.specs.Prelude.{◌≡◌, Err, IfErr, OnOk};
ghost use Rattle.ob_object_compile.specs.Asked.{TellsAtOnce, by_body};
ghost use Rattle.ob_object_compile.specs.Compilation.{IsRefusal, IsShort, default_budget};
ghost use Rattle.ob_object_calls.specs.SequentialRun.{HasObject};

use ob_object_compile::{CompileFault, DEFAULT_BUDGET, compile};
use std::alloc::Global;

/// Whether a text is of a module that has an object, if of one process alone.
pub fn check_text(alloc: Global, text: &[u8]) -> Result<(), CompileFault>
    ensures object { OnOk result (HasObject (by_body text.now 1 default_budget)) }
    ensures refused { IfErr result (IsRefusal IsShort (by_body text.now 1 default_budget)) }
    ensures at_once { TellsAtOnce (by_body text.now 1 default_budget) (λ e. result ≡ Err e) }
{
    compile(alloc, text, 1, DEFAULT_BUDGET)?;
    Ok(())
}
