//! The listing of a module's code, from bytes to bytes.

ghost use Rattle.std.specs.Prelude.{◌≡◌, Err, IfOk, IfErr, map, string_bytes};
ghost use Rattle.ob_object_compile.specs.Asked.{TellsAtOnce, by_body};
ghost use Rattle.ob_object_compile.specs.Compilation.{IsRefusal, IsShort, default_budget};
ghost use Rattle.ob_object_compile.specs.Listed.{IsListing};

use crate::code_text::list;
use crate::compiling::{CompileFault, DEFAULT_BUDGET, compile};
use ob_checked::program::Procedure;
use ob_interface::NoMemory;
use std::alloc::Global;

/// The listing of the code of a text's module, which has to be an object's, if of one process alone.
pub fn list_text(alloc: Global, text: &[u8]) -> Result<String, CompileFault>
    ensures listing { IfOk result (λ lines. IsListing text.now (string_bytes lines)) }
    ensures refused { IfErr result (IsRefusal IsShort (by_body text.now 1 default_budget)) }
    ensures at_once { TellsAtOnce (by_body text.now 1 default_budget) (λ e. result ≡ Err e) }
{
    let object = compile(alloc, text, 1, DEFAULT_BUDGET)?;
    let names = names_of(alloc, object.checked().program().procedures.as_slice())?;
    Ok(list(alloc, object.engine().code(), names.as_slice())?)
}

/// The names of procedures, in their order.
fn names_of(alloc: Global, procedures: &[Procedure]) -> Result<Vec<String>, NoMemory>
    ensures { IfOk result (λ names. map string_bytes names.items ≡ map (λ p. string_bytes p.name) procedures.now) }
{
    let mut names = Vec::new(alloc);
    for procedure in procedures {
        names.push(String::from_str(alloc, procedure.name.as_str())?)?;
    }
    Ok(names)
}
