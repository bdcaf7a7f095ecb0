//! The code of a module whose variables are all scalars.

ghost use Rattle.std.specs.Prelude.{IfOk};
ghost use Rattle.ob_checked.specs.CheckedModule.{program_in};
ghost use Rattle.ob_object_search.specs.Code.{IsCodeOf};

use ob_checked::checked::Checked;
use ob_code::generation::generate;
use ob_code_calls::scalars::are_scalars;
use ob_code_calls::{CodeCalls, ScalarCalls};
use ob_code_correct::well_formed_laws::checked_is_well_formed;
use ob_code_machine::CodeFault;
use ob_interface::NoMemory;
use ob_layout::Layout;
use std::alloc::Global;

/// The most turns that code can give a call.
const MOST_TURNS: u64 = 1_000_000;

/// The code of a module, each call with so many turns. There is none where a variable is no scalar, where there are too many instructions,
/// or too many turns.
pub(crate) fn module_code(
    alloc: Global,
    checked: &Checked,
    budget: u64,
) -> Result<Option<ScalarCalls>, NoMemory>
    ensures { IfOk result (λ code. ∥ IsCodeOf (program_in checked.now) budget code ∥₁) }
{
    if budget > MOST_TURNS || !are_scalars(checked.program().variables.as_slice()) {
        return Ok(None);
    }
    checked_is_well_formed(checked);
    let layout = Layout::of(alloc, checked)?;
    let code = match generate(alloc, checked, &layout) {
        Ok(code) => code,
        Err(CodeFault::TooLong) => return Ok(None),
        Err(CodeFault::NoMemory) => return Err(NoMemory),
    };
    let calls = CodeCalls::new(alloc, checked, &layout, code, budget)?;
    Ok(Some(ScalarCalls::new(alloc, calls, layout.variable_words())))
}
