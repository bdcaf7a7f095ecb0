//! Code that has room for more.

ghost use Rattle.std.specs.Prelude.{◌≡◌, ◌<◌, [], ◌∷◌, ◌++◌, OnOk, length};
ghost use Rattle.ob_code.specs.Entering.{with_entry};
ghost use Rattle.ob_code.specs.Growing.{grown};

use ob_code_machine::{Code, CodeFault, Instr};
use std::alloc::AllocError;

/// Adds an instruction at the end, where there is room for it.
pub fn push(code: &mut Code, instr: Instr) -> Result<(), AllocError>
    requires { length code.old.instructions < 65535 }
    ensures { OnOk result (code.new ≡ grown code.old (instr ∷ [])) }
{
    match code.push(instr) {
        Ok(()) => Ok(()),
        Err(CodeFault::NoMemory) => Err(AllocError),
        Err(CodeFault::TooLong) => unreachable!(),
    }
}

/// The next procedure begins at the end.
pub fn begin_procedure(code: &mut Code) -> Result<(), AllocError>
    ensures { OnOk result (code.new ≡ with_entry code.old) }
{
    match code.begin_procedure() {
        Ok(()) => Ok(()),
        Err(CodeFault::NoMemory) => Err(AllocError),
        Err(CodeFault::TooLong) => unreachable!(),
    }
}
