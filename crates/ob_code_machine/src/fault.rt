//! Why there is no code.

use std::alloc::{AllocError, AllocFailed};
use thiserror::Error;

/// Why there is no code.
#[derive(Clone, Copy, Debug, PartialEq, Eq, Error)]
pub enum CodeFault {
    /// G1: over 65,535 instructions.
    #[error("G1")]
    TooLong,
    /// Want of memory.
    #[error("NoMemory")]
    NoMemory,
}

impl From<AllocError> for CodeFault {
    ghost use Rattle.std.specs.Prelude.{◌≡◌};
    ghost use Rattle.ob_code_machine.specs.declared.fault.CodeFault.TheVariants.{NoMemory};

    ghost from_gives = { λ _ e. e ≡ NoMemory };

    fn from(_: AllocError) -> CodeFault {
        CodeFault::NoMemory
    }
}

impl<T: Drop> From<AllocFailed<T>> for CodeFault {
    ghost use Rattle.std.specs.Prelude.{◌≡◌};
    ghost use Rattle.ob_code_machine.specs.declared.fault.CodeFault.TheVariants.{NoMemory};

    ghost from_gives = { λ _ e. e ≡ NoMemory };

    fn from(_: AllocFailed<T>) -> CodeFault {
        CodeFault::NoMemory
    }
}
