//! Why there is no cell.

use std::alloc::AllocError;
use thiserror::Error;

/// Why there is no cell.
#[derive(Clone, Copy, Debug, PartialEq, Eq, Error)]
pub enum CellFault {
    /// N1: the number of processes is not 1 to 16.
    #[error("N1")]
    Processes,
    /// Want of memory.
    #[error("NoMemory")]
    NoMemory,
}

impl From<AllocError> for CellFault {
    ghost use Rattle.std.specs.Prelude.{◌≡◌};
    ghost use Rattle.ll_cell.specs.declared.fault.CellFault.TheVariants.{NoMemory};

    ghost from_gives = { λ _ e. e ≡ NoMemory };

    fn from(_: AllocError) -> CellFault {
        CellFault::NoMemory
    }
}
