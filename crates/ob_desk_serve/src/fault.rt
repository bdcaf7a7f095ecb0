//! Why workers give no record.

use ob_desk_floor::CloseFault;
use ob_interface::NoMemory;
use std::alloc::AllocError;
use thiserror::Error;

/// Why workers give no record. All are joined first. Of several faults V3 is told, else want of memory, else V1, each of the
/// lowest process. The faults of closing come where all workers ended well, and V2 where closing has none. Want of memory is
/// told by its own variant alone.
#[derive(Clone, Copy, Debug, Error)]
pub enum ServeFault {
    /// V3: the process's worker was not started.
    #[error("V3 process {0}")]
    NotStarted(usize),
    /// Want of memory.
    #[error("NoMemory")]
    NoMemory,
    /// V1: the gate refused the process as often in a row as the limit says.
    #[error("V1 process {0}")]
    Refused(usize),
    /// V2: an answer to the process was lost, or came twice, or another one came.
    #[error("V2 process {0}")]
    Lost(usize),
    /// A fault of the desk's closing.
    #[error("{0}")]
    Close(CloseFault),
}

impl From<CloseFault> for ServeFault {
    ghost use Rattle.std.specs.Prelude.{◌≡◌};
    ghost use Rattle.ob_desk_serve.specs.declared.fault.ServeFault.TheVariants as Faults;

    ghost from_gives = { λ e fault. fault ≡ Faults.Close e };

    fn from(fault: CloseFault) -> ServeFault {
        ServeFault::Close(fault)
    }
}

impl From<NoMemory> for ServeFault {
    ghost use Rattle.std.specs.Prelude.{◌≡◌};
    ghost use Rattle.ob_desk_serve.specs.declared.fault.ServeFault.TheVariants as Faults;

    ghost from_gives = { λ _ fault. fault ≡ Faults.NoMemory };

    fn from(_: NoMemory) -> ServeFault {
        ServeFault::NoMemory
    }
}

impl From<AllocError> for ServeFault {
    ghost use Rattle.std.specs.Prelude.{◌≡◌};
    ghost use Rattle.ob_desk_serve.specs.declared.fault.ServeFault.TheVariants as Faults;

    ghost from_gives = { λ _ fault. fault ≡ Faults.NoMemory };

    fn from(_: AllocError) -> ServeFault {
        ServeFault::NoMemory
    }
}
