//! Why a text is refused.

use std::alloc::{AllocError, AllocFailed};
use thiserror::Error;

/// Why a text has no tokens. A place is a byte offset from 0: that of the first byte at fault.
#[derive(Clone, Copy, Debug, Error)]
pub enum ScanFault {
    /// S1: a byte that begins no token.
    #[error("S1 at {0}")]
    StrayByte(usize),
    /// S2: a number over 2147483647.
    #[error("S2 at {0}")]
    NumberTooLarge(usize),
    /// S3: a comment that is open at the end; the place of the outermost `(*`.
    #[error("S3 at {0}")]
    OpenComment(usize),
    /// S4: a name over 64 bytes.
    #[error("S4 at {0}")]
    NameTooLong(usize),
    /// S5: the text has over 65,536 bytes.
    #[error("S5 at 65536")]
    TooLong,
    /// Want of memory.
    #[error("NoMemory")]
    NoMemory,
}

impl From<AllocError> for ScanFault {
    ghost use Rattle.std.specs.Prelude.{◌≡◌};
    ghost use Rattle.ob_scan.specs.declared.fault.ScanFault.TheVariants.{NoMemory};

    ghost from_gives = { λ _ e. e ≡ NoMemory };

    fn from(_: AllocError) -> ScanFault {
        ScanFault::NoMemory
    }
}

impl<T: Drop> From<AllocFailed<T>> for ScanFault {
    ghost use Rattle.std.specs.Prelude.{◌≡◌};
    ghost use Rattle.ob_scan.specs.declared.fault.ScanFault.TheVariants.{NoMemory};

    ghost from_gives = { λ _ e. e ≡ NoMemory };

    fn from(_: AllocFailed<T>) -> ScanFault {
        ScanFault::NoMemory
    }
}
