//! Why there is no picture.

use std::alloc::{AllocError, AllocFailed};
use thiserror::Error;

/// Why there is no picture of some calls of a run.
#[derive(Clone, Copy, Debug, PartialEq, Eq, Error)]
pub enum PictureFault {
    /// I1: there are no calls of the range; so many calls begin in the run.
    #[error("I1: of {0} calls there are none of this range")]
    NoCalls(usize),
    /// I2: these would be more calls than a picture has.
    #[error("I2: {0} calls")]
    TooMany(usize),
    /// Want of memory.
    #[error("NoMemory")]
    NoMemory,
}

impl From<AllocError> for PictureFault {
    ghost use Rattle.std.specs.Prelude.{◌≡◌};
    ghost use Rattle.ob_picture_chart.specs.declared.fault.PictureFault.TheVariants as Faults;

    ghost from_gives = { λ _ e. e ≡ Faults.NoMemory };

    fn from(_: AllocError) -> PictureFault {
        PictureFault::NoMemory
    }
}
