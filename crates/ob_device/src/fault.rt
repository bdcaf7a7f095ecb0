//! What goes wrong with devices.

ghost use Rattle.std.specs.Prelude.{◌≡◌};
ghost use Rattle.ob_device.specs.declared.fault.IoFault.TheVariants.{Device, NoMemory};

use std::alloc::AllocError;
use thiserror::Error;

/// One read or one write failed.
#[derive(Clone, Copy, Debug, PartialEq, Eq)]
pub struct Failed;

/// Why not all was read or written.
#[derive(Clone, Copy, Debug, PartialEq, Eq, Error)]
pub enum IoFault {
    /// The device failed.
    #[error("the device failed")]
    Device,
    /// Want of memory.
    #[error("NoMemory")]
    NoMemory,
}

impl From<Failed> for IoFault {
    ghost from_gives = { λ _ fault. fault ≡ Device };

    fn from(_: Failed) -> IoFault {
        IoFault::Device
    }
}

impl From<AllocError> for IoFault {
    ghost from_gives = { λ _ fault. fault ≡ NoMemory };

    fn from(_: AllocError) -> IoFault {
        IoFault::NoMemory
    }
}
