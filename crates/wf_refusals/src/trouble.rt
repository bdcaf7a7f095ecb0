//! Why there is nothing to print.

use std::alloc::AllocError;
use thiserror::Error;

/// Why there is nothing to print.
#[derive(Clone, Copy, Debug, PartialEq, Eq, Error)]
pub enum Trouble {
    #[error("the run's own want of memory")]
    Own,
    #[error("a call that was refused memory changed the machine")]
    Changed,
    #[error("a call was refused memory twice")]
    Again,
    #[error("not all calls were answered")]
    Endless,
}

impl From<AllocError> for Trouble {
    fn from(_: AllocError) -> Trouble {
        Trouble::Own
    }
}
