//! Why a desk gives no machine.

use thiserror::Error;

/// Why closing a desk gives no machine: the first fault, in the order of the variants, of the lowest process.
#[derive(Clone, Copy, Debug, Error)]
pub enum CloseFault {
    /// K1: a seat has another tag, or is of no process of the desk.
    #[error("K1 process {0}")]
    Stranger(usize),
    /// K2: a process has no seat, or more than one.
    #[error("K2 process {0}")]
    Uneven(usize),
    /// K5: what the floor under the lock began with is not what the desk keeps beside it.
    #[error("K5")]
    OtherFloor,
    /// K3: the process's seat took other turns, or has other answers, than the floor shows.
    #[error("K3 process {0}")]
    Disagrees(usize),
}
