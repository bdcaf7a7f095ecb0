//! Calls on an object, and their replies.

use crate::scalar::Scalar;
use smallvec::SmallVec;

/// A call on the object: the number of an export, and the value arguments in text order.
#[derive(Drop)]
pub struct Call {
    pub proc: usize,
    pub args: SmallVec<Scalar, 8>,
}

/// What a call answers.
#[derive(Drop)]
pub enum Reply {
    /// The final values of the VAR parameters, in text order.
    Done(SmallVec<Scalar, 8>),
    /// The number of a trap.
    Trap(u8),
}
