//! Calls on a module's object, and their replies.

use ob_interface::scalar::Scalar;

/// A call on the object: the number of an export, and the value arguments in text order.
#[derive(Drop)]
pub struct Call {
    pub export: usize,
    pub arguments: Vec<Scalar>,
}

/// What a call answers.
#[derive(Drop)]
pub enum Reply {
    /// The final values of the VAR parameters, in text order.
    Answers(Vec<Scalar>),
    /// The number of a trap.
    Trapped(u8),
}
