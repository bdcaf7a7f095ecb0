//! Events to be looked at.

use crate::event::CallId;
use crate::kept_scalars::KeptScalars;

/// What an event says.
#[derive(Clone, Copy)]
pub enum SeenEvent<'a> {
    /// A process begins a call.
    Begin(CallId, SeenCall<'a>),
    /// These calls took effect, in this order.
    Applied(&'a [CallId]),
    /// A call ends with its reply.
    End(CallId, SeenReply<'a>),
}

/// A call of an event.
#[derive(Clone, Copy)]
pub struct SeenCall<'a> {
    pub proc: usize,
    pub args: &'a KeptScalars,
}

/// A reply of an event.
#[derive(Clone, Copy)]
pub enum SeenReply<'a> {
    /// The final values of the VAR parameters, in text order.
    Done(&'a KeptScalars),
    /// The number of a trap.
    Trap(u8),
}
