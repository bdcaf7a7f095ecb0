//! What a process has spent.

/// What a process has spent on its open call, or on its last one where none is open.
#[derive(Clone, Copy)]
pub struct Spent {
    /// Bodies begun, of any process's call.
    pub bodies: u128,
    /// Own steps in them.
    pub inside: u128,
    /// Own steps outside them.
    pub outside: u128,
}
