//! What one step of a body answers.

/// What one step of a body answers.
#[derive(Clone, Copy)]
pub enum EngineTurn {
    /// The body goes on.
    On,
    /// The body has ended; its results stand in the run.
    Returned,
    /// The body has ended with the trap of this number.
    Trapped(u8),
    /// Nothing can be done, as never from the start of a fitting call on a lawful block. Nothing changes.
    Stuck,
}
