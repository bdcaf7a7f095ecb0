//! Exports whose reply depends on the state alone, and on no argument, as of `Swap`, which answers what stood there.
//!
//! One may rely on the clauses of `state_replies` and `is_told`.
#![tactic(auto)]

mod answers_and_notes;
pub mod told_exports;

pub use told_exports::{is_told, state_replies};
