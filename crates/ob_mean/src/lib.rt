//! The interpreter of the whole language: expressions, places, statements, calls from outside and the opening, by position; and how many
//! turns of its budget a call takes.
//!
//! One may rely on the clauses of `opening`, `step`, `sequence` and `turns_in_turn`, which name the meaning of ob_meaning.
#![tactic(auto)]

pub mod begun;
pub mod call;
pub mod expressions;
pub mod laws;
pub mod openings;
mod outside;
pub mod outside_call;
pub mod places;
pub mod sequences;
pub mod statements;
pub mod turns;

pub use call::{Call, Reply};
pub use ob_interface::scalar::Scalar;
pub use ob_store::state::State;
pub use ob_store::value::Value;
pub use openings::{OpenFault, opening};
pub use outside_call::interpret;
pub use sequences::{SeqFault, sequence};
