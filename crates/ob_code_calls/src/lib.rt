//! Calls by compiled code, made one at a time on one block of words. No process shares the block, so each is run to its end at once.
//!
//! One may rely on the clauses of `CodeCalls` (`specs/Calls.antt`), `CodedState` (`specs/Standing.antt`) and `ScalarCalls` (`specs/Scalars.antt`):
//! what a call makes of a block, and what it answers, is what it comes to in the source. What is kept between calls may change without asking.
#![tactic(auto)]

pub mod block_calls;
mod fitting_arguments;
mod noted_calls;
pub mod room;
mod running;
pub mod scalar_calls;
pub mod scalars;
pub mod standing_state;
mod wanted_values;

pub use block_calls::CodeCalls;
pub use room::Room;
pub use scalar_calls::{Led, Request, ScalarCalls};
pub use standing_state::CodedState;
