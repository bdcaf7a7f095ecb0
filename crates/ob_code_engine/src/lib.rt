//! The engine over compiled code: calls on a checked module's object, each with a budget of turns, an instruction a step; with the bound on
//! what a call takes of its process.
//!
//! One may rely on the clauses of `CodeEngine` and on the laws: it meets the law of engines by what calls mean in the source.
#![tactic(auto)]

pub mod bound_laws;
pub mod call_words;
pub mod coded;
pub mod engine;
pub mod engine_laws;
pub mod entrance;
mod step_answer;

pub use engine::CodeEngine;
pub use entrance::Entrance;
