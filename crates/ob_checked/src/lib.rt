//! The checked program of a module: its types in a table, each name resolved to its position, each expression with its type. What
//! operators take and give stands here too, for constants and for expressions that run.
//!
//! One may rely on the types and on the clauses of `computed` and `compared`.
#![tactic(auto)]

pub mod checked;
pub mod fields;
pub mod operators;
pub mod program;
pub mod trap;
pub mod types;
pub mod written_operators;
