//! The rules of the whole language: what a checked program is, which modules are well typed, and which rule a module breaks first.
#![tactic(auto)]

pub mod laws;
pub mod operator;
pub mod rule;
