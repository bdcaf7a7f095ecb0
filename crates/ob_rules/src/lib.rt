//! The rules of names, expressions and statements: from their trees to parts of the checked program.
#![tactic(auto)]

pub mod declarations;
pub mod expressions;
pub mod parameters;
pub mod statements;
pub mod targets;
pub mod type_expressions;
