//! Scopes and what names mean in them, the parts of types, sameness of types, and values of constants.
#![tactic(auto)]

pub mod constants;
pub mod fault;
pub mod meant;
pub mod same_types;
pub mod scopes;
pub mod taken;
pub mod type_parts;
