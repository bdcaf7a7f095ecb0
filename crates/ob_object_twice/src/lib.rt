//! Two runs of a module's object, one after the other: the second object begins with the state that the first run left.
//!
//! The second record's replies are those of the meaning, at their places in the first order followed by the second, from the state with
//! which the first object begins.
#![tactic(auto)]

#[cfg(test)]
mod trials;
pub mod twice;

pub use twice::{Turn, perform_twice};
