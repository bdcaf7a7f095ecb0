//! Values and stores of the whole language, by position.
#![tactic(auto)]

pub mod before;
pub mod index;
pub mod state;
pub mod store;
pub mod value;
