//! Small engines, with which the step machine is tested and measured.
#![tactic(auto)]

pub mod adder;
pub mod scalar_words;
pub mod spin;

pub use adder::Adder;
pub use spin::Spin;
