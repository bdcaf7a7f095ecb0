//! Devices, which may fail: all that one gives is read, and a text is written to one. Whoever calls is told of each failure, and of
//! nothing that is none.
#![tactic(auto)]

pub mod byte_source;
pub mod counted;
pub mod fault;
pub mod sink;
#[cfg(test)]
mod tests;

pub use byte_source::{Source, slurp};
pub use counted::Counted;
pub use fault::{Failed, IoFault};
pub use sink::{Sink, emit};
