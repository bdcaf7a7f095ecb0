//! What an object takes and gives, in no language: scalars, calls and replies, what its exports take, and want of memory.
#![tactic(auto)]

pub mod call;
pub mod export;
pub mod no_memory;
pub mod processes;
pub mod scalar;

pub use no_memory::NoMemory;
pub use processes::MOST_PROCESSES;
