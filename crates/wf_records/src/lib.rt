//! What is kept of the steps of a machine: what was seen, in which order calls were applied, who stepped, what a process spends,
//! and the calls submitted to it.
//!
//! One may rely on the clauses of the public functions; wf_object alone makes such records.
#![tactic(auto)]

pub mod records;
pub mod spent;
pub mod submitted_calls;

pub use records::{Records, Seen, StepOut};
pub use submitted_calls::CallList;
