//! Any lawful sequential engine as an object that n processes share, one atomic step at a time.
#![tactic(auto)]

mod blocks;
mod bodies;
pub mod engine;
pub mod machine;
pub mod process;
mod quiet_steps;
mod shown_steps;
mod start;
mod steps;

pub use engine::Engine;
pub use ll_cell::CellFault;
pub use machine::Machine;
pub use process::Process;
pub use wf_records::{Seen, StepOut};
pub use wf_table::{EngineTurn, Label, Spent, Turns};
