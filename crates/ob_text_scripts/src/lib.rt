//! Scripts, the calls that a run makes; and schedules that are made for them: by chance from a seed, and gone on with until each call has ended.
//!
//! One may rely on the clauses of the public functions. Which generator stands behind a seed may not change: runs are told by their seeds.
#![tactic(auto)]

pub mod chance;
pub mod finish;
pub mod script;

pub use script::{ScriptFault, Scripts, read_scripts};
