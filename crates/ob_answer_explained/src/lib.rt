//! Commands on calls and on runs with the texts of their files, and the answers of `explain`: faults as people read them.
#![tactic(auto)]

pub mod asked_texts;
pub mod explaining;
pub mod explaining_runs;
pub mod explaining_traps;
pub mod record_opening;
pub mod shown_faults;
