//! The lines that the program prints of faults and of orders, and the counts of calls by their replies.
//!
//! One may rely on the clauses of the public functions: which lines they are is defined in `specs/`.
#![tactic(auto)]

pub mod call_counts;
pub mod compile_faults;
pub mod count_lines;
pub mod draw_faults;
pub mod history_faults;
pub mod module_faults;
pub mod parts_faults;
pub mod recording_faults;
pub mod run_faults;
pub mod script_faults;
pub mod search_faults;
pub mod sequential_faults;
pub mod serve_faults;
pub mod values_faults;
pub mod verify_faults;
