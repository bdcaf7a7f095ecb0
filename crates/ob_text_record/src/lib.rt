//! What a run of a module's object showed, as text: records of runs, the values of variables, and states of the machine, which stand at a
//! glance: each process with its label, the announcements, the root, and the blocks by their owners.
//!
//! One may rely on the clauses of `write_record`, `push_state`, `push_opening` and `write_state`. What is printed is a function of what is given alone.
#![tactic(auto)]

mod block_lines;
mod events;
pub mod laws;
mod named_words;
pub mod printed_values;
mod process_lines;
pub mod record;
mod schedule_line;
pub mod state_lines;
mod uses;
pub mod variables;
pub mod writing;

pub use events::{export_name, push_id, push_scalars};
pub use record::{Record, carried_copy, carried_state};
pub use state_lines::write_state;
pub use writing::write_record;
