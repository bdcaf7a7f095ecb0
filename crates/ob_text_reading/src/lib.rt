//! Records and histories read: what the text of a run tells, and what a text tells that anybody may have recorded, of whatever implementation.
//!
//! One may rely on the clauses of the public functions, which are in the words of `specs/`: what is read, and each fault of form with its place.
#![tactic(auto)]

mod event;
pub mod head;
pub mod history_reading;
pub mod laws;
pub mod line;
mod line_reader;
mod named_processes;
pub mod opening_values;
pub mod process_calls;
pub mod record_reading;
mod written_lines;

pub use history_reading::{ReadHistory, read_history};
pub use record_reading::{ReadRecord, RecordFault, read_record};
