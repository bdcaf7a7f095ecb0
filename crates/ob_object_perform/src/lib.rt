//! Runs of a module's object from texts, over its code or over its tree: their records, what is printed of them, pictures, how many own steps
//! each call took and may take at most, and the state of the machine behind a run.
//!
//! Each record shows a run of the object that is asked for, and its order is legal by what the calls mean by name. Where a module has code,
//! the text of a run over its tree is that of the run over code, byte for byte. One may rely on these clauses and on the laws.
#![tactic(auto)]

pub mod bound_laws;
pub mod bounding;
pub mod drawing;
pub mod object_numbers;
pub mod perform_laws;
pub mod perform_printing;
pub mod perform_running;
pub mod performing;
pub mod run_texts;
mod spent_lines;
pub mod spent_printing;
mod spent_running;
pub mod stating;
pub mod tree_laws;
pub mod tree_performing;
pub mod tree_printing;
mod tree_recording;
mod tree_running;

pub use bounding::bound_text;
pub use drawing::{DrawFault, draw_text};
pub use object_numbers::{Numbers, numbers_of};
pub use perform_printing::run_text;
pub use performing::{PerformFault, perform, perform_from, performed};
pub use run_texts::Texts;
pub use spent_printing::run_text_with_steps;
pub use stating::state_text;
pub use tree_performing::perform_tree;
pub use tree_printing::run_tree_text;
