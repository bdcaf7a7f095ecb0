//! The words of texts: numbers, names and scalars, what words say of an object's exports, the calls that scripts say, replies and schedules.
//!
//! One may rely on the clauses of the public functions, which are in the words of `specs/`.
#![tactic(auto)]

pub mod export_names;
pub mod item;
pub mod label;
pub mod laws;
pub mod numbers;
pub mod parameter_words;
pub mod reply_lines;
pub mod scalar_words;
pub mod schedule_texts;
pub mod script_call;
pub mod words;

pub use item::Item;
pub use schedule_texts::{ScheduleFault, read_schedule};
