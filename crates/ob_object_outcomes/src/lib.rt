//! All outcomes of the calls of scripts on a module's object, from the bytes of a module and of a script, over all merges: the replies that
//! each call may have, the states in which all may end, all replies and the last state together; as lines, and as the story of one.
//!
//! One may rely on the clauses of `outcomes_text`, `wholes_text`, `outcome_lines` and `story`. Which of several orders is told, and the words
//! behind a story, may change without asking.
#![tactic(auto)]

pub mod finding;
pub mod laws;
pub mod line_kinds;
pub mod outcome_text;
mod question;
pub mod scripted;
mod scripts;
pub mod stories;
mod story_end;
pub mod wholes;

pub use finding::{
    Bounds, LastState, ModuleOutcomes, OutcomesFault, must_hold, outcomes_text, question_asked,
};
pub use line_kinds::{push_ids, push_order};
pub use outcome_text::outcome_lines;
pub use scripted::{Scripted, scripted_text};
pub use stories::story;
pub use wholes::{WholeOutcomes, wholes_text};
