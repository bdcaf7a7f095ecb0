//! The answers of `order`, of `explain --history`, of `draw` on a history, and of `outcomes` with its forms.
//!
//! One may rely on their clauses, which name what the rooms of ob_object define.
#![tactic(auto)]

pub mod always_explained;
pub mod history_drawing;
pub mod history_explained;
mod listed_replies;
pub mod order_answers;
mod orders;
pub mod outcome_fault;
pub mod outcomes_answers;
pub mod whole_answers;
pub mod whole_outcome_lines;
