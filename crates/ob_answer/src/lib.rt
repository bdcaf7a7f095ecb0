//! The program apart from the machine that it runs on: from the words of the command line and what files hold to what is
//! printed.
#![tactic(auto)]

pub mod all_runs;
pub mod answer;
mod command_answers;
mod explaining;
pub mod live_answer;
pub mod printed_forms;
mod schedule_answers;
pub mod text_answers;
