//! What ties the families together, as functions that do nothing: printed records can be read back and are verified, and what `outcomes`
//! tells, the step machine over compiled code shows.
#![tactic(auto)]

pub mod code_laws;
pub mod printed_laws;
pub mod read_back_laws;
pub mod search_laws;
pub mod served_limit;
pub mod shown_laws;

pub use code_laws::code_shows_merges;
pub use shown_laws::outcomes_are_shown;
