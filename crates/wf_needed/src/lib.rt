//! Of a legal order of a history, one without the open calls that nothing needs.
//!
//! One may rely on the clause of `needed_order`, which is in the words of `specs/Needed.antt`. Which open calls are left out, where not all can be,
//! may change without asking.
#![tactic(auto)]

mod listed_calls;
pub mod needed;
mod replay;

pub use needed::needed_order;
