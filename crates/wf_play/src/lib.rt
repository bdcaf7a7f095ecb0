//! The calls of scripts and the items of a schedule, played on a machine; and what each call that ends took of its process.
//!
//! One may rely on the clauses of `play` and of what it is made with, which are in the words of `specs/`.
#![tactic(auto)]

pub mod ended;
pub mod event_makers;
pub mod laws;
mod played_item;
pub mod playing;

pub use ended::{EndedCall, ended_calls};
pub use event_makers::makers;
pub use playing::{PlayFault, play};
