//! All outcomes of the merges of the calls of several processes on an object: `explore` lists every configuration that they reach, and
//! `all_told` tells each reply that each call may have and each state in which all may end, with an order that leads to it.
//!
//! One may rely on their clauses, which are in the words of `specs/Merges.antt`, `specs/Outcomes.antt` and `specs/Told.antt`. The order of
//! configurations that as many calls lead to, and which of several orders is told, may change without asking.
#![tactic(auto)]

pub mod all_replies;
pub mod call_replies;
pub mod counterexample;
pub mod end_states;
pub mod explored;
pub mod exploring;
pub mod finals;
mod meetings;
pub mod onward;
pub mod outcomes;
pub mod paths;
pub mod remembered_calls;
pub mod reply_orders;
pub mod seen;
mod step;
pub mod whole;

pub use all_replies::ToldCall;
pub use call_replies::Possible;
pub use counterexample::{Bad, Question};
pub use end_states::ToldEnd;
pub use explored::Explored;
pub use exploring::{ExploreFault, explore};
pub use onward::Onward;
pub use outcomes::{Outcomes, all_told};
pub use reply_orders::ToldReply;
pub use whole::completes;
