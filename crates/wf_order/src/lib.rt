//! A search for a legal order of a history, depth first over configurations: how many calls of each process are taken, and the state that
//! they lead to. None is gone over twice. A call that only reads is passed over, one that leaves the state as it is comes first and alone, of
//! equal calls only one is tried, and an open call not where all that may come behind it comes without it too. And from a configuration that another one
//! stands for, which was found before, the search doesn't go on.
//!
//! One may rely on the clauses of `find_order` (`specs/Verdict.antt`). In which order steps are tried may change without asking. An order that is found is cut down to the open calls that it needs by wf_needed.
#![tactic(auto)]

mod attempt;
mod behind;
pub mod find;
mod front;
mod hints;
pub mod kept_rows;
mod made_calls;
mod next_call;
mod passing;
pub mod rows;
mod search;
pub mod searched_object;
mod seen;
mod sooner;
mod standing;
mod step;
mod without;

pub use find::{Verdict, find_order};
pub use searched_object::Object;
