//! Runs of a module's object over its compiled code, with their records; and the checker of orders: whether a list of calls is a legal order of
//! a history on a module's object, where each call has a budget of turns.
//!
//! Every run is soundly recorded, and its order legal by what the source means (`record_run`, `recorded`). The laws say the rest: the order
//! of each process's own calls, the bound on own steps, and that the checker accepts each record.
#![tactic(auto)]

mod event_places;
mod history_replies;
mod interpreted;
pub mod laws;
pub mod maker;
mod noted;
pub mod order_checker;
pub mod recording;

pub use maker::CallMaker;
pub use order_checker::{OrderFault, check_order, check_order_by};
pub use recording::{record_run, recorded};
