//! What ties merges to runs: the legal orders of a run in which all calls end are merges of all calls and give whole outcomes, each merge is
//! a legal order of a run, and the step machine can be made to show it, whatever the engine.
//!
//! One may rely on the clauses of `legal_orders_are_merges`, `merges_are_legal_orders`, `runs_give_wholes`, `wholes_are_of_runs` and
//! `merges_are_shown`.
#![tactic(auto)]

pub mod merges_laws;
pub mod shown_laws;
pub mod whole_laws;

pub use merges_laws::{legal_orders_are_merges, merges_are_legal_orders};
pub use shown_laws::merges_are_shown;
pub use whole_laws::{runs_give_wholes, wholes_are_of_runs};
