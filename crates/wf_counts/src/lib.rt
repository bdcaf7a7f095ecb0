//! How many calls of each process are made, as one number where they are few.
//!
//! One may rely on the clauses of `Counts`. Which counts stand in one number may change without asking.
#![tactic(auto)]

pub mod counts;
mod each;
mod number;

pub use counts::Counts;
