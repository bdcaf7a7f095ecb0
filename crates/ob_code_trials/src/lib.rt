//! Tests of calls by the code of a module, on one block of words, beside the same calls by the meaning of its tree. Nothing stands on
//! this crate.
#![tactic(auto)]

#[cfg(test)]
mod block_trials;
