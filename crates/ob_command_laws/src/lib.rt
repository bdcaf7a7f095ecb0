//! What plain words of the command line ask for: names that are no options, and options in any order.
#![tactic(auto)]

pub mod laws;
