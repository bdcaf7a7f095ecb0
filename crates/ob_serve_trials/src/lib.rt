//! Tests of what no clause says of workers: that a gate stops a worker, that two are under way at once, and that one may
//! stand still while the others go on. Nothing stands on this crate.
#![tactic(auto)]

#[cfg(test)]
mod gates;
