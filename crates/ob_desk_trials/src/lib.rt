//! Tests of desks that are closed over a floor that is not theirs: what stands under a desk's lock is named in no contract. Nothing
//! stands on this crate.
#![tactic(auto)]

#[cfg(test)]
mod floors;
