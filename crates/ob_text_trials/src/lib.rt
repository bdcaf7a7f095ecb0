//! Tests of records, read and written again, and of histories. Nothing stands on this crate.
#![tactic(auto)]

#[cfg(test)]
mod histories;
#[cfg(test)]
mod sample_records;
