//! Tests of the step machine over small engines: what no row of the program shows. Nothing stands on this crate.
#![tactic(auto)]

#[cfg(test)]
mod sample_runs;
