//! Tests of what no row of the program shows: tokens, printed texts, faults as people read them, which exports only read, and the
//! words of variables and their parts. Nothing stands on this crate.
#![tactic(auto)]

#[cfg(test)]
mod explanations;
#[cfg(test)]
mod layouts;
#[cfg(test)]
mod nesting;
#[cfg(test)]
mod printing;
#[cfg(test)]
mod read_only;
#[cfg(test)]
mod tokens;
