//! The meaning of the whole language: values, stores, statements and calls on the object; by name, and by position, where no name is looked up.
//!
//! Definitions stand in `specs/`. That both meanings agree, for the checked programs of well typed modules, stands in `proofs/`.
#![tactic(auto)]

pub mod agreement_laws;
pub mod by_name_laws;
