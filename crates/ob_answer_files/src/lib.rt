//! The files and words that a command is given: read where they are named, or handed over by another program.
//!
//! One may rely on the clauses of the public functions, which are in the words of `specs/`.
#![tactic(auto)]

pub mod answered;
pub mod file_reading;
pub mod files;
pub mod handed_files;
pub mod handing;
pub mod joined_texts;
pub mod shown_name;
