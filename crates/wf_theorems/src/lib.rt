//! What holds of every lawful engine and of every run of an object, as functions that do nothing: their contracts are the theorems.
//! Engines that can be copied for those who share an object, and compared, stand here too.
#![tactic(auto)]

pub mod alone;
pub mod bound;
pub mod coded;
pub mod exchanges;
pub mod help;
pub mod runs;
pub mod standing;
pub mod touched_words;

pub use coded::CodedEngine;
