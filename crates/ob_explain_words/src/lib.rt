//! Which words are names that a text declares, which of its names is nearly the one that was written, and how many words its types and
//! variables have.
//!
//! One may rely on a nearest name being one that is declared.
#![tactic(auto)]

pub mod declared_words;
pub mod declaring;
pub mod distance;
pub mod edits;
mod lengths;
mod list_tokens;
mod named_types;
pub mod nearest;
pub mod need;
mod scope;
mod type_lists;
mod word_counts;
