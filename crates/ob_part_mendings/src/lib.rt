//! Mendings of declarations, of headings, and of statements that have others in them.
//!
//! Which of them is made at a fault, and in which order they are tried, is a matter of taste: rows of the tests show it.
#![tactic(auto)]

pub mod constructs;
pub mod declarations;
pub mod headings;
pub mod values;
