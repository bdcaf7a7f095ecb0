//! What the parser and the declarations of a module's text tell at a place: the names that are visible there, what a name is declared as,
//! the numbers that are written or stand for constants, and which kinds of token could stand there.
//!
//! One may rely on the clauses of the public functions.
#![tactic(auto)]

pub mod declarations;
pub mod declared;
pub mod expected;
pub mod known;
pub mod lookup;
pub mod numerals;
pub mod visible;
