//! What the tokens around a place of a text tell, whether the text is a module or not: what each is, the construct that is open there, what an
//! END closes, whether parentheses are open, and how many actuals a call has.
//!
//! One may rely on the clauses of the public functions.
#![tactic(auto)]

pub mod actuals;
pub mod around;
pub mod closed_constructs;
pub mod open;
pub mod operand_tokens;
pub mod parens;
