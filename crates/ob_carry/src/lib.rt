//! Values that are carried over to a module: each variable has the value that a list gives to its name, in the place of what the module's
//! body would make of it. And back: what a state's variables have, as such a list. Which exports leave each state as it was stands here too.
//!
//! One may rely on the clauses of `carry`, `named_values` and `read_only_exports`.
#![tactic(auto)]

pub mod carry_laws;
pub mod carrying;
pub mod fields_by_name;
pub mod fitting;
pub mod naming;
pub mod read_only_laws;
pub mod silent_exports;
mod spared;
mod sparing_calls;
pub mod telling;

pub use telling::named_values;
