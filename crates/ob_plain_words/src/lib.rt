//! The command that words ask for. Words in a plain form, as most calls have them, are read here. `clap` reads all others: to tell it of all
//! commands takes longer than to obey a small one.
//!
//! One may rely on the clauses of `asked_command`, which are those of `read_command`. Which words are read here may change without asking.
#![tactic(auto)]

pub mod asked_command;
pub mod plain_forms;
