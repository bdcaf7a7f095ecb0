//! The command line of the program, as the library `clap` is told of it.
#![tactic(auto)]

pub mod arguments;
pub mod command_line;
pub mod command_words;
pub mod help_words;
