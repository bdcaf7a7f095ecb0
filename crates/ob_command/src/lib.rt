//! The command line of the program: what its words ask for.
#![tactic(auto)]

mod call_range;
pub mod command;
mod command_forms;
pub mod fault_names;
mod given;
mod known_faults;
mod mistakes;
mod requests;

pub use command::{
    AlwaysCommand, CallNumbers, CallsCommand, Command, OrderCommand, OrderProduct, OutcomesCommand,
    RunCommand, SeenCommand, SeqCommand, Stop, read_command,
};
