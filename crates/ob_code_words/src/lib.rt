//! A room of ob_code: the words. Here stand the instructions of the stack machine, its stack, and what an instruction without a jump does to
//! the words of a block and of the stack.
#![tactic(auto)]

pub mod effect;
pub mod instr;
pub mod laws;
pub mod stack;
pub mod stack_operators;

pub use instr::Instr;
