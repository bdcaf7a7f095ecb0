//! A room of ob_code: the stack machine. Here stand the code of procedures, and the body of one call, which runs it.
#![tactic(auto)]

pub mod argument;
pub mod body;
pub mod code;
pub mod entering;
pub mod fault;
pub mod laws;
mod saved;
pub mod turn;

pub use argument::Argument;
pub use body::Body;
pub use code::Code;
pub use fault::CodeFault;
pub use ob_code_words::Instr;
pub use turn::BodyTurn;
