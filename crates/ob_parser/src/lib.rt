//! From the tokens of a text to its module, or from a text, whose tokens are then scanned one at a time.
#![tactic(auto)]

pub mod parser;

pub use ob_grammar::module::Module;
pub use parser::source::{SourceFault, parse_source};
pub use parser::{ParseFault, parse};
