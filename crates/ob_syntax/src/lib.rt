//! From the bytes of a text to its tree, and from a tree to its printed text.
#![tactic(auto)]

pub mod printer;
pub mod tree_reader;

pub use ob_grammar::tree as tree;
pub use ob_interface::NoMemory;
pub use ob_parser::parser as parser;
pub use ob_scan::{ListedTokens, ScannedTokens, TokenSource};
