//! The tokens of a module's text, and a source from which a parser takes them one at a time.
//!
//! One may rely on the clauses of `scan`, `Scanner` and `TokenSource`, which are in the words of `specs/`. How far ahead a source reads may
//! change without asking.
#![tactic(auto)]

mod comment;
pub mod fault;
pub mod keyword;
mod lexeme;
pub mod listed;
pub mod scanned;
pub mod scanner;
pub mod source;
mod symbol;
pub mod token;
pub mod tokens;

pub use fault::ScanFault;
pub use listed::ListedTokens;
pub use scanned::ScannedTokens;
pub use scanner::{Scanner, scan};
pub use source::TokenSource;
pub use token::{Kind, Lent, Token};
pub use tokens::Tokens;
