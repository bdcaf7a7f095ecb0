//! The layout of a checked module's words: of its types, of its variables in a block, and of its procedures' frames on a stack.
//!
//! One may rely on the clauses of the public functions, which name the words of ob_code_scheme.
#![tactic(auto)]

mod decoding;
mod encoding;
pub mod frames;
pub mod laws;
pub mod layout;
mod shapes;
mod temporaries;

pub use encoding::encode;
pub use layout::Layout;
