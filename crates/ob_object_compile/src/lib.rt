//! From the text of a module to the object that processes share, and to the listing of its code. All commands begin here
//! but `verify`, and `draw` and `explain` of a record.
#![tactic(auto)]

pub mod asked_object;
pub mod code_text;
pub mod compiling;
pub mod laws;
pub mod listing;
pub mod object;
pub mod tree_compiling;
pub mod tree_object;

pub use asked_object::{Asked, Beginning};
pub use compiling::{
    CompileFault, DEFAULT_BUDGET, MOST_BUDGET, compile, compile_asked, compile_from,
};
pub use listing::list_text;
pub use object::Object;
pub use tree_compiling::compile_tree;
pub use tree_object::TreeObject;
