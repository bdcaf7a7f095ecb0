//! The tree of a module, the grammar that it is derived by, and the module whose type keeps that it is.
#![tactic(auto)]

pub mod module;
pub mod tree;

pub use module::Module;
