//! The cell that the processes of one object share: a root, blocks, links and announcements.
#![tactic(auto)]

pub mod fault;
pub mod form;
pub mod shared;
mod table;

pub use fault::CellFault;
pub use form::Form;
pub use shared::Shared;
