//! The engine that runs the tree of a checked module without code.
#![tactic(auto)]

pub mod act;
pub mod body_run;
pub mod body_start;
mod effects;
pub mod engine;
pub mod frame_places;
pub mod procedure_work;
pub mod reserve;
pub mod settle;
pub mod tree_step;

pub use engine::TreeEngine;
