//! The engine that runs the tree of a program without code: its work list, one step of it, and the most tasks that the list holds (`specs/`).
//! It meets the law that the engine over code meets, with the same effect (`proofs/`).
#![tactic(auto)]

pub mod laws;
pub mod work_laws;
