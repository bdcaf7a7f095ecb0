//! The table of steps of the object that processes share, and what is true of every run of it: what a step does (`specs/`), that a call is in
//! the order once two exchanges came after its announcement, how many own steps it takes, who helps whom, and that replies stand.
//!
//! One may rely on the definitions and on the lemmas that other crates name. How a lemma is proved may change without asking.
#![tactic(auto)]

pub mod engine_turn;
pub mod process;
pub mod schedule;
pub mod spent;

pub use engine_turn::EngineTurn;
pub use process::{Label, Registers, Sizes};
pub use schedule::Turns;
pub use spent::Spent;
