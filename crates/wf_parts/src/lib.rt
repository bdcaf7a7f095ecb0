//! The parts of a history: the calls that have one value as an argument, apart from the others, for an object that is many objects,
//! one for each value; and copies of the beginnings of a history.
//!
//! One may rely on the clauses of `parts_of`, which are in the words of `specs/Parts.antt` and `specs/Numbering.antt`, of `push_seen` and
//! `copied`. How a part is looked up may change without asking.
#![tactic(auto)]

pub mod copying;
pub mod part;
pub mod parts;
mod scalar_number;
mod split;

pub use copying::{copied, push_seen};
pub use part::Part;
pub use parts::{PartsFault, parts_of};
