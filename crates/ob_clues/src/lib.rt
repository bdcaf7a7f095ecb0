//! By what a hint on a fault of a module's text is chosen: habits of other languages, what stands further on, names of procedures, signs,
//! calls and comparisons. Nothing is promised of it, since no sentence has it in a slot, and hints alone do: all of it may be changed without
//! asking, and rows of tests show what it comes to.
#![tactic(auto)]

pub mod calls;
pub mod comparisons;
pub mod foreign;
pub mod further;
pub mod habits;
pub mod procedure_names;
pub mod signs;
