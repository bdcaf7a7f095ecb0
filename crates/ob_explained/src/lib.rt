//! What `explain` tells of a module with its scripts: its faults, those of the values that it is given, and the traps of its calls.
//!
//! One may rely on the place that is shown and on what is said of it being true. Words may change without asking.
#![tactic(auto)]

pub mod call_remark;
pub mod carried_values;
pub mod cause;
pub mod explained_run;
pub mod item_place;
pub mod laws;
pub mod named_texts;
pub mod number_fault;
pub mod opening_traps;
pub mod run_remark;
pub mod script_place;
pub mod script_remark;
pub mod shown_fault;
pub mod value_line;

pub use carried_values::{carry_explanation, values_explanation};
pub use explained_run::run_explanation;
pub use named_texts::Source;
pub use shown_fault::{calls_explanation, module_explanation, object_explanation};
