//! Slips in a module's text, and the faults behind them: those that the text has where the slips before them are mended, or what breaks a rule is
//! left out.
//!
//! One may rely on a fault that is told being that of the mended text, at its place in the module's own text, and on a mending being told
//! as it was made. Which mending is chosen, and the words, may change without asking.
#![tactic(auto)]

mod declarations;
mod ends;
mod foreign_words;
pub mod further_faults;
mod marks;
mod names;
mod numbers;
mod operands;
mod slip;
pub mod slip_remark;
pub mod stage;
mod words;

pub use further_faults::told_behind;
pub use slip_remark::text_remark;
