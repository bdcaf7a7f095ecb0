//! What the page of faults says of each of them: a row for each fault, with its name and its page. That a name is answered with the page
//! of its row, and another word with none, is promised; what a page says may be changed without asking, in docs/FAULTS.md, of which
//! tools/fault_pages makes the rows.
#![tactic(auto)]

pub mod laws;
pub mod object_rows;
pub mod page;
pub mod record_rows;
pub mod rule_rows;
pub mod run_rows;
pub mod script_rows;
pub mod text_rows;
pub mod trap_rows;
