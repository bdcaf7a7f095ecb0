//! Calls made one at a time on the object of a module's text, from bytes to bytes; whether the order of a record is a legal order of its
//! history; and what a call of such an order comes to.
//!
//! One may rely on the clauses of the public functions. Whether calls are made by code or by the interpreter may change without asking.
#![tactic(auto)]

pub mod beginning;
pub mod begins;
mod call_names;
pub mod call_outcome;
pub mod call_outcome_text;
mod changes;
pub mod check;
mod code_replies;
mod coded_calls;
mod coded_verifying;
mod detail_lines;
pub mod details;
mod history_calls;
mod history_ends;
pub mod laws;
pub mod overtaking;
pub mod script_calls;
pub mod sequential;
pub mod verifying;

pub use call_outcome::MadeCall;
pub use call_outcome_text::{call_made, call_overtaken};
pub use check::check_text;
pub use details::{Details, seq_asked_told};
pub use sequential::{SeqTextFault, seq_asked, seq_text};
pub use verifying::{VerifyFault, verify_text};
