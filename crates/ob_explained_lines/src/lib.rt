//! Lines of a record: which they are, and why one of them can't stand where it does.
#![tactic(auto)]

pub mod call_name;
pub mod call_place;
pub mod line_cause;
pub mod record_line;
