//! What `explain` tells of records and of histories: their faults of form, and the call that stands where it may not.
//!
//! One may rely on the place that is shown and on what is said of it being true. Words may change without asking.
#![tactic(auto)]

mod end_line;
mod end_remark;
mod end_sentence;
pub mod explained_history;
mod history_remark;
mod history_sentences;
mod order_place;
pub mod order_remark;
pub mod record_faults;
pub mod record_remark;
mod reply_sentence;

pub use explained_history::history_explanation;
pub use record_faults::record_explanation;
