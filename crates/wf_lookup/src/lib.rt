//! What searches of histories share: keys of their tables, numbers of words and scalars, calls and replies, compared, and what first events come to: how many processes
//! there are, and which calls are open.
//!
//! One may rely on the clauses of `is_same_reply`, `are_equal_replies`, `are_same_replies`, `is_same_call`, `process_count` and `open_calls`. How keys are drawn
//! may change without asking.
#![tactic(auto)]

pub mod compared_replies;
pub mod counted_processes;
pub mod keys;
pub mod numbers;
pub mod opened;

pub use counted_processes::process_count;
pub use opened::open_calls;
