//! Histories of calls on a shared object, and what orders of their calls are legal.
#![tactic(auto)]

pub mod event;
pub mod history;
pub mod kept;
pub mod kept_scalars;
pub mod lent;
pub mod reply;
pub mod seen_event;
mod wide_event;

pub use event::{CallId, Event};
pub use history::History;
pub use kept::{KeptCall, KeptReply};
pub use kept_scalars::KeptScalars;
pub use lent::Lent;
pub use reply::same_reply;
pub use seen_event::{SeenCall, SeenEvent, SeenReply};
