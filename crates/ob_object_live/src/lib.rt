//! The object of a module's text that is called as calls come: each line of calls is answered before the next one is heard, and behind the last
//! one the record of all calls is told.
//!
//! One may rely on the clauses of `live_object` and `live_talk`, which are in the words of `specs/LiveRuns.antt`, and of `Pipe`, a
//! conversation over a reader and a writer, in those of `specs/Pipes.antt`.
#![tactic(auto)]

pub mod conversation;
pub mod live;
mod live_call;
pub mod live_parts;
pub mod live_record;
pub mod live_requests;
pub mod talking;

pub use conversation::{Conversation, Pipe, TalkFault};
pub use live_parts::{Ground, Live, Told};
pub use live_requests::{live_object, live_talk};
