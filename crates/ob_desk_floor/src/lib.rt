//! The desk at which processes take their turns on one object: what it has under its lock, a machine that a run led to and a seat for each
//! process, the lock, and the closing, which compares floor and seats and gives the machine.
//!
//! It is over any engine that can be copied and compared, and knows no language. One may rely on the clauses of the public functions.
#![tactic(auto)]

pub mod agreeing;
pub mod closing;
pub mod desk;
pub mod fault;
pub mod floor;
pub mod opening;
mod same_calls;
pub mod seat;
mod seating;
pub mod submission;
pub mod taking;
pub mod terms;

pub use agreeing::are_shown;
pub use closing::settle;
pub use desk::Desk;
pub use fault::CloseFault;
pub use floor::Floor;
pub use opening::Opening;
pub use seat::{CallAnswer, GivenReply, Seat};
pub use submission::Submission;
pub use taking::TakeTurn;
pub use terms::Terms;
