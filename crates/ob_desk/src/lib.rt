//! The door of the desk: floors and the seats of their processes, the desk at which threads take turns, the gates that let them, and
//! what serves an object by workers and gives its record.
#![tactic(auto)]

pub use ob_desk_floor::{
    CallAnswer, CloseFault, Desk, Floor, GivenReply, Opening, Seat, Submission, TakeTurn,
};
pub use ob_desk_serve::{
    Gate, Open, ServeFault, ServeTextFault, opened_desk, serve, serve_text, serve_text_with,
};
