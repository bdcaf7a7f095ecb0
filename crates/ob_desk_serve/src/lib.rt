//! A module's object served from texts by a thread for each process, which takes its steps at the desk as a gate lets it, and hands back its
//! seat and the answers that it was given when it ends. A *turn* of a seat is one step of its process.
//!
//! One may rely on the clauses of the public functions; the closing holds whatever the threads did.
#![tactic(auto)]

mod answers;
mod closed_record;
mod ended_workers;
pub mod fault;
pub mod gate;
pub mod gathering;
pub mod object_desk;
pub mod serving;
pub mod serving_texts;
pub mod worker;

pub use fault::ServeFault;
pub use gate::{Gate, Open};
pub use gathering::gather;
pub use object_desk::opened_desk;
pub use serving::serve;
pub use serving_texts::{ServeTextFault, read_calls, serve_text, serve_text_with};
pub use worker::{Ended, Worked};
