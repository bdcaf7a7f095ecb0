//! A search for a legal order of a history of calls on a module's object, from the bytes of a module and of the history: the order, the record
//! with it, what shows that there is none, and the orders of the parts of a history on many objects (Herlihy and Wing's locality).
//!
//! One may rely on the clauses of `search_text`, `order_found`, `record_of_text`, `evidence_of_text` and `search_parts_text`. Which words a state
//! has, and which replies are tried as evidence, may change without asking.
#![tactic(auto)]

mod call_end;
mod candidates;
mod coding;
pub mod fault;
pub mod instance;
pub mod kept_states;
pub mod laws;
pub mod naming_history;
pub mod order_recording;
mod possible;
pub mod searching;
pub mod searching_parts;
mod state_words;
pub mod witness;

pub use fault::PartsFault;
pub use instance::ModuleObject;
pub use kept_states::KeptState;
pub use order_recording::{RecordingFault, record_of_text};
pub use searching::{Search, SearchFault, search_text};
pub use searching_parts::{Part, search_parts_text};
pub use witness::{Evidence, evidence_of_text};
