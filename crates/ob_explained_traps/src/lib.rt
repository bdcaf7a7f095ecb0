//! Where calls trap, as `explain --traps` tells it: those of a script, and those of a record's order. Each place of the module's text is told
//! once, with the first call that traps there and how many do.
//!
//! One may rely on the places that are told, on which call is the first there, and on their number. Words may change without asking.
#![tactic(auto)]

mod call_lines;
pub mod laws;
mod order_calls;
pub mod record_traps;
pub mod script_traps;
mod spots;
mod told_calls;
mod trap_lines;

pub use record_traps::record_traps_text;
pub use script_traps::traps_text;
