//! The check of a whole module: from its text to the checked program, or to the first rule that it breaks.
//!
//! One may rely on the clauses of `check` and `checked_text`. What breaks a rule, and in which order rules are looked at, stands in ob_typing.
#![tactic(auto)]

pub mod declaration_parts;
pub mod exports;
pub mod headings;
pub mod module_text;
pub mod modules;
pub mod procedures;

pub use module_text::{TextFault, checked_text};
pub use modules::check;
pub use ob_checked::checked::Checked;
pub use ob_scopes::fault::CheckFault;
