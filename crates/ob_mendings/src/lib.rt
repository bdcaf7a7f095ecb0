//! Mendings of a module's text: the text with one, how it is told, where its places stand in the text, and what `check` finds in it; and those
//! that go by signs, by comments, and by whole statements and sections.
//!
//! One may rely on a mending being told as it was made. The words may change without asking.
#![tactic(auto)]

pub mod capitals;
pub mod comments;
pub mod fix;
pub mod mending;
pub mod origin;
pub mod part;
pub mod rewritten;
pub mod sections;
pub mod signs;
pub mod tokens;
pub mod verdict;
