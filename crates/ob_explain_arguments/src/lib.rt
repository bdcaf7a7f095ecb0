//! The forms of lines and of the values in them, for what is said where a script or a record breaks one.
#![tactic(auto)]

pub mod call_line;
pub mod declared_procedures;
pub mod first_line;
pub mod items;
pub mod misfit;
pub mod near;
pub mod other_lines;
pub mod sentences;
pub mod value_marks;
