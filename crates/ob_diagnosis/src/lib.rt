//! What is said of a fault of a module's text: what may be seen around its place, what is known of it, and so which rows of the tables
//! are given. That the place is the fault's, what is said a row of its number, and what stands in its slots true of the module, is
//! promised; which facts give a hint may be changed without asking.
#![tactic(auto)]

pub mod keywords;
mod missing;
pub mod module_remark;
mod rules;
mod syntax;
mod told_by_tables;
mod unexpected;
