//! Of which types the operands beside a place of a module are, and the parts of variables, by tokens and declarations.
#![tactic(auto)]

pub mod declared_types;
pub mod field_names;
pub mod fields;
pub mod handed_parameter;
mod inside;
pub mod operand_types;
pub mod variable_parts;
