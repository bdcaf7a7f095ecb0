//! What is known of a fault of a module's text, each with a contract that says what of the module it is: what could stand at the place,
//! the construct that is open there, the nearest name, the line of a declaration, operands, lengths, counts and words. Its definitions,
//! above all `specs/Evidence.antt`, are what the sentences of faults rest on; how a value is found may be changed without asking.
#![tactic(auto)]

pub mod constant_numbers;
pub mod constructs;
pub mod facts;
pub mod lone_names;
pub mod nearest_names;
pub mod needed_types;
pub mod small_keywords;
pub mod text_site;
pub mod word_totals;
