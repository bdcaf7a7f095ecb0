//! What a caller knows of an object's exports.

use crate::scalar::ScalarType;

/// A parameter of an export: its mode and its type.
#[derive(Clone, Copy, PartialEq, Eq)]
pub struct Formal {
    pub is_var: bool,
    pub scalar_type: ScalarType,
}

/// An exported procedure: its name, and its parameters in text order.
#[derive(Drop)]
pub struct Export {
    pub name: String,
    pub formals: Vec<Formal>,
}
