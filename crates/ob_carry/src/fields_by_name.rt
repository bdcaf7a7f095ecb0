//! Values by the names of fields, whatever their types: what a text tells of variables.

use ob_interface::scalar::Scalar;

/// A scalar, the elements of an array, or the fields of a record.
#[cycle(named)]
#[derive(Drop)]
pub enum NamedValue {
    Single(Scalar),
    Elements(Vec<NamedValue>),
    Fields(Vec<NamedField>),
}

/// A value with its name: a field of a record, or what a list gives to a variable.
#[cycle(named)]
#[derive(Drop)]
pub struct NamedField {
    pub name: String,
    pub value: NamedValue,
}
