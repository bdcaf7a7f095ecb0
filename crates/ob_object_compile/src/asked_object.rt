//! What object is asked for.

use ob_carry::fields_by_name::NamedField;

/// How an object begins.
#[derive(Clone, Copy)]
pub enum Beginning<'a> {
    /// With the state that the module's body leaves.
    Body,
    /// With values that are carried over: each variable has the one that the list gives to its name, and 0 or FALSE throughout
    /// where the list does not name it. No body runs.
    Carried(&'a [NamedField]),
}

/// What object is asked for: the text of its module, how many processes share it, the turns of each call, and how it begins.
#[derive(Clone, Copy)]
pub struct Asked<'a> {
    pub text: &'a [u8],
    pub processes: usize,
    pub budget: u64,
    pub beginning: Beginning<'a>,
}
