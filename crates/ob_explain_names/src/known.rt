//! Names, by their places in a text.

/// What a name is declared as.
#[derive(Clone, Copy)]
pub enum Sort {
    Constant,
    TypeName,
    /// A variable or a parameter.
    Variable,
    /// A procedure with so many parameters.
    Procedure(usize),
}

/// A name that is declared at a place.
#[derive(Clone, Copy)]
pub struct Known {
    pub place: usize,
    pub sort: Sort,
}
