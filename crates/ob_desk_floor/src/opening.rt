//! With what an object begins.

/// The words with which an object begins, and whether the values that they hold were carried over.
#[derive(Drop)]
pub struct Opening {
    pub words: Vec<i64>,
    pub carried: bool,
}
