//! What is said at a place of a text.

/// What is wrong, the offset of the byte where, and a hint on what it may come of.
#[derive(Drop)]
pub struct Remark {
    pub place: usize,
    pub sentence: String,
    pub hint: Option<String>,
}
