//! In which procedure parts of the tree stand.

use ob_layout::Layout;

/// The layout of a program, and the number of one of its procedures: so the scope of its frame is known.
#[derive(Clone, Copy)]
pub struct Scopes<'a> {
    pub layout: &'a Layout,
    pub procedure: usize,
}
