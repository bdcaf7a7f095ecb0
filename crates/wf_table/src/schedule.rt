//! Who stepped.

/// So many steps of one process in a row.
#[derive(Clone, Copy, PartialEq, Eq)]
pub struct Turns {
    pub process: usize,
    pub count: u64,
}
