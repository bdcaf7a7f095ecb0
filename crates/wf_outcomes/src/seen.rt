//! The configurations that an exploration has found.

use indexmap::IndexSet;
use std::rc::Rc;
use wf_counts::Counts;
use wf_lookup::keys::Keys;
use wf_order::searched_object::Words;

/// A state, also in words.
#[derive(Drop)]
#[derive_where(PartialEq, Eq, Hash)]
pub struct Stated<S> {
    pub(crate) words: Words,
    /// What rows of the state are found by.
    #[derive_where(skip(EqHashOrd))]
    pub(crate) row: u64,
    #[derive_where(skip(EqHashOrd))]
    pub(crate) state: S,
}

/// What rows of a state are found by: a number of its words.
pub(crate) fn row_of_words(words: &[u64]) -> u64 {
    let mut row = 0_u64;
    for word in words {
        row = row.wrapping_mul(31).wrapping_add(*word);
    }
    row
}

/// How many calls of each process are made, and the state that they lead to, which is kept once for all that a remembered call led to.
/// The last one is a call of the process `by`, made at the configuration at the place `from`; both are 0 at the start.
#[derive(Drop)]
#[derive_where(PartialEq, Eq, Hash)]
pub struct Found<S> {
    pub(crate) counts: Counts,
    pub(crate) kept: Rc<Stated<S>>,
    #[derive_where(skip(EqHashOrd))]
    pub(crate) from: usize,
    #[derive_where(skip(EqHashOrd))]
    pub(crate) by: usize,
}

impl<S> Found<S> {
    ghost use Rattle.std.specs.Prelude.{◌≡◌};

    /// The state.
    pub(crate) fn state(&self) -> &S
        ensures { result.now ≡ self.now.kept.value.state }
    {
        &self.kept.as_ref().state
    }
}

/// Configurations in the order in which they were found.
pub type Seen<S> = IndexSet<Found<S>, Keys>;
