//! The configurations that a search has found.

ghost use Rattle.std.specs.Prelude.{◌≡◌, ◌<◌, ◌≤◌, ◌+◌, ◌++◌, ◌∷◌, [], map, length, Contains, IfOk, OnOk, IsTrue};
ghost use Rattle.wf_order.specs.Search.{found_in, all_found, AreWorded, IsWorded};

use crate::searched_object::{Object, Words};
use indexmap::IndexSet;
use ob_interface::NoMemory;
use smallvec::SmallVec;
use std::alloc::Global;
use wf_lookup::keys::Keys;

/// How many calls of each process are taken.
pub(crate) type Counts = SmallVec<u32, 16>;

/// How many calls of each process are taken, and the state that they lead to, also in words.
#[derive(Drop)]
#[derive_where(PartialEq, Eq, Hash)]
pub(crate) struct Found<S> {
    pub counts: Counts,
    pub words: Words,
    #[derive_where(skip(EqHashOrd))]
    pub state: S,
}

/// Configurations in the order in which they were found.
pub(crate) type Seen<S> = IndexSet<Found<S>, Keys>;
