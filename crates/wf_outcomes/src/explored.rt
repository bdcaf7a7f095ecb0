//! What an exploration has found.

ghost use Rattle.wf_outcomes.specs.Explored.{all_kept, calls_in, AreWorded, IsExplored};
ghost use Rattle.std.specs.Prelude.{length};
ghost use Rattle.wf_outcomes.specs.RememberedCalls.{AreMade};
ghost use Rattle.wf_outcomes.specs.Meetings.{AreTelling};

use crate::remembered_calls::Memory;
use crate::seen::Seen;
use wf_history::KeptCall;
use wf_order::Object;

/// All configurations of the merges of some scripts of calls on an object, each once, and by how many calls lead to them.
#[derive(Drop)]
pub struct Explored<'a, O: Object> {
    pub object: &'a O,
    pub scripts: &'a [Vec<KeptCall>],
    pub seen: Seen<O::State>,
    /// Calls that were made, as far as they are remembered.
    pub memory: Memory<'a, O::State>,
    /// Places at which the replies of all calls are to be seen.
    pub telling: Vec<usize>,
    ghost worded: { AreWorded O.meaning O.words_of seen },
    ghost remembered: { ∥ AreMade O.meaning O.words_of (O.effect object.now) memory.made.items ∥₁ },
    ghost told: { ∥ AreTelling seen.keys telling.items (length seen.keys) ∥₁ },
    ghost explored: { ∥ IsExplored (O.effect object.now) (calls_in scripts.now) (O.opening object.now) (all_kept O.meaning seen) ∥₁ },
}

impl<'a, O: Object> Explored<'a, O> {
    ghost use Rattle.std.specs.Prelude.{◌≡◌, ◌<◌, map, length, slice_get, Some, option_map};
    ghost use Rattle.std.specs.Option.{option_copied};
    ghost use Rattle.wf_outcomes.specs.Explored.{all_kept, state_at};

    /// How many configurations there are.
    pub fn len(&self) -> usize
        ensures { result ≡ length (all_kept O.meaning self.now.seen) }
    {
        self.seen.len()
    }

    /// The state of the configuration at a place.
    pub fn state(&self, place: usize) -> &O::State
        requires { place < length (all_kept O.meaning self.now.seen) }
        ensures { state_at (all_kept O.meaning self.now.seen) place ≡ Some (O.meaning result.now) }
    {
        self.seen[place].state()
    }
}
