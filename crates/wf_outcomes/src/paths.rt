//! The calls that lead to a configuration.

ghost use Rattle.std.specs.Prelude.{◌≡◌, get_or};

use crate::explored::Explored;
use crate::seen::Found;
use ob_interface::NoMemory;
use std::alloc::Global;
use wf_history::CallId;
use wf_order::Object;

/// The call that first led to a configuration, by its process and its number.
fn last_call<S>(one: &Found<S>) -> CallId
    ensures process { result.process ≡ one.now.by }
    ensures number { result.number ≡ get_or one.now.counts.items one.now.by 0 }
{
    CallId {
        process: one.by,
        number: one.counts.count(one.by) as u64,
    }
}

impl<'a, O: Object> Explored<'a, O> {
    ghost use Rattle.std.specs.Prelude.{◌≡◌, ◌<◌, length, slice_get, reverse, Some, IfOk};
    ghost use Rattle.wf_outcomes.specs.Explored.{all_kept, calls_in};
    ghost use Rattle.wf_outcomes.specs.Outcomes.{LeadsToPlace};

    /// The calls that first led to the configuration at a place, the last one first.
    fn path_back(&self, alloc: Global, place: usize) -> Result<Vec<CallId>, NoMemory>
        requires { place < length (all_kept O.meaning self.now.seen) }
        ensures { IfOk result (λ back. ∥ LeadsToPlace (O.effect self.now.object.now) (calls_in self.now.scripts.now) (O.opening self.now.object.now)
            (all_kept O.meaning self.now.seen) (reverse back.items) place ∥₁) }
    {
        let mut path = Vec::new(alloc);
        let mut at = place;
        while at > 0 {
            let one = &self.seen[at];
            path.push(last_call(one))?;
            at = one.from;
        }
        Ok(path)
    }

    /// The calls that first led from the start to the configuration at a place.
    pub fn path_to(&self, alloc: Global, place: usize) -> Result<Vec<CallId>, NoMemory>
        requires { place < length (all_kept O.meaning self.now.seen) }
        ensures { IfOk result (λ path. ∥ LeadsToPlace (O.effect self.now.object.now) (calls_in self.now.scripts.now) (O.opening self.now.object.now)
            (all_kept O.meaning self.now.seen) path.items place ∥₁) }
    {
        let mut path = self.path_back(alloc, place)?;
        path.reverse();
        Ok(path)
    }
}
