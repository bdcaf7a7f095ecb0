//! Outcomes as a whole.

ghost use Rattle.std.specs.Prelude.{map, IfOk};
ghost use Rattle.wf_outcomes.specs.Explored.{calls_in};
ghost use Rattle.wf_outcomes.specs.OutcomeOrders.{AreOutcomes, IsItself};
ghost use Rattle.wf_outcomes.specs.View.{call_in, end_in};

use crate::Explored;
use crate::all_replies::{ToldCall, calls_told};
use crate::end_states::{ToldEnd, ends_told};
use ob_interface::NoMemory;
use std::alloc::Global;
use wf_order::Object;

/// The replies that the calls may have, and the states in which they may end.
#[derive(Drop)]
pub struct Outcomes<'e, S> {
    pub calls: Vec<ToldCall>,
    pub ends: Vec<ToldEnd<'e, S>>,
}

/// All outcomes of the merges: what each call of the scripts may answer, and in which states they may end.
pub fn all_told<'e, O: Object>(
    alloc: Global,
    explored: &'e Explored<'_, O>,
) -> Result<Outcomes<'e, O::State>, NoMemory>
    ensures { IfOk result (λ o. AreOutcomes IsItself (O.effect explored.now.object.now) (calls_in explored.now.scripts.now) (O.opening explored.now.object.now)
        (map call_in o.calls.items) (map (end_in O.meaning) o.ends.items)) }
{
    let calls = calls_told(alloc, explored)?;
    let ends = ends_told(alloc, explored)?;
    Ok(Outcomes { calls, ends })
}
