//! The states in which all calls may end, each with an order that leads to it.

ghost use Rattle.std.specs.Prelude.{map, IfOk};
ghost use Rattle.wf_outcomes.specs.Explored.{calls_in};
ghost use Rattle.wf_outcomes.specs.OutcomeOrders.{AreEndsTold, IsItself};
ghost use Rattle.wf_outcomes.specs.View.{end_in};

use crate::Explored;
use ob_interface::NoMemory;
use std::alloc::Global;
use wf_history::CallId;
use wf_order::Object;

/// A state in which all calls may end, and an order of them that leads to it.
#[derive(Drop)]
pub struct ToldEnd<'e, S> {
    pub state: &'e S,
    pub order: Vec<CallId>,
}

/// The states in which all calls may end: exactly these, each once, with an order that leads to it.
pub fn ends_told<'e, O: Object>(
    alloc: Global,
    explored: &'e Explored<'_, O>,
) -> Result<Vec<ToldEnd<'e, O::State>>, NoMemory>
    ensures { IfOk result (λ told. ∥ AreEndsTold IsItself (O.effect explored.now.object.now) (calls_in explored.now.scripts.now) (O.opening explored.now.object.now)
        (map (end_in O.meaning) told.items) ∥₁) }
{
    let places = explored.finals(alloc)?;
    let mut told = Vec::new(alloc);
    for at in 0..places.len() {
        let state = explored.state(places[at]);
        let order = explored.path_to(alloc, places[at])?;
        told.push(ToldEnd { state, order })?;
    }
    Ok(told)
}
