//! Whole outcomes.

ghost use Rattle.std.specs.Prelude.{◌≡◌, map, length, IfOk, IsErrOf};
ghost use Rattle.wf_whole_outcomes.specs.Graph.{IsNarrow, next_from, rows_in};
ghost use Rattle.wf_whole_outcomes.specs.Layers.{HasOver};
ghost use Rattle.wf_whole_outcomes.specs.Nodes.{IsFront, first_spot};
ghost use Rattle.wf_outcomes.specs.Explored.{all_kept, calls_in};
ghost use Rattle.wf_outcomes.specs.Merges.{total};
ghost use Rattle.wf_outcomes.specs.OutcomeOrders.{IsItself};
ghost use Rattle.wf_whole_outcomes.specs.Tellings.{HasMoreTold};
ghost use Rattle.wf_whole_outcomes.specs.View.{AreStatesOf, seen_in, wholes_in};
ghost use Rattle.wf_whole_outcomes.specs.Wholes.{AreWholes};

use crate::graph::graph_of;
use crate::leaves::states_told;
use crate::{Front, Ground, LayersFault, search_all};
use ob_interface::NoMemory;
use std::alloc::Global;
use std::hash::RandomState;
use wf_history::{KeptCall, KeptReply};
use wf_order::Object;
use wf_outcomes::{ExploreFault, Explored};

/// Whole outcomes, as the last layer of a search has them: each node is one, with the lists of the replies to its processes, and the way
/// there. Beside each stands its state.
#[derive(Drop)]
pub struct ToldWholes<S> {
    pub processes: usize,
    pub replies: Vec<KeptReply>,
    pub front: Front,
    pub states: Vec<S>,
}

/// How many calls there are in all.
fn all_calls(scripts: &[Vec<KeptCall>]) -> Result<usize, NoMemory>
    ensures { IfOk result (λ calls. calls ≡ total (map length (calls_in scripts.now))) }
{
    let mut calls = 0usize;
    for script in scripts {
        calls = calls.checked_add(script.len()).ok_or(NoMemory)?;
    }
    Ok(calls)
}

/// The layer behind so many calls, with the ways that lead there.
fn last_front(ground: &Ground<'_>, calls: usize, most: usize) -> Result<Front, ExploreFault>
    requires { IsNarrow (rows_in ground.now.rows.now) ground.now.processes }
    ensures front { IfOk result (IsFront (rows_in ground.now.rows.now) ground.now.processes) }
    ensures size { IfOk result (λ f. length f.trail.items ≡ calls) }
    ensures most { IsErrOf result ExploreFault.TooMany → HasOver (next_from (rows_in ground.now.rows.now)) (first_spot ground.now.processes) most }
{
    match search_all(ground, calls, most) {
        Ok(front) => Ok(front),
        Err(LayersFault::TooMany) => Err(ExploreFault::TooMany),
        Err(LayersFault::NoMemory) => Err(ExploreFault::NoMemory),
    }
}

/// The whole outcomes: exactly these, each once, with the first order that gives it, and by these orders. No more tellings than
/// that many are looked at, and the keys are those of the table of them.
pub fn wholes_told<'e, O: Object>(
    alloc: Global,
    explored: &'e Explored<'_, O>,
    most: usize,
    keys: RandomState,
) -> Result<ToldWholes<&'e O::State>, ExploreFault>
    ensures wholes { IfOk result (λ told. ∥ AreWholes IsItself (O.effect explored.now.object.now) (calls_in explored.now.scripts.now) (O.opening explored.now.object.now)
        (wholes_in (seen_in O.meaning) told) ∥₁) }
    ensures placed { IfOk result (λ told. AreStatesOf O.meaning (all_kept O.meaning explored.now.seen) told) }
    // It gives up only where more can be told.
    ensures most { IsErrOf result ExploreFault.TooMany → ∥ HasMoreTold (O.effect explored.now.object.now) (calls_in explored.now.scripts.now)
        (O.opening explored.now.object.now) most ∥₁ }
{
    let graph = graph_of(alloc, explored)?;
    let calls = all_calls(explored.scripts)?;
    let ground = Ground {
        alloc,
        rows: &graph.rows,
        processes: explored.scripts.len(),
        keys,
    };
    let front = last_front(&ground, calls, most)?;
    let states = states_told(alloc, explored, &front)?;
    Ok(ToldWholes {
        processes: explored.scripts.len(),
        replies: graph.replies,
        front,
        states,
    })
}
