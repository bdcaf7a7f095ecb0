//! What is told of the nodes of the last layer.

ghost use Rattle.std.specs.Prelude.{◌≡◌, ◌<◌, [], map, get_or, replicate, slice_set, Some, All, IfOk, OnOk, length};
ghost use Rattle.wf_outcomes.specs.Explored.{all_kept, state_at};
ghost use Rattle.wf_whole_outcomes.specs.Leaves.{named};
ghost use Rattle.wf_whole_outcomes.specs.View.{front_ways, seen_in};

use crate::{Front, ToldWholes, way_back};
use ob_interface::NoMemory;
use std::alloc::Global;
use wf_history::CallId;
use wf_order::Object;
use wf_outcomes::Explored;

/// How many calls of a process there were.
fn count_of(counts: &[u64], process: usize) -> u64
    ensures { result ≡ get_or counts.now process 0 }
{
    match counts.get(process) {
        Some(count) => *count,
        None => 0,
    }
}

/// Notes how many calls of a process there are.
fn set_count(counts: &mut [u64], process: usize, count: u64)
    ensures { counts.new ≡ slice_set counts.old process count }
{
    if process < counts.len() {
        counts[process] = count;
    }
}

/// The calls of processes that come in this order, by their names, in place of what stood there. The counts are made anew.
fn name_calls(
    order: &mut Vec<CallId>,
    counts: &mut Vec<u64>,
    processes: usize,
    way: &[usize],
) -> Result<(), NoMemory>
    ensures { OnOk result (order.new.items ≡ named (replicate processes 0) way.now) }
{
    order.clear();
    counts.clear();
    counts.resize(processes, 0)?;
    for process in way {
        let process = *process;
        let number = count_of(counts, process).checked_add(1).ok_or(NoMemory)?;
        set_count(counts, process, number);
        order.push(CallId { process, number })?;
    }
    Ok(())
}

/// The states of the nodes of the last layer.
pub(crate) fn states_told<'e, O: Object>(
    alloc: Global,
    explored: &'e Explored<'_, O>,
    front: &Front,
) -> Result<Vec<&'e O::State>, NoMemory>
    requires { All (λ node. node.place < length (all_kept O.meaning explored.now.seen)) front.now.layer.keys }
    ensures { IfOk result (λ states. map Some (map (seen_in O.meaning) states.items)
        ≡ map (λ node. state_at (all_kept O.meaning explored.now.seen) node.place) front.now.layer.keys) }
{
    let mut states = Vec::with_capacity(alloc, front.layer.len())?;
    for at in 0..front.layer.len() {
        let node = &front.layer[at];
        let state = explored.state(node.place);
        states.push(state)?;
    }
    Ok(states)
}

/// Room for an order, and for what it is made of.
#[derive(Drop)]
pub struct OrderRoom {
    pub order: Vec<CallId>,
    way: Vec<usize>,
    counts: Vec<u64>,
}

impl OrderRoom {
    /// Room for nothing yet.
    pub fn new(alloc: Global) -> OrderRoom {
        OrderRoom {
            order: Vec::new(alloc),
            way: Vec::new(alloc),
            counts: Vec::new(alloc),
        }
    }
}

impl<S> ToldWholes<S> {
    /// The first order that gives an outcome, in place of what stood there.
    pub fn put_order(&self, at: usize, room: &mut OrderRoom) -> Result<(), NoMemory>
        ensures { OnOk result (room.new.order.items ≡ named (replicate self.now.processes 0) (get_or (front_ways self.now.front) at [])) }
    {
        way_back(&mut room.way, &self.front.trail, at)?;
        room.way.reverse();
        name_calls(&mut room.order, &mut room.counts, self.processes, &room.way)
    }
}
