//! The edges of what an exploration has found.

ghost use Rattle.std.specs.Prelude.{◌≡◌, ◌<◌, ◌+◌, map, length, slice_get, Some, Contains, IfOk, OnOk, MatchOption};
ghost use Rattle.ob_interface.specs.View.{reply_of};
ghost use Rattle.wf_history.specs.View.{kept_reply};
ghost use Rattle.wf_outcomes.specs.Explored.{all_kept, calls_in};
ghost use Rattle.wf_whole_outcomes.specs.Graph.{AreApart, GoesOn, IsNarrow, rows_in};
ghost use Rattle.wf_whole_outcomes.specs.OutcomeGraph.{AreRows, IsRow, SaysEdge};

use crate::Edge;
use ob_interface::NoMemory;
use ob_interface::call::Reply;
use std::alloc::Global;
use wf_history::{KeptReply, same_reply};
use wf_order::Object;
use wf_outcomes::{Explored, Onward};

/// Of each place the edges by processes, and the replies by their numbers.
#[derive(Drop)]
pub(crate) struct Graph {
    pub rows: Vec<Vec<Option<Edge>>>,
    pub replies: Vec<KeptReply>,
}

/// The number of a reply, if it has one.
fn number_in(replies: &[KeptReply], reply: &Reply) -> Option<usize>
    ensures { MatchOption result (¬ Contains (map kept_reply replies.now) (reply_of reply.now)) (λ number. slice_get (map kept_reply replies.now) number ≡ Some (reply_of reply.now)) }
{
    for (number, kept) in replies.iter().enumerate() {
        if same_reply(reply, kept) {
            return Some(number);
        }
    }
    None
}

/// The number of a reply, which gets one if it has none.
fn number_of(alloc: Global, replies: &mut Vec<KeptReply>, reply: &Reply) -> Result<usize, NoMemory>
    requires { AreApart (map kept_reply replies.old.items) }
    ensures number { IfOk result (λ number. slice_get (map kept_reply replies.new.items) number ≡ Some (reply_of reply.now)) }
    ensures apart { OnOk result (AreApart (map kept_reply replies.new.items)) }
    ensures more { OnOk result (GoesOn (map kept_reply replies.old.items) (map kept_reply replies.new.items)) }
{
    if let Some(number) = number_in(replies, reply) {
        return Ok(number);
    }
    let number = replies.len();
    replies.push(KeptReply::keep(alloc, reply)?)?;
    Ok(number)
}

/// What the next call of a process leads to from a place.
fn edge_of<O: Object>(
    alloc: Global,
    explored: &Explored<O>,
    place: usize,
    process: usize,
    replies: &mut Vec<KeptReply>,
) -> Result<Option<Edge>, NoMemory>
    requires place { place < length (all_kept O.meaning explored.now.seen) }
    requires process { process < length explored.now.scripts.now }
    requires apart { AreApart (map kept_reply replies.old.items) }
    ensures edge { IfOk result (λ edge. ∥ SaysEdge (O.effect explored.now.object.now) (calls_in explored.now.scripts.now) (all_kept O.meaning explored.now.seen)
        (map kept_reply replies.new.items) place process edge ∥₁) }
    ensures apart { OnOk result (AreApart (map kept_reply replies.new.items)) }
    ensures more { OnOk result (GoesOn (map kept_reply replies.old.items) (map kept_reply replies.new.items)) }
{
    let Some(onward) = explored.onward(alloc, place, process)? else {
        return Ok(None);
    };
    let Onward { place: to, reply } = onward;
    let reply = number_of(alloc, replies, &reply)?;
    Ok(Some(Edge { to, reply }))
}

/// The edges from a place.
fn row_of<O: Object>(
    alloc: Global,
    explored: &Explored<O>,
    place: usize,
    replies: &mut Vec<KeptReply>,
) -> Result<Vec<Option<Edge>>, NoMemory>
    requires place { place < length (all_kept O.meaning explored.now.seen) }
    requires apart { AreApart (map kept_reply replies.old.items) }
    ensures row { IfOk result (λ row. ∥ IsRow (O.effect explored.now.object.now) (calls_in explored.now.scripts.now) (all_kept O.meaning explored.now.seen)
        (map kept_reply replies.new.items) place (length explored.now.scripts.now) row.items ∥₁) }
    ensures size { IfOk result (λ row. length row.items ≡ length explored.now.scripts.now) }
    ensures apart { OnOk result (AreApart (map kept_reply replies.new.items)) }
    ensures more { OnOk result (GoesOn (map kept_reply replies.old.items) (map kept_reply replies.new.items)) }
{
    let mut row = Vec::with_capacity(alloc, explored.scripts.len())?;
    for process in 0..explored.scripts.len() {
        row.push(edge_of(alloc, explored, place, process, replies)?)?;
    }
    Ok(row)
}

/// The graph of all places.
pub(crate) fn graph_of<O: Object>(alloc: Global, explored: &Explored<O>) -> Result<Graph, NoMemory>
    ensures rows { IfOk result (λ graph. ∥ AreRows (O.effect explored.now.object.now) (calls_in explored.now.scripts.now) (all_kept O.meaning explored.now.seen)
        (map kept_reply graph.replies.items) (length (all_kept O.meaning explored.now.seen)) (rows_in graph.rows.items) ∥₁) }
    ensures narrow { IfOk result (λ graph. IsNarrow (rows_in graph.rows.items) (length explored.now.scripts.now)) }
    ensures apart { IfOk result (λ graph. AreApart (map kept_reply graph.replies.items)) }
{
    let mut replies = Vec::new(alloc);
    let mut rows = Vec::with_capacity(alloc, explored.len())?;
    for place in 0..explored.len() {
        rows.push(row_of(alloc, explored, place, &mut replies)?)?;
    }
    Ok(Graph { rows, replies })
}
