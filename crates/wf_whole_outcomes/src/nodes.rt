//! What a search keeps of where a way leads.

ghost use Rattle.std.specs.Prelude.{◌≡◌, ◌<◌, ◌++◌, ◌∷◌, [], length, slice_get, slice_set, Some, IfOk, IfSome, OnOk};
ghost use Rattle.wf_whole_outcomes.specs.Graph.{GoesOn, spot_on};
ghost use Rattle.wf_whole_outcomes.specs.Nodes.{AreLists, IsLinkOf, IsNode, list_with, lists_in, spot_in};

use crate::edges::Edge;
use indexmap::IndexSet;
use ob_interface::NoMemory;
use smallvec::SmallVec;
use std::alloc::{AllocError, Global};
use wf_lookup::keys::Keys;

/// A list, by its number, and a reply behind it.
#[derive(Clone, Copy, PartialEq, Eq, Hash)]
pub struct Link {
    pub list: usize,
    pub reply: usize,
}

/// Lists of the numbers of replies, each once: first the empty one, and then of each link the list that it makes. What is kept of a list
/// is its number, and to make one longer, no list is gone over: its link is looked up. The link that was looked up last behind a list is
/// tried first.
#[derive(Drop)]
pub struct Lists {
    pub links: IndexSet<Link, Keys>,
    pub items: Vec<Vec<usize>>,
    /// Of each list the number of the longer one that was asked for last.
    pub lasts: Vec<usize>,
}

/// Of each process the number of the list of its replies so far.
pub type Told = SmallVec<usize, 4>;

/// A place of the graph, and the replies so far.
#[derive(Drop, PartialEq, Eq, Hash)]
pub struct Node {
    pub place: usize,
    pub told: Told,
}

/// The nodes of one layer, in the order in which they were found.
pub type Layer = IndexSet<Node, Keys>;

/// A list with one reply more.
fn with_reply(alloc: Global, list: &[usize], reply: usize) -> Result<Vec<usize>, AllocError>
    ensures { IfOk result (λ longer. longer.items ≡ list.now ++ reply ∷ []) }
{
    let mut longer = Vec::with_capacity(alloc, list.len() + 1)?;
    longer.extend_from_slice(list)?;
    longer.push(reply)?;
    Ok(longer)
}

/// The number of the list with one reply more, where that was asked for last.
fn last_longer(lists: &Lists, list: usize, reply: usize) -> Option<usize>
    ensures { IfSome result (λ number. IsLinkOf lists.now.links.keys list reply number) }
{
    let number = *lists.lasts.get(list)?;
    let link = lists.links.get_index(number.checked_sub(1)?)?;
    if link.list == list && link.reply == reply {
        Some(number)
    } else {
        None
    }
}

/// Notes which longer list was asked for last.
fn set_last(lasts: &mut [usize], list: usize, number: usize) {
    if let Some(last) = lasts.get_mut(list) {
        *last = number;
    }
}

/// The number of the list with one reply more.
fn longer(alloc: Global, lists: &mut Lists, list: usize, reply: usize) -> Result<usize, NoMemory>
    requires list { list < length (lists_in lists.old) }
    requires lists { AreLists lists.old }
    ensures there { IfOk result (λ number. slice_get (lists_in lists.new) number ≡ Some (list_with (lists_in lists.old) list reply)) }
    ensures lists { OnOk result (AreLists lists.new) }
    ensures more { OnOk result (GoesOn (lists_in lists.old) (lists_in lists.new)) }
{
    if let Some(number) = last_longer(lists, list, reply) {
        return Ok(number);
    }
    let many = lists.items.len();
    let (link, is_new) = lists.links.insert_full(Link { list, reply })?;
    set_last(&mut lists.lasts, list, link + 1);
    if !is_new {
        return Ok(link + 1);
    }
    let items = with_reply(alloc, &lists.items[list], reply)?;
    lists.items.push(items)?;
    lists.lasts.push(0)?;
    Ok(many)
}

/// Where the node's replies are with another list for a process.
fn with_list(alloc: Global, told: &Told, process: usize, number: usize) -> Result<Told, AllocError>
    ensures { IfOk result (λ new. new.items ≡ slice_set told.now.items process number) }
{
    let mut new = SmallVec::from_slice(alloc, told.as_slice())?;
    if let Some(list) = new.get_mut(process) {
        *list = number;
    }
    Ok(new)
}

/// Where an edge of a process leads from a node.
pub(crate) fn node_on(
    alloc: Global,
    lists: &mut Lists,
    node: &Node,
    process: usize,
    edge: Edge,
) -> Result<Node, NoMemory>
    requires process { process < length node.now.told.items }
    requires node { IsNode (lists_in lists.old) (length node.now.told.items) node.now }
    requires lists { AreLists lists.old }
    ensures spot { IfOk result (λ on. spot_in (lists_in lists.new) on ≡ spot_on (spot_in (lists_in lists.old) node.now) process edge) }
    ensures node { IfOk result (IsNode (lists_in lists.new) (length node.now.told.items)) }
    ensures lists { OnOk result (AreLists lists.new) }
    ensures more { OnOk result (GoesOn (lists_in lists.old) (lists_in lists.new)) }
{
    let number = longer(alloc, lists, node.told[process], edge.reply)?;
    let told = with_list(alloc, &node.told, process, number)?;
    Ok(Node {
        place: edge.to,
        told,
    })
}
