//! One layer more.

ghost use Rattle.std.specs.Prelude.{◌≡◌, ◌<◌, ◌+◌, ◌≤◌, [], length, OnOk, IfOk, IsErrOf};
ghost use Rattle.wf_whole_outcomes.specs.Graph.{AreApart, GoesOn, IsNarrow, next_from, rows_in};
ghost use Rattle.wf_whole_outcomes.specs.Layers.{GrowsOver};
ghost use Rattle.wf_whole_outcomes.specs.Nodes.{AreLists, AreNodes, IsArrived, IsGrown, IsNode, lists_in, spot_in, spots_in};

use crate::edges::{Edge, known_edge};
use crate::layers::LayersFault;
use crate::nodes::{Layer, Lists, Node, node_on};
use ob_interface::NoMemory;
use std::alloc::Global;
use std::hash::RandomState;
use wf_lookup::keys::Keys;

/// Over which edges a search goes, of how many processes, and with which keys of its tables.
#[derive(Clone, Copy)]
pub struct Ground<'a> {
    pub alloc: Global,
    pub rows: &'a [Vec<Option<Edge>>],
    pub processes: usize,
    pub keys: RandomState,
}

/// From which place of the layer before, and by the call of which process, a node was first reached.
#[derive(Clone, Copy)]
pub struct Came {
    pub from: usize,
    pub by: usize,
}

/// A layer as far as it is known, where its nodes came from, and the lists that they speak of.
#[derive(Drop)]
pub struct Growing {
    pub lists: Lists,
    pub layer: Layer,
    pub came: Vec<Came>,
}

/// One is reached, which is kept if it is new.
fn arrive(growing: &mut Growing, node: Node, came: Came) -> Result<(), NoMemory>
    requires apart { AreApart (lists_in growing.old.lists) }
    requires nodes { AreNodes (lists_in growing.old.lists) (length node.told.items) growing.old.layer.keys }
    requires node { IsNode (lists_in growing.old.lists) (length node.told.items) node }
    ensures lists { OnOk result (growing.new.lists ≡ growing.old.lists) }
    ensures nodes { OnOk result (AreNodes (lists_in growing.old.lists) (length node.told.items) growing.new.layer.keys) }
    ensures arrived { OnOk result (IsArrived (spots_in (lists_in growing.old.lists) growing.old.layer.keys) growing.old.came.items
        (spots_in (lists_in growing.old.lists) growing.new.layer.keys) growing.new.came.items (spot_in (lists_in growing.old.lists) node) came) }
{
    if !growing.layer.insert(node)? {
        return Ok(());
    }
    growing.came.push(came)?;
    Ok(())
}

/// Tries the next call of a process from a node of the layer.
fn advance(
    ground: &Ground<'_>,
    growing: &mut Growing,
    layer: &Layer,
    came: Came,
) -> Result<(), NoMemory>
    requires from { came.from < length layer.now.keys }
    requires by { came.by < ground.now.processes }
    requires grown { IsGrown (rows_in ground.now.rows.now) ground.now.processes layer.now.keys came.from came.by growing.old }
    ensures grown { OnOk result (IsGrown (rows_in ground.now.rows.now) ground.now.processes layer.now.keys came.from (came.by + 1) growing.new) }
    ensures more { OnOk result (GoesOn (lists_in growing.old.lists) (lists_in growing.new.lists)) }
{
    let node = &layer[came.from];
    let Some(edge) = known_edge(ground.rows, node.place, came.by) else {
        return Ok(());
    };
    let there = node_on(ground.alloc, &mut growing.lists, node, came.by, edge)?;
    arrive(growing, there, came)?;
    Ok(())
}

/// Tries the next call of each process from a node of the layer.
fn expand(
    ground: &Ground<'_>,
    growing: &mut Growing,
    layer: &Layer,
    from: usize,
) -> Result<(), NoMemory>
    requires narrow { IsNarrow (rows_in ground.now.rows.now) ground.now.processes }
    requires from { from < length layer.now.keys }
    requires grown { IsGrown (rows_in ground.now.rows.now) ground.now.processes layer.now.keys from 0 growing.old }
    ensures grown { OnOk result (IsGrown (rows_in ground.now.rows.now) ground.now.processes layer.now.keys (from + 1) 0 growing.new) }
    ensures more { OnOk result (GoesOn (lists_in growing.old.lists) (lists_in growing.new.lists)) }
{
    for by in 0..ground.processes {
        advance(ground, growing, layer, Came { from, by })?;
    }
    Ok(())
}

/// Nothing is reached yet behind a layer with so many nodes. There is room for twice as many, but for no more than may be reached: most
/// layers have fewer.
fn nothing_reached(
    ground: &Ground<'_>,
    lists: Lists,
    before: usize,
    most: usize,
) -> Result<Growing, NoMemory>
    ensures lists { IfOk result (λ g. g.lists ≡ lists) }
    ensures layer { IfOk result (λ g. g.layer.keys ≡ []) }
    ensures came { IfOk result (λ g. g.came.items ≡ []) }
{
    let room = before.saturating_mul(2).min(most);
    let layer = Layer::with_capacity_and_hasher(ground.alloc, room, Keys::new(ground.keys))?;
    let came = Vec::with_capacity(ground.alloc, room)?;
    Ok(Growing { lists, layer, came })
}

/// The layer behind a layer, if it has no more nodes than there is room for.
pub(crate) fn layer_behind(
    ground: &Ground<'_>,
    lists: Lists,
    layer: &Layer,
    room: usize,
) -> Result<Growing, LayersFault>
    requires narrow { IsNarrow (rows_in ground.now.rows.now) ground.now.processes }
    requires lists { AreLists lists }
    requires nodes { AreNodes (lists_in lists) ground.now.processes layer.now.keys }
    ensures grown { IfOk result (IsGrown (rows_in ground.now.rows.now) ground.now.processes layer.now.keys (length layer.now.keys) 0) }
    ensures more { IfOk result (λ g. GoesOn (lists_in lists) (lists_in g.lists)) }
    ensures few { IfOk result (λ g. length g.layer.keys ≤ room) }
    ensures most { IsErrOf result LayersFault.TooMany → GrowsOver (next_from (rows_in ground.now.rows.now)) (spots_in (lists_in lists) layer.now.keys) room }
{
    let mut growing = nothing_reached(ground, lists, layer.len(), room)?;
    for from in 0..layer.len() {
        expand(ground, &mut growing, layer, from)?;
        if growing.layer.len() > room {
            return Err(LayersFault::TooMany);
        }
    }
    Ok(growing)
}
