//! The search, layer by layer.

ghost use Rattle.std.specs.Prelude.{◌≡◌, ◌+◌, ◌≤◌, ◌∷◌, ◌++◌, [], length, IfOk, IsErrOf};
ghost use Rattle.wf_whole_outcomes.specs.Graph.{IsNarrow, next_from, rows_in};
ghost use Rattle.wf_whole_outcomes.specs.Layers.{HasOver};
ghost use Rattle.wf_whole_outcomes.specs.Nodes.{IsFirst, IsFront, first_spot, lists_in, trail_in};

use crate::growing::{Came, Ground, Growing, layer_behind};
use crate::nodes::{Layer, Lists, Node};
use indexmap::IndexSet;
use ob_interface::NoMemory;
use smallvec::SmallVec;
use std::alloc::Global;
use thiserror::Error;
use wf_lookup::keys::Keys;

/// Why a search gives up.
#[derive(Clone, Copy, Debug, Error)]
pub enum LayersFault {
    /// There are more nodes than were allowed.
    #[error("too many nodes")]
    TooMany,
    /// A growth was refused.
    #[error("NoMemory")]
    NoMemory,
}

impl From<NoMemory> for LayersFault {
    ghost use Rattle.std.specs.Prelude.{◌≡◌};
    ghost use Rattle.wf_whole_outcomes.specs.declared.layers.LayersFault.TheVariants as Faults;

    ghost from_gives = { λ _ e. e ≡ Faults.NoMemory };

    fn from(_: NoMemory) -> LayersFault {
        LayersFault::NoMemory
    }
}

/// Where a search stands: its last layer, the lists that this speaks of, where the nodes of all layers came from, and how many
/// these are.
#[derive(Drop)]
pub struct Front {
    pub lists: Lists,
    pub layer: Layer,
    pub trail: Vec<Vec<Came>>,
    pub many: usize,
}

/// The one list with nothing in it.
fn no_lists(ground: &Ground<'_>) -> Result<Lists, NoMemory>
    ensures lists { IfOk result (λ lists. lists_in lists ≡ [] ∷ []) }
    ensures links { IfOk result (λ lists. lists.links.keys ≡ []) }
{
    let links = IndexSet::with_hasher(ground.alloc, Keys::new(ground.keys));
    let mut items = Vec::new(ground.alloc);
    items.push(Vec::new(ground.alloc))?;
    let mut lasts = Vec::new(ground.alloc);
    lasts.push(0)?;
    Ok(Lists {
        links,
        items,
        lasts,
    })
}

/// The one node at which nothing is said.
fn first_layer(ground: &Ground<'_>) -> Result<Layer, NoMemory>
    ensures { IfOk result (λ layer. IsFirst ground.now.processes layer.keys) }
{
    let told = SmallVec::from_elem(ground.alloc, 0, ground.processes)?;
    let mut layer = Layer::with_hasher(ground.alloc, Keys::new(ground.keys));
    let _is_new = layer.insert(Node { place: 0, told })?;
    Ok(layer)
}

/// The front at which nothing is said.
fn begin(ground: &Ground<'_>) -> Result<Front, NoMemory>
    ensures front { IfOk result (IsFront (rows_in ground.now.rows.now) ground.now.processes) }
    ensures size { IfOk result (λ f. length f.trail.items ≡ 0) }
    ensures one { IfOk result (λ f. f.many ≡ 1) }
{
    let lists = no_lists(ground)?;
    let layer = first_layer(ground)?;
    let trail = Vec::new(ground.alloc);
    let many = 1;
    Ok(Front {
        lists,
        layer,
        trail,
        many,
    })
}

/// The front with this layer.
fn with_layer(trail: Vec<Vec<Came>>, many: usize, growing: Growing) -> Result<Front, NoMemory>
    ensures trail { IfOk result (λ f. trail_in f.trail.items ≡ trail_in trail.items ++ growing.came.items ∷ []) }
    ensures lists { IfOk result (λ f. f.lists ≡ growing.lists) }
    ensures layer { IfOk result (λ f. f.layer ≡ growing.layer) }
    ensures many { IfOk result (λ f. f.many ≡ many) }
{
    let mut trail = trail;
    let Growing { lists, layer, came } = growing;
    trail.push(came)?;
    Ok(Front {
        lists,
        layer,
        trail,
        many,
    })
}

/// The front one layer on, where there are at most so many nodes in all.
fn deeper(ground: &Ground<'_>, front: Front, most: usize) -> Result<Front, LayersFault>
    requires narrow { IsNarrow (rows_in ground.now.rows.now) ground.now.processes }
    requires front { IsFront (rows_in ground.now.rows.now) ground.now.processes front }
    requires few { front.many ≤ most }
    ensures front { IfOk result (IsFront (rows_in ground.now.rows.now) ground.now.processes) }
    ensures size { IfOk result (λ f. length f.trail.items ≡ length front.trail.items + 1) }
    ensures few { IfOk result (λ f. f.many ≤ most) }
    ensures most { IsErrOf result LayersFault.TooMany → HasOver (next_from (rows_in ground.now.rows.now)) (first_spot ground.now.processes) most }
{
    let Front {
        lists,
        layer,
        trail,
        many,
    } = front;
    let growing = layer_behind(ground, lists, &layer, most - many)?;
    let many = many + growing.layer.len();
    Ok(with_layer(trail, many, growing)?)
}

/// The front behind so many steps, where there are at most so many nodes in all.
pub fn search_all(ground: &Ground<'_>, steps: usize, most: usize) -> Result<Front, LayersFault>
    requires { IsNarrow (rows_in ground.now.rows.now) ground.now.processes }
    ensures front { IfOk result (IsFront (rows_in ground.now.rows.now) ground.now.processes) }
    ensures size { IfOk result (λ f. length f.trail.items ≡ steps) }
    // It gives up only where there are more.
    ensures most { IsErrOf result LayersFault.TooMany → HasOver (next_from (rows_in ground.now.rows.now)) (first_spot ground.now.processes) most }
{
    let mut front = begin(ground)?;
    if most == 0 {
        return Err(LayersFault::TooMany);
    }
    while front.trail.len() < steps {
        front = deeper(ground, front, most)?;
    }
    Ok(front)
}
