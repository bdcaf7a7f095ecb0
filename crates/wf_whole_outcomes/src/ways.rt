//! The ways to the nodes of the last layer.

ghost use Rattle.std.specs.Prelude.{◌≡◌, ◌∷◌, [], get_or, reverse, slice_get, OnOk};
ghost use Rattle.wf_whole_outcomes.specs.Layers.{ways_of};
ghost use Rattle.wf_whole_outcomes.specs.Nodes.{trail_in};

use crate::growing::Came;
use std::alloc::AllocError;

/// Where a node came from.
fn came_at(came: &[Came], at: usize) -> Option<Came>
    ensures { result ≡ slice_get came.now at }
{
    came.get(at).copied()
}

/// The steps that first led to a node of the last layer, the last one first, in place of what stood there.
pub fn way_back(way: &mut Vec<usize>, trail: &[Vec<Came>], at: usize) -> Result<(), AllocError>
    ensures { OnOk result (reverse way.new.items ≡ get_or (ways_of ([] ∷ []) (trail_in trail.now)) at []) }
{
    way.clear();
    let mut at = at;
    let mut depth = trail.len();
    while depth > 0 {
        depth -= 1;
        let Some(came) = came_at(&trail[depth], at) else {
            return Ok(());
        };
        way.push(came.by)?;
        at = came.from;
    }
    Ok(())
}
