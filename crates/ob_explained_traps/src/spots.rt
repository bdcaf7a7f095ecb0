//! At which places of a module's text calls trap, which of them is the first there, and how many there are.

ghost use Rattle.std.specs.Prelude.{◌≡◌, ◌<◌, IfOk, count_by, length, map, option_map};
ghost use Rattle.std.specs.List.{list_any};
ghost use Rattle.ob_explained_traps.specs.TrapPlaces.{count_at, is_first, spot_of, spots_of, traps_at};
ghost use Rattle.ob_grammar.specs.View.{module_of};
ghost use Rattle.ob_trap_places.specs.Reaching.{site_of};

use ob_grammar::tree::ModuleTree;
use ob_trap_places::site::Site;
use ob_trap_places::site_places::place_of;
use std::alloc::{AllocError, Global};

/// A trap's number, and the place of its operation in the text.
#[derive(Clone, Copy)]
pub(crate) struct Spot {
    pub(crate) number: u8,
    pub(crate) place: usize,
}

/// Where calls trap whose traps come from these sites.
pub(crate) fn spots_of(
    alloc: Global,
    tree: &ModuleTree,
    sites: &[Option<Site>],
) -> Result<Vec<Option<Spot>>, AllocError>
    ensures { IfOk result (λ spots. spots.items ≡ spots_of (module_of tree.now) (map (option_map site_of) sites.now)) }
{
    let mut spots = Vec::new(alloc);
    for site in sites {
        spots.push(spot_of(tree, site))?;
    }
    Ok(spots)
}

/// Where a call traps, if it traps.
fn spot_of(tree: &ModuleTree, site: &Option<Site>) -> Option<Spot>
    ensures { result ≡ spot_of (module_of tree.now) (option_map site_of site.now) }
{
    match site {
        Some(site) => {
            let place = place_of(tree, site.procedure, site.path.as_slice())?;
            Some(Spot {
                number: site.number,
                place,
            })
        }
        None => None,
    }
}

/// Whether the call at a position traps, and none before it traps there.
pub(crate) fn is_first(spots: &[Option<Spot>], position: usize) -> bool
    requires { position < length spots.now }
    ensures { result ≡ is_first spots.now position }
{
    match spots[position] {
        Some(spot) => !is_met(&spots[..position], spot),
        None => false,
    }
}

/// How many of the calls trap where the one at a position does.
pub(crate) fn count_at(spots: &[Option<Spot>], position: usize) -> usize
    requires { position < length spots.now }
    ensures { result ≡ count_at spots.now position }
{
    match spots[position] {
        Some(spot) => count_there(spots, spot),
        None => 0,
    }
}

/// Whether one of these calls traps there. The last one is looked at first, since calls that trap at one place mostly come together.
#[tactic(auto, using(crate::proofs::Earlier::met_before, crate::proofs::Earlier::met_last))]
fn is_met(spots: &[Option<Spot>], spot: Spot) -> bool
    ensures { result ≡ list_any (traps_at spot) spots.now }
{
    let mut left = spots;
    while let [earlier @ .., last] = left {
        if traps_at(spot, *last) {
            return true;
        }
        left = earlier;
    }
    false
}

/// How many of these calls trap there.
fn count_there(spots: &[Option<Spot>], spot: Spot) -> usize
    ensures { result ≡ count_by (traps_at spot) spots.now }
{
    spots.iter().filter(|call| traps_at(spot, **call)).count()
}

/// Whether a call that traps where it does traps there.
fn traps_at(spot: Spot, call: Option<Spot>) -> bool
    ensures { result ≡ traps_at spot call }
{
    match call {
        Some(other) => spot.number == other.number && spot.place == other.place,
        None => false,
    }
}
