//! What the actuals of a call hand over.

ghost use Rattle.std.specs.Prelude.{◌≡◌, map};
ghost use Rattle.ob_checked.specs.View.{actual_of};
ghost use Rattle.ob_meaning.specs.ByPositionEvaluation.{by_position};
ghost use Rattle.ob_store.specs.View.{held_in, activation_in, store_in};
ghost use Rattle.ob_trap_places.specs.Site as Sites;
ghost use Rattle.ob_trap_places.specs.SitesOverStore as Sited;
ghost use Rattle.ob_trap_places.specs.Reaching.{Reaches};

use crate::site::{Halt, inside};
use crate::values::{place, value};
use ob_checked::program::Actual;
use ob_store::store::{Held, Store};
use ob_store::value::Value;
use std::alloc::Global;

/// What an actual hands over: a copy of a value, or a place.
fn handed(alloc: Global, store: &Store, actual: &Actual) -> Result<Held, Halt>
    ensures { Reaches held_in (Sited.handed by_position (store_in store.now) (actual_of actual.now)) result }
{
    match actual {
        Actual::Value(expression) => {
            let scalar = value(alloc, store, expression)?;
            Ok(Held::Holds(Value::Single(scalar)))
        }
        Actual::Place(variable) => {
            let place = place(alloc, store, variable)?;
            Ok(Held::Refers(place))
        }
    }
}

/// What an actual hands over that is this part of a call.
fn handed_in_part(alloc: Global, store: &Store, part: usize, actual: &Actual) -> Result<Held, Halt>
    ensures { Reaches held_in (Sites.of_part part (Sited.handed by_position (store_in store.now) (actual_of actual.now))) result }
{
    match handed(alloc, store, actual) {
        Ok(held) => Ok(held),
        Err(halt) => Err(inside(part, halt)),
    }
}

/// What actuals hand over, from the first to the last.
pub fn all_handed(alloc: Global, store: &Store, actuals: &[Actual]) -> Result<Vec<Held>, Halt>
    ensures { Reaches activation_in (Sited.all_handed by_position (store_in store.now) 1 (map actual_of actuals.now)) result }
{
    let mut all = Vec::new(alloc);
    for (number, actual) in actuals.iter().enumerate() {
        let held = handed_in_part(alloc, store, number + 1, actual)?;
        all.push(held)?;
    }
    Ok(all)
}
