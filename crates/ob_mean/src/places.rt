//! Places that a run builds: the targets of assignments, and what actuals hand over.

ghost use Rattle.std.specs.Prelude.{◌≡◌, IfOk, OnErr, OnOk, map};
ghost use Rattle.ob_checked.specs.View.{designator_of, slot_of, actual_of};
ghost use Rattle.ob_meaning.specs.ByPositionEvaluation as Evaluation;
ghost use Rattle.ob_meaning.specs.ByPositionStore as Stores;
ghost use Rattle.ob_meaning.specs.ByPositionValue as Values;
ghost use Rattle.ob_store.specs.Begun.{begun_in};
ghost use Rattle.ob_store.specs.View.{place_in, held_in, activation_in, store_in};
ghost use Rattle.ob_mean.specs.Evaluating.{Answers};

use crate::expressions::{evaluate, selected_position};
use ob_checked::program::{Actual, Designator, Owner, Slot};
use ob_checked::trap::{Trap, trap_number};
use ob_interface::scalar::Scalar;
use ob_store::before::copy_place;
use ob_store::store::{Held, Lent, Place, Store};
use ob_store::value::Value;
use smallvec::SmallVec;
use std::alloc::{AllocError, AllocFailed, Global};

/// Why a run isn't done.
#[derive(Clone, Copy)]
pub enum Stop {
    /// The number of a trap.
    Trap(u8),
    /// Want of memory.
    NoMemory,
}

impl From<Trap> for Stop {
    ghost use Rattle.std.specs.Prelude.{◌≡◌};
    ghost use Rattle.ob_checked.specs.Traps.{trap_number};
    ghost use Rattle.ob_mean.specs.declared.places.Stop.TheVariants as Stops;

    ghost from_gives = { λ trap stop. stop ≡ Stops.Trap (trap_number trap) };

    fn from(trap: Trap) -> Stop {
        Stop::Trap(trap_number(trap))
    }
}

impl From<AllocError> for Stop {
    ghost use Rattle.std.specs.Prelude.{◌≡◌};
    ghost use Rattle.ob_mean.specs.declared.places.Stop.TheVariants as Stops;

    ghost from_gives = { λ _ stop. stop ≡ Stops.NoMemory };

    fn from(_: AllocError) -> Stop {
        Stop::NoMemory
    }
}

impl<T: Drop> From<AllocFailed<T>> for Stop {
    ghost use Rattle.std.specs.Prelude.{◌≡◌};
    ghost use Rattle.ob_mean.specs.declared.places.Stop.TheVariants as Stops;

    ghost from_gives = { λ _ stop. stop ≡ Stops.NoMemory };

    fn from(_: AllocFailed<T>) -> Stop {
        Stop::NoMemory
    }
}

/// The place that the variable of a slot stands for: its own, or the one that it refers to.
fn place_of_slot(alloc: Global, store: &Store, slot: &Slot) -> Result<Place, AllocError>
    ensures { IfOk result (λ p. place_in p ≡ Stores.place_of_slot (store_in store.now) (slot_of slot.now)) }
{
    let position = slot.position;
    let activation = match slot.owner {
        Owner::Module => 0,
        Owner::Own => store.running(),
    };
    if let Owner::Own = slot.owner
        && let Some(Lent::Place(place)) = store.held_at(activation, position)
    {
        return copy_place(alloc, place);
    }
    Ok(Place {
        activation,
        position,
        path: SmallVec::new(alloc),
    })
}

/// The place of a variable or a part of it.
pub fn place_of(alloc: Global, store: &Store, variable: &Designator) -> Result<Place, Stop>
    ensures { Answers place_in (Evaluation.place_of (store_in store.now) (designator_of variable.now)) result }
{
    let mut place = place_of_slot(alloc, store, &variable.slot)?;
    for selector in &variable.selectors {
        let position = selected_position(store, selector)?;
        place.path.push(position)?;
    }
    Ok(place)
}

/// Puts a scalar in the place that the variable of a slot stands for, without building it where that isn't needed.
#[inline]
pub fn set_slot(
    alloc: Global,
    store: &mut Store,
    slot: &Slot,
    scalar: Scalar,
) -> Result<(), AllocError>
    ensures stored { OnOk result (store_in store.new
        ≡ Stores.stored (store_in store.old) (Stores.place_of_slot (store_in store.old) (slot_of slot.now)) (Values.Single scalar)) }
    ensures kept { OnErr result (store_in store.new ≡ store_in store.old) }
    ensures begun { begun_in store.new ≡ begun_in store.old }
{
    match slot.owner {
        Owner::Module => store.set_whole(alloc, 0, slot.position, scalar),
        Owner::Own => store.set_own(alloc, slot.position, scalar),
    }
}

/// What an actual hands over: a copy of a value, or a place.
fn handed(alloc: Global, store: &Store, actual: &Actual) -> Result<Held, Stop>
    ensures { Answers held_in (Evaluation.handed (store_in store.now) (actual_of actual.now)) result }
{
    match actual {
        Actual::Value(expression) => {
            let scalar = evaluate(store, expression)?;
            Ok(Held::Holds(Value::Single(scalar)))
        }
        Actual::Place(variable) => {
            let place = place_of(alloc, store, variable)?;
            Ok(Held::Refers(place))
        }
    }
}

/// What actuals hand over, from the first to the last, with room for so many variables behind it.
pub fn all_handed(
    alloc: Global,
    store: &Store,
    actuals: &[Actual],
    room: usize,
) -> Result<Vec<Held>, Stop>
    ensures { Answers activation_in
        (Evaluation.all_handed (store_in store.now) (map actual_of actuals.now)) result }
{
    let mut all = Vec::with_capacity(alloc, actuals.len().saturating_add(room))?;
    for actual in actuals {
        let held = handed(alloc, store, actual)?;
        all.push(held)?;
    }
    Ok(all)
}
