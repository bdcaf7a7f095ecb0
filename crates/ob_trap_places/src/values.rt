//! The values of expressions.

ghost use Rattle.std.specs.Prelude.{◌≡◌, IfOk};
ghost use Rattle.ob_checked.specs.View.{expression_of, operations_in, designator_of, slot_of};
ghost use Rattle.ob_meaning.specs.ByPositionEvaluation.{by_position};
ghost use Rattle.ob_meaning.specs.ByPositionStore as Stores;
ghost use Rattle.ob_store.specs.View.{place_in, store_in};
ghost use Rattle.ob_interface.specs.declared.scalar.ScalarType.TheVariants.{Integer};
ghost use Rattle.ob_typing.specs.Program as Programs;
ghost use Rattle.ob_trap_places.specs.Site as Sites;
ghost use Rattle.ob_trap_places.specs.SitesOverStore as Sited;
ghost use Rattle.ob_trap_places.specs.Reaching.{Reaches, applied_in, position_in};

use crate::site::{Cause, Halt, at, inside};
use ob_checked::operators::{compared, complement, computed, decides, negated, number_of};
use ob_checked::program::{Designator, Expression, Operation, Owner, Selector, Slot};
use ob_interface::scalar::Scalar;
use ob_mean::expressions::scalar_of;
use ob_store::before::copy_place;
use ob_store::index::index_within;
use ob_store::store::{Lent, Place, Store};
use smallvec::SmallVec;
use std::alloc::{AllocError, Global};

/// The value of an expression, from left to right.
#[cycle(values)]
pub fn value(alloc: Global, store: &Store, expression: &Expression) -> Result<Scalar, Halt>
    ensures { Reaches (λ s. s) (Sited.value_of by_position (store_in store.now) (expression_of expression.now)) result }
{
    match expression {
        Expression::Literal(scalar) => Ok(*scalar),
        Expression::ValueOf { variable, .. } => value_of_variable(alloc, store, variable),
        Expression::Negated(operand) => {
            let x = value_of_part(alloc, store, 1, operand)?;
            at(alloc, 0, Cause::Negating(x), negated(x))
        }
        Expression::Complement(operand) => {
            let x = value_of_part(alloc, store, 1, operand)?;
            Ok(complement(x))
        }
        Expression::Computed { first, rest } => {
            let x = value_of_part(alloc, store, 0, first)?;
            value_behind(alloc, store, x, rest.as_slice())
        }
        Expression::Compared {
            relation,
            left,
            right,
        } => {
            let x = value_of_part(alloc, store, 0, left)?;
            let y = value_of_part(alloc, store, 2, right)?;
            Ok(compared(*relation, x, y))
        }
    }
}

/// The scalar of a variable or a part of it.
#[cycle(values)]
fn value_of_variable(alloc: Global, store: &Store, variable: &Designator) -> Result<Scalar, Halt>
    ensures { Reaches (λ s. s) (Sited.value_of by_position (store_in store.now) (Programs.ValueOf Integer (designator_of variable.now))) result }
{
    let place = place(alloc, store, variable)?;
    Ok(scalar_of(store.value_at(&place)))
}

/// The value of an expression that is this part of a construct.
#[cycle(values)]
pub fn value_of_part(
    alloc: Global,
    store: &Store,
    part: usize,
    expression: &Expression,
) -> Result<Scalar, Halt>
    ensures { Reaches (λ s. s) (Sites.of_part part (Sited.value_of by_position (store_in store.now) (expression_of expression.now))) result }
{
    match value(alloc, store, expression) {
        Ok(scalar) => Ok(scalar),
        Err(halt) => Err(inside(part, halt)),
    }
}

/// From a value, through the operators behind it.
#[cycle(values)]
fn value_behind(
    alloc: Global,
    store: &Store,
    first: Scalar,
    operations: &[Operation],
) -> Result<Scalar, Halt>
    ensures { Reaches (λ s. s) (Sited.value_behind by_position (store_in store.now) 1 first (operations_in operations.now)) result }
{
    let mut value = first;
    for (number, operation) in operations.iter().enumerate() {
        value = applied_in_part(alloc, store, number + 1, value, operation)?;
    }
    Ok(value)
}

/// What an operator of this part makes of a value.
#[cycle(values)]
fn applied_in_part(
    alloc: Global,
    store: &Store,
    part: usize,
    value: Scalar,
    operation: &Operation,
) -> Result<Scalar, Halt>
    ensures { Reaches (λ s. s) (Sites.of_part part (applied_in (store_in store.now) value operation.now)) result }
{
    match applied(alloc, store, value, operation) {
        Ok(scalar) => Ok(scalar),
        Err(halt) => Err(inside(part, halt)),
    }
}

/// What an operator makes of a value. Its operand is evaluated only where it does not decide.
#[cycle(values)]
fn applied(
    alloc: Global,
    store: &Store,
    value: Scalar,
    operation: &Operation,
) -> Result<Scalar, Halt>
    ensures { Reaches (λ s. s) (applied_in (store_in store.now) value operation.now) result }
{
    if decides(operation.operator, value) {
        return Ok(value);
    }
    let operand = value_of_part(alloc, store, 1, &operation.operand)?;
    let cause = Cause::Operating {
        operator: operation.operator,
        left: value,
        right: operand,
    };
    at(
        alloc,
        0,
        cause,
        computed(operation.operator, value, operand),
    )
}

/// The place that the variable of a slot stands for: its own, or the one that it refers to.
fn place_of_slot(alloc: Global, store: &Store, slot: &Slot) -> Result<Place, AllocError>
    ensures { IfOk result (λ p. place_in p ≡ Stores.place_of_slot (store_in store.now) (slot_of slot.now)) }
{
    let position = slot.position;
    let activation = match slot.owner {
        Owner::Module => 0,
        Owner::Own => store.running(),
    };
    if let Owner::Own = slot.owner
        && let Some(Lent::Place(place)) = store.held_at(activation, position)
    {
        return copy_place(alloc, place);
    }
    Ok(Place {
        activation,
        position,
        path: SmallVec::new(alloc),
    })
}

/// The place of a variable or a part of it.
#[cycle(values)]
pub fn place(alloc: Global, store: &Store, variable: &Designator) -> Result<Place, Halt>
    ensures { Reaches place_in (Sited.place_of by_position (store_in store.now) (designator_of variable.now)) result }
{
    let mut place = place_of_slot(alloc, store, &variable.slot)?;
    for (part, selector) in variable.selectors.iter().enumerate() {
        let position = position_of(alloc, store, part, selector)?;
        place.path.push(position)?;
    }
    Ok(place)
}

/// The place of a variable or a part of it that is this part of a construct.
pub fn place_of_part(
    alloc: Global,
    store: &Store,
    part: usize,
    variable: &Designator,
) -> Result<Place, Halt>
    ensures { Reaches place_in (Sites.of_part part (Sited.place_of by_position (store_in store.now) (designator_of variable.now))) result }
{
    match place(alloc, store, variable) {
        Ok(place) => Ok(place),
        Err(halt) => Err(inside(part, halt)),
    }
}

/// The position that a selector of this part leads to.
#[cycle(values)]
fn position_of(
    alloc: Global,
    store: &Store,
    part: usize,
    selector: &Selector,
) -> Result<usize, Halt>
    ensures { Reaches (λ i. i) (position_in (store_in store.now) part selector.now) result }
{
    match selector {
        Selector::Field { position, .. } => Ok(*position),
        Selector::Element { length, index } => match index_of(alloc, store, *length, index) {
            Ok(position) => Ok(position),
            Err(halt) => Err(inside(part, halt)),
        },
    }
}

/// An index, in its brackets, of an array of so many elements.
#[cycle(values)]
fn index_of(alloc: Global, store: &Store, length: usize, index: &Expression) -> Result<usize, Halt>
    ensures { Reaches (λ i. i) (Sited.indexed length (Sited.value_of by_position (store_in store.now) (expression_of index.now))) result }
{
    let x = value_of_part(alloc, store, 1, index)?;
    let index = number_of(x);
    at(
        alloc,
        0,
        Cause::Indexing { length, index },
        index_within(length, index),
    )
}
