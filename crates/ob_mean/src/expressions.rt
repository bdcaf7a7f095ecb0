//! The values of expressions.

ghost use Rattle.std.specs.Prelude.{◌≡◌};
ghost use Rattle.ob_checked.specs.View.{expression_of, operations_in, designator_of, slot_of};
ghost use Rattle.ob_meaning.specs.ByPositionEvaluation as Evaluation;
ghost use Rattle.ob_checked.specs.Traps.{evaluated};
ghost use Rattle.ob_store.specs.View.{value_or_zero, store_in};
ghost use Rattle.ob_meaning.specs.ByPositionStore as Stores;
ghost use Rattle.ob_meaning.specs.ByPositionValue as Values;
ghost use Rattle.ob_typing.specs.Arithmetic as Arithmetics;
ghost use Rattle.ob_mean.specs.Evaluating.{read_of, position_of};

use ob_checked::operators::{compared, complement, computed, decides, negated, number_of};
use ob_checked::program::{Designator, Expression, Operation, Owner, Selector, Slot};
use ob_checked::trap::Trap;
use ob_interface::scalar::Scalar;
use ob_store::index::index_within;
use ob_store::store::{Lent, Store};
use ob_store::value::Value;

/// The value of the variable that a slot stands for, if there is one: of one of its own, or of the place that it
/// refers to.
#[inline]
pub fn value_of_slot<'s>(store: &'s Store, slot: &Slot) -> Option<&'s Value>
    ensures { value_or_zero result
        ≡ Stores.value_at (store_in store.now) (Stores.place_of_slot (store_in store.now) (slot_of slot.now)) }
{
    match slot.owner {
        Owner::Module => store.own_value(0, slot.position),
        Owner::Own => match store.held_at(store.running(), slot.position) {
            Some(Lent::Value(value)) => Some(value),
            Some(Lent::Place(place)) => store.value_at(place),
            None => None,
        },
    }
}

/// The value of an expression, from left to right. Literals and whole variables, as most operands are, are read without a
/// call.
#[cycle(evaluation)]
#[inline(always)]
pub fn evaluate(store: &Store, expression: &Expression) -> Result<Scalar, Trap>
    ensures { evaluated result
        ≡ Evaluation.value_of (store_in store.now) (expression_of expression.now) }
{
    match expression {
        Expression::Literal(scalar) => Ok(*scalar),
        Expression::ValueOf { variable, .. } if variable.selectors.is_empty() => {
            Ok(scalar_of(value_of_slot(store, &variable.slot)))
        }
        _ => evaluate_parts(store, expression),
    }
}

/// The same of any expression, with a call for its parts.
#[cycle(evaluation)]
#[inline(never)]
fn evaluate_parts(store: &Store, expression: &Expression) -> Result<Scalar, Trap>
    ensures { evaluated result
        ≡ Evaluation.value_of (store_in store.now) (expression_of expression.now) }
{
    match expression {
        Expression::Literal(scalar) => Ok(*scalar),
        Expression::ValueOf { variable, .. } => read(store, variable),
        Expression::Negated(operand) => {
            let value = evaluate(store, operand)?;
            negated(value)
        }
        Expression::Complement(operand) => {
            let value = evaluate(store, operand)?;
            Ok(complement(value))
        }
        Expression::Computed { first, rest } => {
            let value = evaluate(store, first)?;
            evaluate_behind(store, value, rest.as_slice())
        }
        Expression::Compared {
            relation,
            left,
            right,
        } => {
            let x = evaluate(store, left)?;
            let y = evaluate(store, right)?;
            Ok(compared(*relation, x, y))
        }
    }
}

/// From a value, through the operators behind it. An operand is evaluated only where its operator does not decide.
#[cycle(evaluation)]
fn evaluate_behind(store: &Store, first: Scalar, operations: &[Operation]) -> Result<Scalar, Trap>
    ensures { evaluated result
        ≡ Evaluation.value_behind (store_in store.now) first (operations_in operations.now) }
{
    let mut value = first;
    for operation in operations {
        value = applied(store, value, operation)?;
    }
    Ok(value)
}

/// What one operator makes of a value.
#[cycle(evaluation)]
fn applied(store: &Store, value: Scalar, operation: &Operation) -> Result<Scalar, Trap>
    ensures { evaluated result
        ≡ Arithmetics.applied operation.now.operator value
        (Evaluation.value_of (store_in store.now) (expression_of operation.now.operand)) }
{
    if decides(operation.operator, value) {
        return Ok(value);
    }
    let operand = evaluate(store, &operation.operand)?;
    computed(operation.operator, value, operand)
}

/// The scalar of a variable or a part of it, read without building its place.
#[cycle(evaluation)]
fn read(store: &Store, variable: &Designator) -> Result<Scalar, Trap>
    ensures { evaluated result ≡ read_of (store_in store.now) (designator_of variable.now) }
{
    let mut value = value_of_slot(store, &variable.slot);
    for selector in &variable.selectors {
        let position = selected_position(store, selector)?;
        value = part_of(value, position);
    }
    Ok(scalar_of(value))
}

/// The part of a value, if there is one.
fn part_of(value: Option<&Value>, position: usize) -> Option<&Value>
    ensures { value_or_zero result ≡ Values.inside (value_or_zero value.entry) position }
{
    match value {
        Some(whole) => whole.inside(position),
        None => None,
    }
}

/// The scalar of a value, or 0 where there is none.
pub fn scalar_of(value: Option<&Value>) -> Scalar
    ensures { result ≡ Values.scalar_of (value_or_zero value.entry) }
{
    match value {
        Some(whole) => whole.scalar(),
        None => Scalar::Int(0),
    }
}

/// The position that a selector leads to.
#[cycle(evaluation)]
pub fn selected_position(store: &Store, selector: &Selector) -> Result<usize, Trap>
    ensures { evaluated result ≡ position_of (store_in store.now) selector.now }
{
    match selector {
        Selector::Field { position, .. } => Ok(*position),
        Selector::Element { length, index } => {
            let value = evaluate(store, index)?;
            index_within(*length, number_of(value))
        }
    }
}
