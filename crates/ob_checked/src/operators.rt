//! Operators on scalars.

ghost use Rattle.std.specs.Prelude.{◌≡◌, ◌+ℤ◌, ◌-ℤ◌, ◌*ℤ◌};
ghost use Rattle.std.specs.Int.{int_div_euclid, int_rem_euclid};
ghost use Rattle.ob_typing.specs.Arithmetic as Arithmetics;
ghost use Rattle.ob_checked.specs.Traps.{evaluated};

use crate::trap::Trap;
use ob_interface::scalar::{Scalar, ScalarType};
use ob_typing::operator::{BinaryOperator, Relation};

/// The type of a scalar.
pub fn type_of(scalar: Scalar) -> ScalarType
    ensures { result ≡ Arithmetics.type_of scalar }
{
    match scalar {
        Scalar::Int(_) => ScalarType::Integer,
        Scalar::Bool(_) => ScalarType::Boolean,
    }
}

/// The number of a scalar that is one.
pub fn number_of(scalar: Scalar) -> i32
    ensures { result ≡ Arithmetics.number_of scalar }
{
    match scalar {
        Scalar::Int(number) => number,
        Scalar::Bool(_) => 0,
    }
}

/// The truth value of a scalar that is one.
pub fn truth_of(scalar: Scalar) -> bool
    ensures { result ≡ Arithmetics.truth_of scalar }
{
    match scalar {
        Scalar::Bool(truth) => truth,
        Scalar::Int(_) => false,
    }
}

/// An INTEGER, or the trap where it is out of range.
fn in_range(number: i64) -> Result<Scalar, Trap>
    ensures { evaluated result ≡ Arithmetics.in_range number }
{
    if number < i64::from(i32::MIN) || number > i64::from(i32::MAX) {
        return Err(Trap::OutOfRange);
    }
    Ok(Scalar::Int(number as i32))
}

fn sum(left: i32, right: i32) -> Result<Scalar, Trap>
    ensures { evaluated result ≡ Arithmetics.in_range (left +ℤ right) }
{
    in_range(i64::from(left) + i64::from(right))
}

fn difference(left: i32, right: i32) -> Result<Scalar, Trap>
    ensures { evaluated result ≡ Arithmetics.in_range (left -ℤ right) }
{
    in_range(i64::from(left) - i64::from(right))
}

fn product(left: i32, right: i32) -> Result<Scalar, Trap>
    ensures { evaluated result ≡ Arithmetics.in_range (left *ℤ right) }
{
    in_range(i64::from(left) * i64::from(right))
}

/// The quotient, whose remainder is never negative.
fn quotient(left: i32, right: i32) -> Result<Scalar, Trap>
    ensures { evaluated result ≡ Arithmetics.divided int_div_euclid left right }
{
    if right <= 0 {
        return Err(Trap::BadDivisor);
    }
    in_range(i64::from(left.div_euclid(right)))
}

fn remainder(left: i32, right: i32) -> Result<Scalar, Trap>
    ensures { evaluated result ≡ Arithmetics.divided int_rem_euclid left right }
{
    if right <= 0 {
        return Err(Trap::BadDivisor);
    }
    in_range(i64::from(left.rem_euclid(right)))
}

/// What an operator gives for two scalars of its type.
pub fn computed(operator: BinaryOperator, left: Scalar, right: Scalar) -> Result<Scalar, Trap>
    ensures { evaluated result ≡ Arithmetics.computed operator left right }
{
    match operator {
        BinaryOperator::Plus => sum(number_of(left), number_of(right)),
        BinaryOperator::Minus => difference(number_of(left), number_of(right)),
        BinaryOperator::Times => product(number_of(left), number_of(right)),
        BinaryOperator::Div => quotient(number_of(left), number_of(right)),
        BinaryOperator::Mod => remainder(number_of(left), number_of(right)),
        BinaryOperator::And => Ok(Scalar::Bool(truth_of(left) && truth_of(right))),
        BinaryOperator::Or => Ok(Scalar::Bool(truth_of(left) || truth_of(right))),
    }
}

/// Whether a left operand decides, so that the right one is not evaluated.
pub fn decides(operator: BinaryOperator, left: Scalar) -> bool
    ensures { result ≡ Arithmetics.decides operator left }
{
    match operator {
        BinaryOperator::And => left == Scalar::Bool(false),
        BinaryOperator::Or => left == Scalar::Bool(true),
        BinaryOperator::Plus
        | BinaryOperator::Minus
        | BinaryOperator::Times
        | BinaryOperator::Div
        | BinaryOperator::Mod => false,
    }
}

/// What a minus gives.
pub fn negated(operand: Scalar) -> Result<Scalar, Trap>
    ensures { evaluated result ≡ Arithmetics.negated operand }
{
    in_range(-i64::from(number_of(operand)))
}

/// What `~` gives.
pub fn complement(operand: Scalar) -> Scalar
    ensures { result ≡ Arithmetics.complement operand }
{
    Scalar::Bool(!truth_of(operand))
}

/// Whether two scalars are the same.
pub fn equal(left: Scalar, right: Scalar) -> bool
    ensures { result ≡ Arithmetics.equal left right }
{
    match (left, right) {
        (Scalar::Int(x), Scalar::Int(y)) => x == y,
        (Scalar::Bool(a), Scalar::Bool(b)) => { if a { b } else { !b } }
        (Scalar::Int(_), Scalar::Bool(_)) | (Scalar::Bool(_), Scalar::Int(_)) => false,
    }
}

/// What a comparison gives.
pub fn compared(relation: Relation, left: Scalar, right: Scalar) -> Scalar
    ensures { result ≡ Arithmetics.compared relation left right }
{
    Scalar::Bool(match relation {
        Relation::Equal => equal(left, right),
        Relation::NotEqual => !equal(left, right),
        Relation::Less => number_of(left) < number_of(right),
        Relation::LessOrEqual => number_of(left) <= number_of(right),
        Relation::Greater => number_of(right) < number_of(left),
        Relation::GreaterOrEqual => number_of(right) <= number_of(left),
    })
}
