//! What is known of a value while a module is checked.

ghost use Rattle.std.specs.Prelude.{◌≡◌, option_map};
ghost use Rattle.ob_checked.specs.Traps.{evaluated};
ghost use Rattle.ob_typing.specs.Arithmetic as Arithmetics;
ghost use Rattle.ob_typing.specs.Expressions as Typing;
ghost use Rattle.ob_scopes.specs.Usages.{use_of};

use ob_checked::operators::{compared, complement, computed, decides, negated};
use ob_checked::trap::Trap;
use ob_grammar::tree::Sign;
use ob_interface::scalar::Scalar;
use ob_typing::operator::{BinaryOperator, Relation};

/// Where an expression stands.
#[derive(Clone, Copy, PartialEq, Eq)]
pub enum Usage {
    /// In a statement: its value is found when the program runs.
    InStatement,
    /// In a constant expression: its value is found at once.
    InConstant,
    /// In a constant expression, behind what decides: it is checked and not computed.
    NotComputed,
}

/// The value where it is found at once.
pub fn known(usage: Usage, value: Scalar) -> Option<Scalar>
    ensures { result ≡ Typing.known (use_of usage) value }
{
    match usage {
        Usage::InConstant => Some(value),
        Usage::InStatement | Usage::NotComputed => None,
    }
}

/// Where the operand behind an operator and a value stands.
pub fn behind(usage: Usage, operator: BinaryOperator, left: Option<Scalar>) -> Usage
    ensures { use_of result ≡ Typing.behind (use_of usage) operator left }
{
    match left {
        Some(value) => {
            if decides(operator, value) {
                Usage::NotComputed
            } else {
                usage
            }
        }
        None => usage,
    }
}

/// The value of an operation, where that of its left operand is known; one that decides is the value.
pub fn value_behind(
    operator: BinaryOperator,
    left: Option<Scalar>,
    right: Option<Scalar>,
) -> Result<Option<Scalar>, Trap>
    ensures { evaluated result ≡ Typing.value_behind operator left right }
{
    match (left, right) {
        (None, _) => Ok(None),
        (Some(left), None) => Ok(Some(left)),
        (Some(left), Some(right)) => {
            let value = computed(operator, left, right)?;
            Ok(Some(value))
        }
    }
}

/// The value behind a sign.
pub fn value_signed(sign: Option<Sign>, value: Option<Scalar>) -> Result<Option<Scalar>, Trap>
    ensures { evaluated result ≡ Typing.value_signed sign value }
{
    match (sign, value) {
        (Some(sign), Some(value)) => {
            if !sign.is_minus {
                return Ok(Some(value));
            }
            let value = negated(value)?;
            Ok(Some(value))
        }
        (Some(_), None) => Ok(None),
        (None, value) => Ok(value),
    }
}

/// What `~` gives of a value that is known.
pub fn value_complement(value: Option<Scalar>) -> Option<Scalar>
    ensures { result ≡ option_map Arithmetics.complement value }
{
    match value {
        Some(value) => Some(complement(value)),
        None => None,
    }
}

/// The value of a comparison, where both are known.
pub fn value_compared(
    relation: Relation,
    left: Option<Scalar>,
    right: Option<Scalar>,
) -> Option<Scalar>
    ensures { result ≡ Typing.value_compared relation left right }
{
    match (left, right) {
        (Some(left), Some(right)) => Some(compared(relation, left, right)),
        (Some(_), None) | (None, _) => None,
    }
}
