//! Operators as they are written, and the types that they take.

ghost use Rattle.std.specs.Prelude.{◌≡◌};
ghost use Rattle.ob_typing.specs.Arithmetic as Arithmetics;

use ob_grammar::tree::Operator;
use ob_interface::scalar::ScalarType;
use ob_typing::operator::{BinaryOperator, Relation};

/// The operator that is written so, where it is one of a chain.
pub fn operator_of(operator: Operator) -> Option<BinaryOperator>
    ensures { result ≡ Arithmetics.operator_of operator }
{
    match operator {
        Operator::Plus => Some(BinaryOperator::Plus),
        Operator::Minus => Some(BinaryOperator::Minus),
        Operator::Times => Some(BinaryOperator::Times),
        Operator::Div => Some(BinaryOperator::Div),
        Operator::Mod => Some(BinaryOperator::Mod),
        Operator::And => Some(BinaryOperator::And),
        Operator::Or => Some(BinaryOperator::Or),
        Operator::Equal
        | Operator::NotEqual
        | Operator::Less
        | Operator::LessOrEqual
        | Operator::Greater
        | Operator::GreaterOrEqual => None,
    }
}

/// The relation that is written so.
pub fn relation_of(operator: Operator) -> Option<Relation>
    ensures { result ≡ Arithmetics.relation_of operator }
{
    match operator {
        Operator::Equal => Some(Relation::Equal),
        Operator::NotEqual => Some(Relation::NotEqual),
        Operator::Less => Some(Relation::Less),
        Operator::LessOrEqual => Some(Relation::LessOrEqual),
        Operator::Greater => Some(Relation::Greater),
        Operator::GreaterOrEqual => Some(Relation::GreaterOrEqual),
        Operator::Plus
        | Operator::Minus
        | Operator::Or
        | Operator::Times
        | Operator::Div
        | Operator::Mod
        | Operator::And => None,
    }
}

/// The type that an operator takes, twice, and gives.
pub fn takes(operator: BinaryOperator) -> ScalarType
    ensures { result ≡ Arithmetics.takes operator }
{
    match operator {
        BinaryOperator::And | BinaryOperator::Or => ScalarType::Boolean,
        BinaryOperator::Plus
        | BinaryOperator::Minus
        | BinaryOperator::Times
        | BinaryOperator::Div
        | BinaryOperator::Mod => ScalarType::Integer,
    }
}

/// Whether two types are the same.
pub fn same_scalar_type(left: ScalarType, right: ScalarType) -> bool
    ensures { result ≡ Arithmetics.same_scalar_type left right }
{
    match (left, right) {
        (ScalarType::Integer, ScalarType::Integer) => true,
        (ScalarType::Boolean, ScalarType::Boolean) => true,
        (ScalarType::Integer, ScalarType::Boolean) => false,
        (ScalarType::Boolean, ScalarType::Integer) => false,
    }
}

/// Whether both operands have the type that the operator takes.
pub fn takes_both(operator: BinaryOperator, left: ScalarType, right: ScalarType) -> bool
    ensures { result ≡ Arithmetics.takes_both operator left right }
{
    same_scalar_type(left, takes(operator)) && same_scalar_type(right, takes(operator))
}

/// Whether a relation compares operands of these types.
pub fn compares(relation: Relation, left: ScalarType, right: ScalarType) -> bool
    ensures { result ≡ Arithmetics.compares relation left right }
{
    match relation {
        Relation::Equal | Relation::NotEqual => same_scalar_type(left, right),
        Relation::Less | Relation::LessOrEqual | Relation::Greater | Relation::GreaterOrEqual => {
            same_scalar_type(left, ScalarType::Integer)
                && same_scalar_type(right, ScalarType::Integer)
        }
    }
}
