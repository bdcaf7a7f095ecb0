//! The places of operations in expressions.

ghost use Rattle.std.specs.Prelude.{◌≡◌};
ghost use Rattle.ob_grammar.specs.View.{expr_of, operands_in, selectors_in};
ghost use Rattle.ob_trap_places.specs.Places as Places;
ghost use Rattle.ob_trap_places.specs.Bodies.{selector_places};

use ob_grammar::tree::{Expr, Operand, Selector, Sign};

/// The place itself, where the path ends there.
pub fn itself(place: usize, path: &[usize]) -> Option<usize>
    ensures { result ≡ Places.itself place path.now }
{
    match path.split_first() {
        None => Some(place),
        Some(_) => None,
    }
}

/// The place of the operation that a path leads to from an expression.
#[cycle(expressions)]
pub fn in_expression(expression: &Expr, path: &[usize]) -> Option<usize>
    ensures { result ≡ Places.places_in (expr_of expression.now) path.now }
{
    match expression {
        Expr::Number { .. } => None,
        Expr::Named(variable) => in_selectors(variable.selectors.as_slice(), path),
        Expr::Parens { inner, .. } => in_expression(inner, path),
        Expr::Not { place, operand } => with_behind(*place, operand, path),
        Expr::Product { first, rest } => match path.split_first() {
            None => None,
            Some((0, further)) => in_expression(first, further),
            Some((part, further)) => in_operands(rest.as_slice(), *part - 1, further),
        },
        Expr::Sum { sign, first, rest } => match path.split_first() {
            None => None,
            Some((0, further)) => in_signed(*sign, first, further),
            Some((part, further)) => in_operands(rest.as_slice(), *part - 1, further),
        },
        Expr::Comparison {
            left,
            place,
            right,
            ..
        } => match path.split_first() {
            Some((0, further)) => in_expression(left, further),
            Some((1, further)) => itself(*place, further),
            Some((2, further)) => in_expression(right, further),
            _ => None,
        },
    }
}

/// From an operator or a bracket at a place, with what stands behind it.
#[cycle(expressions)]
fn with_behind(place: usize, behind: &Expr, path: &[usize]) -> Option<usize>
    ensures { result ≡ Places.with_behind place (Places.places_in (expr_of behind.now)) path.now }
{
    match path.split_first() {
        Some((0, further)) => itself(place, further),
        Some((1, further)) => in_expression(behind, further),
        _ => None,
    }
}

/// From an operand that may have a sign.
#[cycle(expressions)]
fn in_signed(sign: Option<Sign>, operand: &Expr, path: &[usize]) -> Option<usize>
    ensures { result ≡ Places.signed sign (Places.places_in (expr_of operand.now)) path.now }
{
    match sign {
        Some(sign) if sign.is_minus => with_behind(sign.place, operand, path),
        _ => in_expression(operand, path),
    }
}

/// From the operator of a number, with the operand behind it.
#[cycle(expressions)]
fn in_operands(operands: &[Operand], number: usize, path: &[usize]) -> Option<usize>
    ensures { result ≡ Places.parts_of_operands (operands_in operands.now) number path.now }
{
    match operands.get(number) {
        Some(operand) => with_behind(operand.place, &operand.value, path),
        None => None,
    }
}

/// From the selectors of a variable.
#[cycle(expressions)]
pub fn in_selectors(selectors: &[Selector], path: &[usize]) -> Option<usize>
    ensures { result ≡ Places.of_parts (Places.parts_of_selectors (selectors_in selectors.now)) path.now }
{
    let (number, further) = path.split_first()?;
    match selectors.get(*number) {
        Some(selector) => in_selector(selector, further),
        None => None,
    }
}

/// From a selector.
#[cycle(expressions)]
fn in_selector(selector: &Selector, path: &[usize]) -> Option<usize>
    ensures { result ≡ selector_places selector.now path.now }
{
    match selector {
        Selector::Field { place, .. } => itself(*place, path),
        Selector::Index { place, index } => with_behind(*place, index, path),
    }
}
