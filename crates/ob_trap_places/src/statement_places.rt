//! The places of operations in statements.

ghost use Rattle.std.specs.Prelude.{◌≡◌};
ghost use Rattle.ob_grammar.specs.View.{expr_of, stmt_of, stmts_in};
ghost use Rattle.ob_trap_places.specs.Places as Places;
ghost use Rattle.ob_trap_places.specs.Bodies.{actuals_in, branch_places, call_places};

use crate::expression_places::{in_expression, in_selectors, itself};
use ob_grammar::tree::{Branch, Expr, Stmt};

/// The place of the operation that a path leads to from the statements of a construct.
#[cycle(statements)]
pub fn in_body(statements: &[Stmt], path: &[usize]) -> Option<usize>
    ensures { result ≡ Places.of_parts (Places.parts_of_statements (stmts_in statements.now)) path.now }
{
    let (number, further) = path.split_first()?;
    in_statements(statements, *number, further)
}

/// From the statement of a number, where empty ones are not counted.
#[cycle(statements)]
fn in_statements(statements: &[Stmt], number: usize, path: &[usize]) -> Option<usize>
    ensures { result ≡ Places.parts_of_statements (stmts_in statements.now) number path.now }
{
    let mut left = number;
    for statement in statements {
        if let Stmt::Empty = statement {
            continue;
        }
        if left == 0 {
            return in_statement(statement, path);
        }
        left -= 1;
    }
    None
}

/// From a statement.
#[cycle(statements)]
fn in_statement(statement: &Stmt, path: &[usize]) -> Option<usize>
    ensures { result ≡ Places.places_in_statement (stmt_of statement.now) path.now }
{
    match statement {
        Stmt::Empty => None,
        Stmt::Assign { target, value } => match path.split_first() {
            Some((0, further)) => in_selectors(target.selectors.as_slice(), further),
            Some((1, further)) => in_expression(value, further),
            _ => None,
        },
        Stmt::Call { procedure, actuals } => in_call(procedure.place, actuals, path),
        Stmt::If {
            branches,
            otherwise,
            ..
        } => {
            let (number, further) = path.split_first()?;
            let all = branches.as_slice();
            match all.get(*number) {
                Some(branch) => in_branch(branch, further),
                None => match otherwise {
                    Some(body) => in_else(body.as_slice(), *number - all.len(), further),
                    None => None,
                },
            }
        }
        Stmt::While {
            place,
            condition,
            body,
        } => match path.split_first() {
            Some((0, further)) => itself(*place, further),
            Some((1, further)) => in_expression(condition, further),
            Some((2, further)) => in_body(body.as_slice(), further),
            _ => None,
        },
        Stmt::Repeat {
            place,
            body,
            condition,
        } => match path.split_first() {
            Some((0, further)) => itself(*place, further),
            Some((1, further)) => in_body(body.as_slice(), further),
            Some((2, further)) => in_expression(condition, further),
            _ => None,
        },
    }
}

/// From a call: its name, and the actuals behind it.
fn in_call(place: usize, actuals: &Option<Vec<Expr>>, path: &[usize]) -> Option<usize>
    ensures { result ≡ call_places place (actuals_in actuals.now) path.now }
{
    match path.split_first() {
        None => None,
        Some((0, further)) => itself(place, further),
        Some((part, further)) => in_actuals(actuals, *part - 1, further),
    }
}

/// From the actual of a number.
fn in_actuals(actuals: &Option<Vec<Expr>>, number: usize, path: &[usize]) -> Option<usize>
    ensures { result ≡ Places.parts_of_actuals (actuals_in actuals.now) number path.now }
{
    let Some(actuals) = actuals else {
        return None;
    };
    match actuals.get(number) {
        Some(actual) => in_expression(actual, path),
        None => None,
    }
}

/// From the statements behind ELSE, which are the only part there.
#[cycle(statements)]
fn in_else(statements: &[Stmt], number: usize, path: &[usize]) -> Option<usize>
    ensures { result ≡ Places.before (Places.of_parts (Places.parts_of_statements (stmts_in statements.now))) Places.no_part number path.now }
{
    if number == 0 {
        in_body(statements, path)
    } else {
        None
    }
}

/// From a branch.
#[cycle(statements)]
fn in_branch(branch: &Branch, path: &[usize]) -> Option<usize>
    ensures { result ≡ branch_places (expr_of branch.now.condition) (stmts_in branch.now.body.items) path.now }
{
    match path.split_first() {
        Some((0, further)) => in_expression(&branch.condition, further),
        Some((1, further)) => in_body(branch.body.as_slice(), further),
        _ => None,
    }
}
