//! How many instructions stand for a construct; the greatest number where there are more.

ghost use Rattle.std.specs.Prelude.{◌≡◌, ◌≤◌, ◌+◌, [], ◌∷◌, min, map};
ghost use Rattle.ob_code_scheme.specs.Scheme as Scheme;
ghost use Rattle.ob_checked.specs.View.{owner_of, expression_of, operations_in, selectors_in, designator_of, actual_of, statement_of, statements_in, branches_in, otherwise_of};
ghost use Rattle.ob_code.specs.Growing.{over_many};
ghost use Rattle.ob_code.specs.Scoped.{own_in};

use crate::scopes::Scopes;
use crate::statements::follows;
use ob_checked::program::{
    Actual, Branch, Designator, Expression, Operation, Owner, Selector, Slot, Statement,
};

/// A variable: its address takes one instruction more where its word holds it.
fn variable_size(scopes: &Scopes<'_>, slot: &Slot) -> usize
    ensures { result ≡ Scheme.variable_size (own_in scopes.now) (owner_of slot.now.owner) slot.now.position }
{
    match slot.owner {
        Owner::Module => 1,
        Owner::Own => scopes.own_size(slot.position),
    }
}

/// An expression.
#[cycle(sizes)]
fn size(scopes: &Scopes<'_>, expression: &Expression) -> usize
    ensures { result ≡ min (Scheme.size (own_in scopes.now) (expression_of expression.now)) usize.MAX }
{
    match expression {
        Expression::Literal(_) => 1,
        Expression::ValueOf { variable, .. } => designator_size(scopes, variable).saturating_add(1),
        Expression::Negated(operand) => size(scopes, operand).saturating_add(1),
        Expression::Complement(operand) => size(scopes, operand).saturating_add(1),
        Expression::Computed { first, rest } => {
            let before = size(scopes, first);
            before.saturating_add(operations_size(scopes, rest.as_slice()))
        }
        Expression::Compared { left, right, .. } => {
            let before = size(scopes, left);
            before.saturating_add(size(scopes, right).saturating_add(1))
        }
    }
}

/// Operators with their operands.
#[cycle(sizes)]
fn operations_size(scopes: &Scopes<'_>, operations: &[Operation]) -> usize
    ensures { result ≡ min (Scheme.operations_size (own_in scopes.now) (operations_in operations.now)) usize.MAX }
{
    let mut sum: usize = 0;
    for operation in operations {
        let operand = size(scopes, &operation.operand);
        sum = sum.saturating_add(operand.saturating_add(1));
    }
    sum
}

/// A selector.
#[cycle(sizes)]
fn selector_size(scopes: &Scopes<'_>, selector: &Selector) -> usize
    ensures { result ≡ min (Scheme.selectors_size (own_in scopes.now) (selectors_in (selector.now ∷ []))) usize.MAX }
{
    match selector {
        Selector::Field { .. } => 1,
        Selector::Element { index, .. } => size(scopes, index).saturating_add(1),
    }
}

/// A variable or a part of it.
#[cycle(sizes)]
fn designator_size(scopes: &Scopes<'_>, designator: &Designator) -> usize
    ensures { result ≡ min (Scheme.designator_size (own_in scopes.now) (designator_of designator.now)) usize.MAX }
{
    let mut sum = variable_size(scopes, &designator.slot);
    for selector in &designator.selectors {
        sum = sum.saturating_add(selector_size(scopes, selector));
    }
    sum
}

/// An actual.
fn actual_size(scopes: &Scopes<'_>, actual: &Actual) -> usize
    ensures { result ≡ min (Scheme.actual_size (own_in scopes.now) (actual_of actual.now)) usize.MAX }
{
    match actual {
        Actual::Value(expression) => size(scopes, expression),
        Actual::Place(designator) => designator_size(scopes, designator),
    }
}

/// Actuals.
fn actuals_size(scopes: &Scopes<'_>, actuals: &[Actual]) -> usize
    ensures { result ≡ min (Scheme.actuals_size (own_in scopes.now) (map actual_of actuals.now)) usize.MAX }
{
    let mut sum: usize = 0;
    for actual in actuals {
        sum = sum.saturating_add(actual_size(scopes, actual));
    }
    sum
}

/// A statement.
#[cycle(statement_sizes)]
fn statement_size(scopes: &Scopes<'_>, statement: &Statement) -> usize
    ensures { result ≡ min (Scheme.statement_size (own_in scopes.now) (statement_of statement.now)) usize.MAX }
{
    match statement {
        Statement::Assign { target, value } => {
            let before = designator_size(scopes, target);
            before.saturating_add(size(scopes, value).saturating_add(1))
        }
        Statement::Call { actuals, .. } => {
            actuals_size(scopes, actuals.as_slice()).saturating_add(1)
        }
        Statement::If {
            branches,
            otherwise,
        } => branches_size(scopes, branches.as_slice(), otherwise),
        Statement::While { condition, body } => {
            let before = size(scopes, condition).saturating_add(3);
            before.saturating_add(statements_size(scopes, body.as_slice()))
        }
        Statement::Repeat { body, condition } => {
            let behind = size(scopes, condition).saturating_add(2);
            behind.saturating_add(statements_size(scopes, body.as_slice()))
        }
    }
}

/// The jump over what follows.
fn over_size(more: bool) -> usize
    ensures few { result ≤ 1 }
    ensures size { result ≡ over_many more }
{
    if more {
        return 1;
    }
    0
}

/// Alternatives and ELSE.
#[cycle(statement_sizes)]
fn branches_size(
    scopes: &Scopes<'_>,
    branches: &[Branch],
    otherwise: &Option<Vec<Statement>>,
) -> usize
    ensures { result ≡ min (Scheme.branches_size (own_in scopes.now) (branches_in branches.now (otherwise_of otherwise.now))) usize.MAX }
{
    let Some((first, rest)) = branches.split_first() else {
        return match otherwise {
            Some(body) => statements_size(scopes, body.as_slice()),
            None => 0,
        };
    };
    let more = follows(rest, otherwise);
    let before = size(scopes, &first.condition).saturating_add(1 + over_size(more));
    let inside = statements_size(scopes, first.body.as_slice());
    let behind = branches_size(scopes, rest, otherwise);
    before.saturating_add(inside.saturating_add(behind))
}

/// Statements one behind the other.
#[cycle(statement_sizes)]
pub fn statements_size(scopes: &Scopes<'_>, statements: &[Statement]) -> usize
    ensures { result ≡ min (Scheme.statements_size (own_in scopes.now) (statements_in statements.now)) usize.MAX }
{
    let mut sum: usize = 0;
    for statement in statements {
        sum = sum.saturating_add(statement_size(scopes, statement));
    }
    sum
}
