//! The words that code needs above a frame.

ghost use Rattle.std.specs.Prelude.{◌≡◌, List, [], ◌∷◌, min, map};
ghost use Rattle.ob_typing.specs.Program.{no_branch};
ghost use Rattle.ob_code_scheme.specs.Temporaries as Counts;
ghost use Rattle.ob_checked.specs.Types.{Entry};
ghost use Rattle.ob_checked.specs.View.{expression_of, operations_in, selectors_in, designator_of, actual_of, statement_of, statements_in, branches_in, procedure_of};

use ob_checked::program::{
    Actual, Branch, Designator, Expression, Operation, Procedure, Selector, Statement,
};
use ob_typing::operator::BinaryOperator;

/// What a right operand with so many needs: the value of the left one lies below it, but not where that could decide.
fn behind_operator(operator: BinaryOperator, count: usize) -> usize
    ensures { result ≡ min (Counts.behind_operator operator count) usize.MAX }
{
    match operator {
        BinaryOperator::And | BinaryOperator::Or => count,
        _ => count.saturating_add(1),
    }
}

/// The most words that the code of an expression holds; the greatest number where they are more.
#[cycle(temporaries)]
fn temporaries(expression: &Expression) -> usize
    ensures { result ≡ min (Counts.temporaries (expression_of expression.now)) usize.MAX }
{
    match expression {
        Expression::Literal(_) => 1,
        Expression::ValueOf { variable, .. } => designator_temporaries(variable),
        Expression::Negated(operand) => temporaries(operand),
        Expression::Complement(operand) => temporaries(operand),
        Expression::Computed { first, rest } => {
            let most = temporaries(first);
            most.max(operations_temporaries(rest.as_slice()))
        }
        Expression::Compared { left, right, .. } => {
            let most = temporaries(left);
            most.max(temporaries(right).saturating_add(1))
        }
    }
}

/// The same of operators with their operands.
#[cycle(temporaries)]
fn operations_temporaries(operations: &[Operation]) -> usize
    ensures { result ≡ min (Counts.operations_temporaries (operations_in operations.now)) usize.MAX }
{
    let mut most = 0;
    for operation in operations {
        let operand = temporaries(&operation.operand);
        most = most.max(behind_operator(operation.operator, operand));
    }
    most
}

/// The same of a selector: an index lies above the address.
#[cycle(temporaries)]
fn selector_temporaries(selector: &Selector) -> usize
    ensures { result ≡ min (Counts.selectors_temporaries (selectors_in (selector.now ∷ []))) usize.MAX }
{
    match selector {
        Selector::Field { .. } => 0,
        Selector::Element { index, .. } => temporaries(index).saturating_add(1),
    }
}

/// The same of a variable.
#[cycle(temporaries)]
fn designator_temporaries(designator: &Designator) -> usize
    ensures { result ≡ min (Counts.designator_temporaries (designator_of designator.now)) usize.MAX }
{
    let mut most = 1;
    for selector in &designator.selectors {
        most = most.max(selector_temporaries(selector));
    }
    most
}

/// The same of an actual.
fn actual_temporaries(actual: &Actual) -> usize
    ensures { result ≡ min (Counts.actual_temporaries (actual_of actual.now)) usize.MAX }
{
    match actual {
        Actual::Value(expression) => temporaries(expression),
        Actual::Place(designator) => designator_temporaries(designator),
    }
}

/// The same of actuals, each of which lies below those behind it.
fn actuals_temporaries(actuals: &[Actual]) -> usize
    ensures { result ≡ min (Counts.actuals_temporaries (map actual_of actuals.now)) usize.MAX }
{
    match actuals.split_first() {
        None => 0,
        Some((first, rest)) => {
            let most = actual_temporaries(first);
            most.max(actuals_temporaries(rest).saturating_add(1))
        }
    }
}

/// The same of a statement.
#[cycle(statements)]
fn statement_temporaries(statement: &Statement) -> usize
    ensures { result ≡ min (Counts.statement_temporaries (statement_of statement.now)) usize.MAX }
{
    match statement {
        Statement::Assign { target, value } => {
            let most = designator_temporaries(target);
            most.max(temporaries(value).saturating_add(1))
        }
        Statement::Call { actuals, .. } => actuals_temporaries(actuals.as_slice()),
        Statement::If {
            branches,
            otherwise,
        } => {
            let most = branches_temporaries(branches.as_slice());
            match otherwise {
                Some(body) => most.max(statements_temporaries(body.as_slice())),
                None => most,
            }
        }
        Statement::While { condition, body } => {
            let most = temporaries(condition);
            most.max(statements_temporaries(body.as_slice()))
        }
        Statement::Repeat { body, condition } => {
            let most = temporaries(condition);
            most.max(statements_temporaries(body.as_slice()))
        }
    }
}

/// The same of branches, with nothing behind them.
#[cycle(statements)]
fn branches_temporaries(branches: &[Branch]) -> usize
    ensures { result ≡ min (Counts.branches_temporaries (branches_in branches.now no_branch)) usize.MAX }
{
    let mut most = 0;
    for branch in branches {
        most = most.max(temporaries(&branch.condition));
        most = most.max(statements_temporaries(branch.body.as_slice()));
    }
    most
}

/// The same of statements one after the other.
#[cycle(statements)]
fn statements_temporaries(statements: &[Statement]) -> usize
    ensures { result ≡ min (Counts.statements_temporaries (statements_in statements.now)) usize.MAX }
{
    let mut most = 0;
    for statement in statements {
        most = most.max(statement_temporaries(statement));
    }
    most
}

/// The same of procedures.
pub fn most_temporaries(procedures: &[Procedure]) -> usize
    ensures { (types : List Entry) → result ≡ min (Counts.most_temporaries (map (procedure_of types) procedures.now)) usize.MAX }
{
    let mut most = 0;
    for procedure in procedures {
        most = most.max(statements_temporaries(procedure.body.as_slice()));
    }
    most
}
