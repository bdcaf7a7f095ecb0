//! The tasks that a work list needs room for.

ghost use Rattle.std.specs.Prelude.{◌≡◌, ◌≤◌, ◌∷◌, [], ◌+◌, ◌*◌, List, map, min};
ghost use Rattle.ob_typing.specs.Program.{no_branch};
ghost use Rattle.ob_tree.specs.Rooms.{most_room};
ghost use Rattle.ob_tree_law.specs.TreeEngine.{work_room};
ghost use Rattle.ob_tree_law.specs.Reserve as Counts;
ghost use Rattle.ob_checked.specs.Types.{Entry};
ghost use Rattle.ob_checked.specs.CheckedModule.{program_in};
ghost use Rattle.ob_checked.specs.View.{expression_of, operations_in, selectors_in, designator_of, actual_of, statement_of, statements_in, branches_in, procedure_of};

use ob_checked::checked::Checked;
use ob_checked::program::{
    Actual, Branch, Designator, Expression, Operation, Procedure, Selector, Statement,
};

/// The most tasks that an expression comes to; the greatest number where they are more.
#[cycle(values)]
fn value_most(expression: &Expression) -> usize
    ensures { result ≡ min (Counts.value_most (expression_of expression.now)) usize.MAX }
{
    match expression {
        Expression::Literal(_) => 1,
        Expression::ValueOf { variable, .. } => address_most(variable).saturating_add(1),
        Expression::Negated(operand) => value_most(operand).saturating_add(1),
        Expression::Complement(operand) => value_most(operand).saturating_add(1),
        Expression::Computed { first, rest } => {
            let most = value_most(first).saturating_add(1);
            most.max(operators_most(rest.as_slice()))
        }
        Expression::Compared { left, right, .. } => {
            let most = value_most(left).saturating_add(2);
            most.max(value_most(right).saturating_add(1))
        }
    }
}

/// The same of operators with their operands.
#[cycle(values)]
fn operators_most(operations: &[Operation]) -> usize
    ensures { result ≡ min (Counts.operators_most (operations_in operations.now)) usize.MAX }
{
    let mut most = 0;
    for operation in operations {
        let operand = value_most(&operation.operand);
        most = most.max(operand.saturating_add(2));
    }
    most.max(1)
}

/// The same of a selector.
#[cycle(values)]
fn selector_most(selector: &Selector) -> usize
    ensures { result ≡ min (Counts.selecting_most (selectors_in (selector.now ∷ []))) usize.MAX }
{
    match selector {
        Selector::Field { .. } => 2,
        Selector::Element { index, .. } => value_most(index).saturating_add(2).max(1),
    }
}

/// The same of a variable.
#[cycle(values)]
fn address_most(designator: &Designator) -> usize
    ensures { result ≡ min (Counts.address_most (designator_of designator.now)) usize.MAX }
{
    let mut most = 3;
    for selector in &designator.selectors {
        most = most.max(selector_most(selector));
    }
    most
}

/// The same of an actual.
fn actual_most(actual: &Actual) -> usize
    ensures { result ≡ min (Counts.actual_most (actual_of actual.now)) usize.MAX }
{
    match actual {
        Actual::Value(expression) => value_most(expression),
        Actual::Place(designator) => address_most(designator),
    }
}

/// The same of actuals.
fn handing_most(actuals: &[Actual]) -> usize
    ensures { result ≡ min (Counts.handing_most (map actual_of actuals.now)) usize.MAX }
{
    let mut most = 0;
    for actual in actuals {
        most = most.max(actual_most(actual).saturating_add(1));
    }
    most.max(1)
}

/// The same of a statement.
#[cycle(statements)]
fn doing_most(statement: &Statement) -> usize
    ensures { result ≡ min (Counts.doing_most (statement_of statement.now)) usize.MAX }
{
    match statement {
        Statement::Assign { target, value } => {
            let most = address_most(target).saturating_add(2);
            most.max(value_most(value).saturating_add(1))
        }
        Statement::Call { actuals, .. } => handing_most(actuals.as_slice()).saturating_add(1),
        Statement::If {
            branches,
            otherwise,
        } => {
            let most = choosing_most(branches.as_slice());
            match otherwise {
                Some(body) => most.max(all_most(body.as_slice())),
                None => most,
            }
        }
        Statement::While { condition, body } => {
            let most = value_most(condition).saturating_add(1);
            most.max(all_most(body.as_slice()).saturating_add(1).max(3))
        }
        Statement::Repeat { body, condition } => {
            let most = value_most(condition).saturating_add(1);
            most.max(all_most(body.as_slice()).saturating_add(2)).max(4)
        }
    }
}

/// The same of branches, with nothing behind them.
#[cycle(statements)]
fn choosing_most(branches: &[Branch]) -> usize
    ensures { result ≡ min (Counts.choosing_most (branches_in branches.now no_branch)) usize.MAX }
{
    let mut most = 0;
    for branch in branches {
        most = most.max(value_most(&branch.condition).saturating_add(1));
        most = most.max(all_most(branch.body.as_slice()).saturating_add(1));
    }
    most.max(1)
}

/// The same of statements one after the other.
#[cycle(statements)]
fn all_most(statements: &[Statement]) -> usize
    ensures { result ≡ min (Counts.all_most (statements_in statements.now)) usize.MAX }
{
    let mut most = 0;
    for statement in statements {
        most = most.max(doing_most(statement).saturating_add(1));
    }
    most.max(1)
}

/// The most tasks of one activation of the procedures.
fn activation_most(procedures: &[Procedure]) -> usize
    ensures { (types : List Entry) → result ≡ min (Counts.activation_most (map (procedure_of types) procedures.now)) usize.MAX }
{
    let mut most = 0;
    for procedure in procedures {
        let body = all_most(procedure.body.as_slice()).saturating_add(1);
        most = most.max(body.max(3));
    }
    most
}

/// The tasks that a work list needs room for: of 64 activations, and three more; the greatest number where they are more.
fn work_tasks(procedures: &[Procedure]) -> usize
    ensures { (types : List Entry) → result ≡ min (64 * Counts.activation_most (map (procedure_of types) procedures.now) + 3) usize.MAX }
{
    let most = activation_most(procedures);
    most.saturating_mul(64).saturating_add(3)
}

/// A law, which does nothing: the work list of a checked module needs little room, since constructs of its text stand at most 100 deep.
pub fn needs_little_room(checked: &Checked)
    ensures { work_room (program_in checked.now) ≤ most_room }
{
    let _typed = checked.program();
    let _tree = checked.module().tree();
}

/// The tasks that the work list of a checked module needs room for.
pub fn room_for_work(checked: &Checked) -> usize
    ensures { result ≡ work_room (program_in checked.now) }
{
    needs_little_room(checked);
    work_tasks(checked.program().procedures.as_slice())
}
