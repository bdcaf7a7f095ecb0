//! The code of statements, behind code that stands already.

ghost use Rattle.std.specs.Prelude.{◌≡◌, IfOk, OnOk, map};
ghost use Rattle.ob_typing.specs.Program as Programs;
ghost use Rattle.ob_checked.specs.View.{expression_of, designator_of, actual_of, statement_of, statements_in, branches_in, otherwise_of};
ghost use Rattle.ob_code.specs.Behind.{actual_behind, actuals_behind, alternative_behind, assignment_behind, branches_behind, jump_place, statement_behind, statements_behind};
ghost use Rattle.ob_code.specs.Growing.{grown, is_more, over};
ghost use Rattle.ob_code.specs.Limits.{IsWithinLimits};

use crate::entries::Entries;
use crate::expressions::{put_designator, put_expression};
use crate::growth::push;
use crate::scopes::Scopes;
use ob_checked::program::{Actual, Branch, Designator, Expression, Statement};
use ob_code_machine::{Code, Instr};
use std::alloc::AllocError;

/// The address of the target, the value, PUT.
fn put_assignment(
    scopes: &Scopes<'_>,
    code: &mut Code,
    target: &Designator,
    value: &Expression,
) -> Result<(), AllocError>
    requires { IsWithinLimits (assignment_behind scopes.now code.old (designator_of target.now) (expression_of value.now)) }
    ensures { OnOk result (code.new ≡ assignment_behind scopes.now code.old (designator_of target.now) (expression_of value.now)) }
{
    put_designator(scopes, code, target)?;
    put_expression(scopes, code, value)?;
    push(code, Instr::Put)
}

/// The value of an actual, or for a VAR parameter its address.
fn put_actual(scopes: &Scopes<'_>, code: &mut Code, actual: &Actual) -> Result<(), AllocError>
    requires { IsWithinLimits (actual_behind scopes.now code.old (actual_of actual.now)) }
    ensures { OnOk result (code.new ≡ actual_behind scopes.now code.old (actual_of actual.now)) }
{
    match actual {
        Actual::Value(expression) => put_expression(scopes, code, expression),
        Actual::Place(designator) => put_designator(scopes, code, designator),
    }
}

/// Actuals one behind the other.
fn put_actuals(scopes: &Scopes<'_>, code: &mut Code, actuals: &[Actual]) -> Result<(), AllocError>
    requires { IsWithinLimits (actuals_behind scopes.now code.old (map actual_of actuals.now)) }
    ensures { OnOk result (code.new ≡ actuals_behind scopes.now code.old (map actual_of actuals.now)) }
{
    for actual in actuals {
        put_actual(scopes, code, actual)?;
    }
    Ok(())
}

/// The actuals, CALL.
fn put_call(
    scopes: &Scopes<'_>,
    entries: &Entries,
    code: &mut Code,
    procedure: usize,
    actuals: &[Actual],
) -> Result<(), AllocError>
    requires { IsWithinLimits (statement_behind scopes.now entries.now code.old (Programs.Call procedure (map actual_of actuals.now))) }
    ensures { OnOk result (code.new ≡ statement_behind scopes.now entries.now code.old (Programs.Call procedure (map actual_of actuals.now))) }
{
    let entry = entries.entry(procedure) as u16;
    let parameters = actuals.len() as u16;
    put_actuals(scopes, code, actuals)?;
    push(code, Instr::Call { entry, parameters })
}

/// Statements one behind the other.
#[cycle(statements)]
pub fn put_statements(
    scopes: &Scopes<'_>,
    entries: &Entries,
    code: &mut Code,
    statements: &[Statement],
) -> Result<(), AllocError>
    requires { IsWithinLimits (statements_behind scopes.now entries.now code.old (statements_in statements.now)) }
    ensures { OnOk result (code.new ≡ statements_behind scopes.now entries.now code.old (statements_in statements.now)) }
{
    for statement in statements {
        put_statement(scopes, entries, code, statement)?;
    }
    Ok(())
}

/// One statement.
#[cycle(statements)]
fn put_statement(
    scopes: &Scopes<'_>,
    entries: &Entries,
    code: &mut Code,
    statement: &Statement,
) -> Result<(), AllocError>
    requires { IsWithinLimits (statement_behind scopes.now entries.now code.old (statement_of statement.now)) }
    ensures { OnOk result (code.new ≡ statement_behind scopes.now entries.now code.old (statement_of statement.now)) }
{
    match statement {
        Statement::Assign { target, value } => put_assignment(scopes, code, target, value),
        Statement::Call { procedure, actuals } => {
            put_call(scopes, entries, code, *procedure, actuals.as_slice())
        }
        Statement::If {
            branches,
            otherwise,
        } => put_branches(scopes, entries, code, branches.as_slice(), otherwise),
        Statement::While { condition, body } => {
            put_while(scopes, entries, code, condition, body.as_slice())
        }
        Statement::Repeat { body, condition } => {
            put_repeat(scopes, entries, code, body.as_slice(), condition)
        }
    }
}

/// The condition, JF to the end, TURN, the statements, JMP to the condition.
#[cycle(statements)]
fn put_while(
    scopes: &Scopes<'_>,
    entries: &Entries,
    code: &mut Code,
    condition: &Expression,
    body: &[Statement],
) -> Result<(), AllocError>
    requires { IsWithinLimits (statement_behind scopes.now entries.now code.old (Programs.While (expression_of condition.now) (statements_in body.now))) }
    ensures { OnOk result (code.new ≡ statement_behind scopes.now entries.now code.old (Programs.While (expression_of condition.now) (statements_in body.now))) }
{
    let start = code.end();
    put_expression(scopes, code, condition)?;
    let place = code.end();
    push(code, Instr::JumpIfFalse { target: 0 })?;
    push(code, Instr::Turn)?;
    put_statements(scopes, entries, code, body)?;
    push(code, Instr::Jump { target: start })?;
    let target = code.end();
    code.set(place, Instr::JumpIfFalse { target });
    Ok(())
}

/// TURN, the statements, the condition, JF to TURN.
#[cycle(statements)]
fn put_repeat(
    scopes: &Scopes<'_>,
    entries: &Entries,
    code: &mut Code,
    body: &[Statement],
    condition: &Expression,
) -> Result<(), AllocError>
    requires { IsWithinLimits (statement_behind scopes.now entries.now code.old (Programs.Repeat (statements_in body.now) (expression_of condition.now))) }
    ensures { OnOk result (code.new ≡ statement_behind scopes.now entries.now code.old (Programs.Repeat (statements_in body.now) (expression_of condition.now))) }
{
    let start = code.end();
    push(code, Instr::Turn)?;
    put_statements(scopes, entries, code, body)?;
    put_expression(scopes, code, condition)?;
    push(code, Instr::JumpIfFalse { target: start })
}

/// Whether an alternative or ELSE follows.
pub fn follows(branches: &[Branch], otherwise: &Option<Vec<Statement>>) -> bool
    ensures { result ≡ is_more (branches_in branches.now (otherwise_of otherwise.now)) }
{
    if branches.is_empty() {
        return otherwise.is_some();
    }
    true
}

/// The jump over what follows, whose target is not known yet.
fn put_over(code: &mut Code, more: bool) -> Result<(), AllocError>
    requires { IsWithinLimits (grown code.old (over more 0)) }
    ensures { OnOk result (code.new ≡ grown code.old (over more 0)) }
{
    if more {
        return push(code, Instr::Jump { target: 0 });
    }
    Ok(())
}

/// One alternative: the condition, JF behind it, the statements, and JMP where others follow. Answers the place of that JMP.
#[cycle(statements)]
fn put_branch(
    scopes: &Scopes<'_>,
    entries: &Entries,
    code: &mut Code,
    branch: &Branch,
    more: bool,
) -> Result<u16, AllocError>
    requires { IsWithinLimits (alternative_behind scopes.now entries.now code.old branch.now more) }
    ensures code { OnOk result (code.new ≡ alternative_behind scopes.now entries.now code.old branch.now more) }
    ensures place { IfOk result (λ place. place ≡ jump_place scopes.now code.old branch.now) }
{
    put_expression(scopes, code, &branch.condition)?;
    let place = code.end();
    push(code, Instr::JumpIfFalse { target: 0 })?;
    put_statements(scopes, entries, code, branch.body.as_slice())?;
    let end = code.end();
    put_over(code, more)?;
    let target = code.end();
    code.set(place, Instr::JumpIfFalse { target });
    Ok(end)
}

/// Alternatives and ELSE; each JMP learns where the last of them ends.
#[cycle(statements)]
fn put_branches(
    scopes: &Scopes<'_>,
    entries: &Entries,
    code: &mut Code,
    branches: &[Branch],
    otherwise: &Option<Vec<Statement>>,
) -> Result<(), AllocError>
    requires { IsWithinLimits (branches_behind scopes.now entries.now code.old (branches_in branches.now (otherwise_of otherwise.now))) }
    ensures { OnOk result (code.new ≡ branches_behind scopes.now entries.now code.old (branches_in branches.now (otherwise_of otherwise.now))) }
{
    let Some((first, rest)) = branches.split_first() else {
        return match otherwise {
            Some(body) => put_statements(scopes, entries, code, body.as_slice()),
            None => Ok(()),
        };
    };
    let more = follows(rest, otherwise);
    let place = put_branch(scopes, entries, code, first, more)?;
    put_branches(scopes, entries, code, rest, otherwise)?;
    if !more {
        return Ok(());
    }
    let target = code.end();
    code.set(place, Instr::Jump { target });
    Ok(())
}
