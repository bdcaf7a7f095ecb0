//! Bodies that first answer of the state, and then note what they were given.

ghost use Rattle.std.specs.Prelude.{◌≡◌, Some, slice_get, true};
ghost use Rattle.ob_checked.specs.View.{designator_of, expression_of, statement_of};
ghost use Rattle.ob_state_replies.specs.AnswersAndNotes.{IsAnswer, IsNote, IsOfModule, IsPlain, IsResult, IsWhole, Keeps, modes_of};

use ob_checked::program::{Designator, Expression, Owner, Parameter, Procedure, Statement};

/// Whether it is a variable and no part of one.
fn is_whole(variable: &Designator) -> bool
    ensures { result ≡ true → IsWhole (designator_of variable.now) }
{
    variable.selectors.is_empty()
}

/// Whether it is a variable of the module and no part of one.
fn is_of_module(variable: &Designator) -> bool
    ensures { result ≡ true → IsOfModule (designator_of variable.now) }
{
    match variable.slot.owner {
        Owner::Module => is_whole(variable),
        Owner::Own => false,
    }
}

/// Whether the parameter at a position is a VAR parameter.
fn is_var(parameters: &[Parameter], position: usize) -> bool
    ensures { result ≡ true → slice_get (modes_of parameters.now) position ≡ Some true }
{
    match parameters.get(position) {
        Some(parameter) => parameter.is_var,
        None => false,
    }
}

/// Whether it is a VAR parameter and no part of one.
fn is_result(parameters: &[Parameter], variable: &Designator) -> bool
    ensures { result ≡ true → IsResult (modes_of parameters.now) (designator_of variable.now) }
{
    match variable.slot.owner {
        Owner::Module => false,
        Owner::Own => is_var(parameters, variable.slot.position) && is_whole(variable),
    }
}

/// Whether it is a literal, or the value of a variable of the module.
fn is_of_state(value: &Expression) -> bool
    ensures { result ≡ true → IsPlain IsOfModule (expression_of value.now) }
{
    match value {
        Expression::Literal(_) => true,
        Expression::ValueOf { variable, .. } => is_of_module(variable),
        _ => false,
    }
}

/// Whether it is a literal, or the value of a variable.
fn is_plain(value: &Expression) -> bool
    ensures { result ≡ true → IsPlain IsWhole (expression_of value.now) }
{
    match value {
        Expression::Literal(_) => true,
        Expression::ValueOf { variable, .. } => is_whole(variable),
        _ => false,
    }
}

/// Whether it gives a VAR parameter a literal, or the value of a variable of the module.
fn is_answer(parameters: &[Parameter], statement: &Statement) -> bool
    ensures { result ≡ true → IsAnswer (modes_of parameters.now) (statement_of statement.now) }
{
    match statement {
        Statement::Assign { target, value } => is_result(parameters, target) && is_of_state(value),
        _ => false,
    }
}

/// Whether it gives a variable of the module a literal, or the value of a variable.
fn is_note(statement: &Statement) -> bool
    ensures { result ≡ true → IsNote (statement_of statement.now) }
{
    match statement {
        Statement::Assign { target, value } => is_of_module(target) && is_plain(value),
        _ => false,
    }
}

/// Whether a body is first an answer, or some, and then notes, and nothing else.
pub fn keeps_the_rule(procedure: &Procedure) -> bool
    ensures { result ≡ true → Keeps procedure.now }
{
    let parameters = procedure.parameters.as_slice();
    let statements = procedure.body.as_slice();
    // One that answers nothing has one reply in all states, and nobody need ask.
    let Some(first) = statements.first() else {
        return false;
    };
    if !is_answer(parameters, first) {
        return false;
    }
    let mut may_answer = true;
    for statement in statements {
        may_answer = may_answer && is_answer(parameters, statement);
        if !may_answer && !is_note(statement) {
            return false;
        }
    }
    true
}
