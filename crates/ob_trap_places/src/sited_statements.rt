//! The outcomes of statements and of calls in the text.

ghost use Rattle.std.specs.Prelude.{◌≤◌, IfOk};
ghost use Rattle.ob_checked.specs.View.{designator_of, expression_of, statement_of, statements_in};
ghost use Rattle.ob_meaning.specs.ByPositionEvaluation.{by_position};
ghost use Rattle.ob_store.specs.View.{activation_in, store_in};
ghost use Rattle.ob_trap_places.specs.Site as Sites;
ghost use Rattle.ob_trap_places.specs.SitesOverStore as Sited;
ghost use Rattle.ob_trap_places.specs.Reaching.{Reaches};
ghost use Rattle.ob_trap_places.specs.Running.{AssignComes, Comes};
ghost use Rattle.ob_trap_places.specs.Running.{activated_in, all_in, branch_in, calls_of, choice_in, one_in, repeat_in, while_in};

use crate::handed_places::all_handed;
use crate::site::{Cause, Halt, here, inside, within_procedure};
use crate::values::{place_of_part, value_of_part};
use ob_checked::operators::truth_of;
use ob_checked::program::{Branch, Designator, Expression, Procedure, Statement};
use ob_checked::trap::Trap;
use ob_interface::scalar::Scalar;
use ob_mean::begun::variables_begun;
use ob_mean::statements::Context;
use ob_store::store::{Held, Store};
use std::alloc::Global;

/// The target's place, then the expression, then the store.
fn assign(
    alloc: Global,
    store: &mut Store,
    target: &Designator,
    value: &Expression,
    turns: u64,
) -> Result<u64, Halt>
    ensures outcome { AssignComes (designator_of target.now) (expression_of value.now) turns (store_in store.old) result (store_in store.new) }
    ensures turns { IfOk result (λ left. left ≤ turns) }
{
    let place = place_of_part(alloc, store, 0, target)?;
    let scalar = value_of_part(alloc, store, 1, value)?;
    store.set(alloc, place, scalar)?;
    Ok(turns)
}

/// The condition of the branch of a number.
fn condition_of(
    alloc: Global,
    store: &Store,
    number: usize,
    condition: &Expression,
) -> Result<Scalar, Halt>
    ensures { Reaches (λ s. s) (Sites.of_part number (Sites.of_part 0 (Sited.value_of by_position (store_in store.now) (expression_of condition.now)))) result }
{
    match value_of_part(alloc, store, 0, condition) {
        Ok(scalar) => Ok(scalar),
        Err(halt) => Err(inside(number, halt)),
    }
}

/// Runs statements one after the other with so many turns, and answers how many are left.
#[cycle(running)]
pub fn run(
    context: Context<'_>,
    store: &mut Store,
    statements: &[Statement],
    turns: u64,
) -> Result<u64, Halt>
    ensures outcome { Comes (all_in context.entry (statements_in statements.now) turns (store_in store.old)) result (store_in store.new) }
    ensures turns { IfOk result (λ left. left ≤ turns) }
{
    let mut left = turns;
    for (number, statement) in statements.iter().enumerate() {
        left = execute_in_part(context, store, number, statement, left)?;
    }
    Ok(left)
}

/// Runs statements that are this part of a construct.
#[cycle(running)]
fn run_in_part(
    context: Context<'_>,
    store: &mut Store,
    part: usize,
    statements: &[Statement],
    turns: u64,
) -> Result<u64, Halt>
    ensures outcome { Comes (Sites.of_part part (all_in context.entry (statements_in statements.now) turns (store_in store.old))) result (store_in store.new) }
    ensures turns { IfOk result (λ left. left ≤ turns) }
{
    match run(context, store, statements, turns) {
        Ok(left) => Ok(left),
        Err(halt) => Err(inside(part, halt)),
    }
}

/// Runs a statement that is this part of others.
#[cycle(running)]
fn execute_in_part(
    context: Context<'_>,
    store: &mut Store,
    part: usize,
    statement: &Statement,
    turns: u64,
) -> Result<u64, Halt>
    ensures outcome { Comes (Sites.of_part part (one_in context.entry (statement_of statement.now) turns (store_in store.old))) result (store_in store.new) }
    ensures turns { IfOk result (λ left. left ≤ turns) }
{
    match execute(context, store, statement, turns) {
        Ok(left) => Ok(left),
        Err(halt) => Err(inside(part, halt)),
    }
}

/// Runs a statement.
#[cycle(running)]
fn execute(
    context: Context<'_>,
    store: &mut Store,
    statement: &Statement,
    turns: u64,
) -> Result<u64, Halt>
    ensures outcome { Comes (one_in context.entry (statement_of statement.now) turns (store_in store.old)) result (store_in store.new) }
    ensures turns { IfOk result (λ left. left ≤ turns) }
{
    match statement {
        Statement::Assign { target, value } => assign(context.alloc, store, target, value, turns),
        Statement::Call { procedure, actuals } => {
            let handed = all_handed(context.alloc, store, actuals.as_slice())?;
            call(context, store, *procedure, handed, turns)
        }
        Statement::If {
            branches,
            otherwise,
        } => choose(context, store, branches.as_slice(), otherwise, turns),
        Statement::While { condition, body } => {
            run_while(context, store, condition, body.as_slice(), turns)
        }
        Statement::Repeat { body, condition } => {
            run_repeat(context, store, body.as_slice(), condition, turns)
        }
    }
}

/// Runs the first branch whose condition holds, or what stands behind ELSE.
#[cycle(running)]
fn choose(
    context: Context<'_>,
    store: &mut Store,
    branches: &[Branch],
    otherwise: &Option<Vec<Statement>>,
    turns: u64,
) -> Result<u64, Halt>
    ensures outcome { Comes (choice_in context.entry branches.now otherwise.now turns (store_in store.old)) result (store_in store.new) }
    ensures turns { IfOk result (λ left. left ≤ turns) }
{
    for (number, branch) in branches.iter().enumerate() {
        let condition = condition_of(context.alloc, store, number, &branch.condition)?;
        if truth_of(condition) {
            return run_branch(context, store, number, branch.body.as_slice(), turns);
        }
    }
    match otherwise {
        Some(body) => run_in_part(context, store, branches.len(), body.as_slice(), turns),
        None => Ok(turns),
    }
}

/// Runs the statements of the branch of a number.
#[cycle(running)]
fn run_branch(
    context: Context<'_>,
    store: &mut Store,
    number: usize,
    statements: &[Statement],
    turns: u64,
) -> Result<u64, Halt>
    ensures outcome { Comes (branch_in context.entry number (statements_in statements.now) turns (store_in store.old)) result (store_in store.new) }
    ensures turns { IfOk result (λ left. left ≤ turns) }
{
    match run_in_part(context, store, 1, statements, turns) {
        Ok(left) => Ok(left),
        Err(halt) => Err(inside(number, halt)),
    }
}

/// Runs statements while a condition holds, each time for a turn; trap 5 where none is left.
#[cycle(running)]
fn run_while(
    context: Context<'_>,
    store: &mut Store,
    condition: &Expression,
    body: &[Statement],
    turns: u64,
) -> Result<u64, Halt>
    ensures outcome { Comes (while_in context.entry condition.now body.now turns (store_in store.old)) result (store_in store.new) }
    ensures turns { IfOk result (λ left. left ≤ turns) }
{
    let mut left = turns;
    'again: while truth_of(value_of_part(context.alloc, store, 1, condition)?) {
        if left == 0 {
            return Err(here(context.alloc, 0, Trap::NoTurnLeft, Cause::Turning));
        }
        left = run_in_part(context, store, 2, body, left - 1)?;
    }
    Ok(left)
}

/// Runs statements until a condition holds behind them, each time for a turn; trap 5 where none is left.
#[cycle(running)]
fn run_repeat(
    context: Context<'_>,
    store: &mut Store,
    body: &[Statement],
    condition: &Expression,
    turns: u64,
) -> Result<u64, Halt>
    ensures outcome { Comes (repeat_in context.entry body.now condition.now turns (store_in store.old)) result (store_in store.new) }
    ensures turns { IfOk result (λ left. left ≤ turns) }
{
    let mut left = turns;
    'rounds: loop {
        if left == 0 {
            return Err(here(context.alloc, 0, Trap::NoTurnLeft, Cause::Turning));
        }
        left = run_in_part(context, store, 1, body, left - 1)?;
        if truth_of(value_of_part(context.alloc, store, 2, condition)?) {
            return Ok(left);
        }
    }
}

/// Calls the procedure of a number with what was handed over: trap 4 where no more activation may be made, whatever
/// turns are left, and trap 5 where no turn is; else a turn and the activation.
#[cycle(running)]
fn call(
    context: Context<'_>,
    store: &mut Store,
    number: usize,
    handed: Vec<Held>,
    turns: u64,
) -> Result<u64, Halt>
    ensures outcome { Comes (calls_of context.entry number (activation_in handed) turns (store_in store.old)) result (store_in store.new) }
    ensures turns { IfOk result (λ left. left ≤ turns) }
{
    if context.more == 0 {
        let trap = Trap::TooManyActivations;
        return Err(here(context.alloc, 0, trap, Cause::Activating));
    }
    if turns == 0 {
        return Err(here(context.alloc, 0, Trap::NoTurnLeft, Cause::Turning));
    }
    match context.program.procedures.get(number) {
        None => Ok(turns - 1),
        Some(procedure) => {
            let within = Context {
                alloc: context.alloc,
                program: context.program,
                more: context.more - 1,
            };
            match activate(within, store, procedure, handed, turns - 1) {
                Ok(left) => Ok(left),
                Err(halt) => Err(within_procedure(number, halt)),
            }
        }
    }
}

/// Runs a procedure in an activation of its own, which is gone then.
#[cycle(running)]
fn activate(
    context: Context<'_>,
    store: &mut Store,
    procedure: &Procedure,
    handed: Vec<Held>,
    turns: u64,
) -> Result<u64, Halt>
    ensures outcome { Comes (activated_in context.entry procedure.now (activation_in handed) turns (store_in store.old)) result (store_in store.new) }
    ensures turns { IfOk result (λ left. left ≤ turns) }
{
    let activation = variables_begun(
        context.alloc,
        &context.program.types,
        handed,
        procedure.variables.as_slice(),
    )?;
    store.enter(activation)?;
    let left = run(context, store, procedure.body.as_slice(), turns)?;
    store.leave();
    Ok(left)
}
