//! The outcomes of statements and of calls in the text.

ghost use Rattle.std.specs.Prelude.{◌≡◌, ◌≤◌, IfOk};
ghost use Rattle.ob_checked.specs.View.{statement_of, statements_in};
ghost use Rattle.ob_meaning.specs.ByPositionStatements as Statements;
ghost use Rattle.ob_store.specs.View.{activation_in, store_in};
ghost use Rattle.ob_store.specs.Begun.{begun_in};
ghost use Rattle.ob_mean.specs.Running.{Comes, calls_of};
ghost use Rattle.ob_mean.specs.Written.{assign_of, choice_of, repeat_of, while_of};

use crate::begun::{begun_activation, end_activation};
use crate::expressions::evaluate;
use crate::places::{Stop, all_handed, place_of, set_slot};
use ob_checked::operators::truth_of;
use ob_checked::program::{Branch, Designator, Expression, Program, Statement};
use ob_checked::trap::Trap;
use ob_store::store::{Held, Store};
use std::alloc::Global;

/// What all statements of a run share: the program, and how many more activations may be made.
#[derive(Clone, Copy)]
pub struct Context<'p> {
    pub alloc: Global,
    pub program: &'p Program,
    pub more: usize,
}

/// The target's place, then the expression, then the store. A whole variable needs no place to be built.
#[inline]
fn assign(
    alloc: Global,
    store: &mut Store,
    target: &Designator,
    value: &Expression,
    turns: u64,
) -> Result<u64, Stop>
    ensures outcome { (calls : Statements.Calls) → Comes (Statements.meaning calls (assign_of target.now value.now) turns (store_in store.old)) result (store_in store.new) }
    ensures turns { IfOk result (λ left. left ≤ turns) }
    ensures begun { begun_in store.new ≡ begun_in store.old }
{
    if !target.selectors.is_empty() {
        return assign_part(alloc, store, target, value, turns);
    }
    let scalar = evaluate(store, value)?;
    set_slot(alloc, store, &target.slot, scalar)?;
    Ok(turns)
}

/// The same of any variable or part of one.
#[inline(never)]
fn assign_part(
    alloc: Global,
    store: &mut Store,
    target: &Designator,
    value: &Expression,
    turns: u64,
) -> Result<u64, Stop>
    ensures outcome { (calls : Statements.Calls) → Comes (Statements.meaning calls (assign_of target.now value.now) turns (store_in store.old)) result (store_in store.new) }
    ensures turns { IfOk result (λ left. left ≤ turns) }
    ensures begun { begun_in store.new ≡ begun_in store.old }
{
    let place = place_of(alloc, store, target)?;
    let scalar = evaluate(store, value)?;
    store.set(alloc, place, scalar)?;
    Ok(turns)
}

/// Runs statements one after the other with so many turns, and answers how many are left.
#[cycle(running)]
pub fn run(
    context: Context<'_>,
    store: &mut Store,
    statements: &[Statement],
    turns: u64,
) -> Result<u64, Stop>
    ensures outcome { Comes (Statements.meaning_of_all (calls_of context.entry) (statements_in statements.now) turns (store_in store.old)) result (store_in store.new) }
    ensures turns { IfOk result (λ left. left ≤ turns) }
    ensures begun { begun_in store.new ≡ begun_in store.old }
{
    let mut left = turns;
    for statement in statements {
        left = execute(context, store, statement, left)?;
    }
    Ok(left)
}

/// Runs a statement.
#[cycle(running)]
fn execute(
    context: Context<'_>,
    store: &mut Store,
    statement: &Statement,
    turns: u64,
) -> Result<u64, Stop>
    ensures outcome { Comes (Statements.meaning (calls_of context.entry) (statement_of statement.now) turns (store_in store.old)) result (store_in store.new) }
    ensures turns { IfOk result (λ left. left ≤ turns) }
    ensures begun { begun_in store.new ≡ begun_in store.old }
{
    match statement {
        Statement::Assign { target, value } => assign(context.alloc, store, target, value, turns),
        Statement::Call { procedure, actuals } => {
            // (room for the variables of its own, which the call adds)
            let room = match context.program.procedures.get(*procedure) {
                Some(called) => called.variables.len(),
                None => 0,
            };
            let handed = all_handed(context.alloc, store, actuals.as_slice(), room)?;
            call(context, store, *procedure, handed, turns)
        }
        Statement::If {
            branches,
            otherwise,
        } => choose(context, store, branches.as_slice(), otherwise, turns),
        Statement::While { condition, body } => {
            run_while(context, store, condition, body.as_slice(), turns)
        }
        Statement::Repeat { body, condition } => {
            run_repeat(context, store, body.as_slice(), condition, turns)
        }
    }
}

/// Runs the first branch whose condition holds, or what stands behind ELSE.
#[cycle(running)]
fn choose(
    context: Context<'_>,
    store: &mut Store,
    branches: &[Branch],
    otherwise: &Option<Vec<Statement>>,
    turns: u64,
) -> Result<u64, Stop>
    ensures outcome { Comes (Statements.meaning_of_branches (calls_of context.entry) (choice_of branches.now otherwise.now) turns (store_in store.old)) result (store_in store.new) }
    ensures turns { IfOk result (λ left. left ≤ turns) }
    ensures begun { begun_in store.new ≡ begun_in store.old }
{
    for branch in branches {
        let condition = evaluate(store, &branch.condition)?;
        if truth_of(condition) {
            return run(context, store, branch.body.as_slice(), turns);
        }
    }
    match otherwise {
        Some(body) => run(context, store, body.as_slice(), turns),
        None => Ok(turns),
    }
}

/// Runs statements while a condition holds, each time for a turn; trap 5 where none is left.
#[cycle(running)]
fn run_while(
    context: Context<'_>,
    store: &mut Store,
    condition: &Expression,
    body: &[Statement],
    turns: u64,
) -> Result<u64, Stop>
    ensures outcome { Comes (Statements.meaning (calls_of context.entry) (while_of condition.now body.now) turns (store_in store.old)) result (store_in store.new) }
    ensures turns { IfOk result (λ left. left ≤ turns) }
    ensures begun { begun_in store.new ≡ begun_in store.old }
{
    let mut left = turns;
    'again: while truth_of(evaluate(store, condition)?) {
        if left == 0 {
            return Err(Stop::from(Trap::NoTurnLeft));
        }
        left = run(context, store, body, left - 1)?;
    }
    Ok(left)
}

/// Runs statements until a condition holds behind them, each time for a turn; trap 5 where none is left.
#[cycle(running)]
fn run_repeat(
    context: Context<'_>,
    store: &mut Store,
    body: &[Statement],
    condition: &Expression,
    turns: u64,
) -> Result<u64, Stop>
    ensures outcome { Comes (Statements.meaning (calls_of context.entry) (repeat_of body.now condition.now) turns (store_in store.old)) result (store_in store.new) }
    ensures turns { IfOk result (λ left. left ≤ turns) }
    ensures begun { begun_in store.new ≡ begun_in store.old }
{
    let mut left = turns;
    'rounds: loop {
        if left == 0 {
            return Err(Stop::from(Trap::NoTurnLeft));
        }
        left = run(context, store, body, left - 1)?;
        if truth_of(evaluate(store, condition)?) {
            return Ok(left);
        }
    }
}

/// Calls the procedure of a number with what was handed over: trap 4 where no more activation may be made, whatever
/// turns are left, and trap 5 where no turn is; else a turn and the activation.
#[cycle(running)]
fn call(
    context: Context<'_>,
    store: &mut Store,
    number: usize,
    handed: Vec<Held>,
    turns: u64,
) -> Result<u64, Stop>
    ensures outcome { Comes (calls_of context.entry number (activation_in handed) turns (store_in store.old)) result (store_in store.new) }
    ensures turns { IfOk result (λ left. left ≤ turns) }
    ensures begun { begun_in store.new ≡ begun_in store.old }
{
    if context.more == 0 {
        return Err(Stop::from(Trap::TooManyActivations));
    }
    if turns == 0 {
        return Err(Stop::from(Trap::NoTurnLeft));
    }
    let Some(procedure) = context.program.procedures.get(number) else {
        return Ok(turns - 1);
    };
    let variables = procedure.variables.as_slice();
    let activation = begun_activation(&context.program.types, store, number, variables, handed)?;
    store.enter(activation)?;
    let within = Context {
        alloc: context.alloc,
        program: context.program,
        more: context.more - 1,
    };
    let left = run(within, store, procedure.body.as_slice(), turns - 1)?;
    end_activation(store, number, variables);
    Ok(left)
}
