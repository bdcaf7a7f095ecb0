//! The calls of procedures that spare the module's variables by themselves.

ghost use Rattle.std.specs.Prelude.{◌≡◌, IfOk, map, true};
ghost use Rattle.std.specs.List.{AllByRecursion, AllZip};
ghost use Rattle.ob_checked.specs.View.{actual_of, designator_of, statement_of, statements_in, branches_in};
ghost use Rattle.ob_typing.specs.Program.{no_branch};
ghost use Rattle.ob_carry.specs.ReadOnly.{AllSpareModule, BranchesSpareModule, HandsOwn, IsOwn, SparesModule};
ghost use Rattle.ob_carry.specs.ReadOnlyExports.{AreCalls, IsTold};

use ob_checked::program::{Actual, Branch, Designator, Owner, Procedure, Statement};
use ob_interface::no_memory::NoMemory;
use std::alloc::Global;

/// Whether it is a parameter or a variable of the procedure, or a part of one.
fn is_own(designator: &Designator) -> bool
    ensures { result ≡ true → IsOwn (designator_of designator.now) }
{
    match designator.slot.owner {
        Owner::Own => true,
        Owner::Module => false,
    }
}

/// Whether it hands over nothing of the module's variables to a VAR parameter.
fn hands_own(actual: &Actual) -> bool
    ensures { result ≡ true → HandsOwn (actual_of actual.now) }
{
    match actual {
        Actual::Value(_) => true,
        Actual::Place(variable) => is_own(variable),
    }
}

/// Whether all of them do.
fn all_hand_own(actuals: &[Actual]) -> bool
    ensures { result ≡ true → AllByRecursion HandsOwn (map actual_of actuals.now) }
{
    for actual in actuals {
        if !hands_own(actual) {
            return false;
        }
    }
    true
}

/// Whether a statement spares the module's variables, where the procedures that it calls do. These are put to the calls.
#[cycle(statements)]
fn statement_spares(statement: &Statement, calls: &mut Vec<usize>) -> Result<bool, NoMemory>
    ensures { IfOk result (IsTold (λ quiet. SparesModule quiet (statement_of statement.now)) calls.old.items calls.new.items) }
{
    match statement {
        Statement::Assign { target, .. } => Ok(is_own(target)),
        Statement::Call { procedure, actuals } => {
            calls.push(*procedure)?;
            Ok(all_hand_own(actuals.as_slice()))
        }
        Statement::If {
            branches,
            otherwise,
        } => {
            let spares = branches_spare(branches.as_slice(), calls)?;
            if !spares {
                return Ok(false);
            }
            match otherwise {
                Some(body) => statements_spare(body.as_slice(), calls),
                None => Ok(true),
            }
        }
        Statement::While { body, .. } => statements_spare(body.as_slice(), calls),
        Statement::Repeat { body, .. } => statements_spare(body.as_slice(), calls),
    }
}

/// The same of statements one after the other.
#[cycle(statements)]
fn statements_spare(statements: &[Statement], calls: &mut Vec<usize>) -> Result<bool, NoMemory>
    ensures { IfOk result (IsTold (λ quiet. AllSpareModule quiet (statements_in statements.now)) calls.old.items calls.new.items) }
{
    for statement in statements {
        let spares = statement_spares(statement, calls)?;
        if !spares {
            return Ok(false);
        }
    }
    Ok(true)
}

/// The same of branches, with nothing behind them.
#[cycle(statements)]
fn branches_spare(branches: &[Branch], calls: &mut Vec<usize>) -> Result<bool, NoMemory>
    ensures { IfOk result (IsTold (λ quiet. BranchesSpareModule quiet (branches_in branches.now no_branch)) calls.old.items calls.new.items) }
{
    for branch in branches {
        let spares = statements_spare(branch.body.as_slice(), calls)?;
        if !spares {
            return Ok(false);
        }
    }
    Ok(true)
}

/// The calls of a procedure, if it spares the module's variables by itself.
fn calls_of(alloc: Global, procedure: &Procedure) -> Result<Option<Vec<usize>>, NoMemory>
    ensures { IfOk result (AreCalls procedure.now) }
{
    let mut calls = Vec::new(alloc);
    let spares = statements_spare(procedure.body.as_slice(), &mut calls)?;
    if spares { Ok(Some(calls)) } else { Ok(None) }
}

/// Those of each procedure.
pub fn all_calls(
    alloc: Global,
    procedures: &[Procedure],
) -> Result<Vec<Option<Vec<usize>>>, NoMemory>
    ensures { IfOk result (λ found. AllZip AreCalls procedures.now found.items) }
{
    let mut found = Vec::new(alloc);
    for procedure in procedures {
        let calls = calls_of(alloc, procedure)?;
        found.push(calls)?;
    }
    Ok(found)
}
