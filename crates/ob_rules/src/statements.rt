//! Statements. They are taken one after another, so that a long body is no deep recursion.

ghost use Rattle.std.specs.Prelude.{◌≡◌, ℕ, List, Some, length, map, option_map, IfOk, IfErr, OnOk};
ghost use Rattle.ob_grammar.specs.Tree as trees;
ghost use Rattle.ob_grammar.specs.View.{name_of, expr_of, selectors_in, stmt_of, stmts_in, branches_in, otherwise_of};
ghost use Rattle.ob_typing.specs.Program as Programs;
ghost use Rattle.ob_typing.specs.Scopes.{AProcedure};
ghost use Rattle.ob_typing.specs.Statements as Typing;
ghost use Rattle.ob_typing.specs.StatementFaults.{procedure_broken};
ghost use Rattle.ob_typing.specs.Verdict.{Verdict, Right};
ghost use Rattle.ob_typing.specs.StatementVerdicts as Verdicts;
ghost use Rattle.ob_checked.specs.Types.{Entry};
ghost use Rattle.ob_checked.specs.View.{parameter_of, actual_of, statement_of, statements_in};
ghost use Rattle.ob_checked.specs.View as Checked;
ghost use Rattle.ob_scopes.specs.Names.{types_in, env_of, meant_of};
ghost use Rattle.ob_rules.specs.ByScopes.{actuals_by, assigned_by, branches_before, place_actual_by};
ghost use Rattle.ob_rules.specs.Checking.{Fails};
ghost use Rattle.ob_rules.specs.CheckingStatements.{condition, called, kept};
ghost use Rattle.ob_rules.specs.FirstParts.{StatementChecksTo};

use crate::expressions::{expression, first_place};
use crate::targets::{designated, holds};
use ob_checked::program::{Actual, Branch, Expression, Parameter, Statement};
use ob_checked::written_operators::same_scalar_type;
use ob_grammar::tree;
use ob_grammar::tree::{Expr, Name, Stmt};
use ob_interface::scalar::ScalarType;
use ob_scopes::constants::Usage;
use ob_scopes::fault::{CheckFault, broken};
use ob_scopes::same_types::same_type;
use ob_scopes::scopes::{Meant, Scopes};
use ob_typing::rule::Rule;
use std::alloc::Global;

/// The condition of a branch, of WHILE or of REPEAT.
fn condition_of(alloc: Global, scopes: &Scopes, expr: &Expr) -> Result<Expression, CheckFault>
    ensures typed { IfOk result (λ x. condition (env_of scopes.now) (expr_of expr.now) ≡ Right (Checked.expression_of x)) }
    ensures fault { IfErr result (λ f. Fails f (condition (env_of scopes.now) (expr_of expr.now))) }
{
    let checked = expression(alloc, scopes, expr, Usage::InStatement)?;
    if !same_scalar_type(checked.data_type, ScalarType::Boolean) {
        return Err(broken(Rule::TypesDiffer, first_place(expr)));
    }
    Ok(checked.code)
}

/// The actual of a value parameter: an expression of its type.
fn value_actual(
    alloc: Global,
    scopes: &Scopes,
    parameter: &Parameter,
    written: &Expr,
) -> Result<Actual, CheckFault>
    ensures typed { IfOk result (λ x. Verdicts.value_actual (env_of scopes.now) (parameter_of (types_in scopes.now) parameter.now) (expr_of written.now) ≡ Right (actual_of x)) }
    ensures fault { IfErr result (λ f. Fails f (Verdicts.value_actual (env_of scopes.now) (parameter_of (types_in scopes.now) parameter.now) (expr_of written.now))) }
{
    let checked = expression(alloc, scopes, written, Usage::InStatement)?;
    if !holds(scopes.types(), parameter.data_type, checked.data_type) {
        return Err(broken(Rule::TypesDiffer, first_place(written)));
    }
    Ok(Actual::Value(checked.code))
}

/// A bare name with selectors, which may be a variable: not a constant's name.
fn bare<'e>(scopes: &Scopes, written: &'e Expr) -> Option<&'e tree::Designator>
    ensures { option_map (λ d. (name_of d.now.name, selectors_in d.now.selectors.items)) result ≡ Typing.bare (env_of scopes.now) (expr_of written.now) }
{
    let Expr::Named(designator) = written else {
        return None;
    };
    match scopes.meant(&designator.name.text) {
        Meant::Constant(_) => None,
        _ => Some(designator),
    }
}

/// The actual of a VAR parameter: a bare variable of its type. What is no variable is tested as an expression first.
fn place_actual(
    alloc: Global,
    scopes: &Scopes,
    parameter: &Parameter,
    written: &Expr,
) -> Result<Actual, CheckFault>
    ensures typed { IfOk result (λ x. place_actual_by scopes.now parameter.now written.now ≡ Right (actual_of x)) }
    ensures fault { IfErr result (λ f. Fails f (place_actual_by scopes.now parameter.now written.now)) }
{
    let Some(designator) = bare(scopes, written) else {
        let _value = value_actual(alloc, scopes, parameter, written)?;
        return Err(broken(Rule::BadActuals, first_place(written)));
    };
    let place = designated(alloc, scopes, designator)?;
    if !same_type(scopes.types(), place.data_type, parameter.data_type) {
        return Err(broken(Rule::TypesDiffer, first_place(written)));
    }
    Ok(Actual::Place(place.variable))
}

/// The actual of a parameter.
fn actual(
    alloc: Global,
    scopes: &Scopes,
    parameter: &Parameter,
    written: &Expr,
) -> Result<Actual, CheckFault>
    ensures typed { IfOk result (λ x. Verdicts.actual (env_of scopes.now) (parameter_of (types_in scopes.now) parameter.now) (expr_of written.now) ≡ Right (actual_of x)) }
    ensures fault { IfErr result (λ f. Fails f (Verdicts.actual (env_of scopes.now) (parameter_of (types_in scopes.now) parameter.now) (expr_of written.now))) }
{
    if parameter.is_var {
        place_actual(alloc, scopes, parameter, written)
    } else {
        value_actual(alloc, scopes, parameter, written)
    }
}

/// The actuals of a call, one for each parameter.
fn actuals(
    alloc: Global,
    scopes: &Scopes,
    parameters: &[Parameter],
    written: &[Expr],
) -> Result<Vec<Actual>, CheckFault>
    requires { length written.now ≡ length parameters.now }
    ensures typed { IfOk result (λ x. actuals_by scopes.now parameters.now written.now ≡ Right (map actual_of x.items)) }
    ensures fault { IfErr result (λ f. Fails f (actuals_by scopes.now parameters.now written.now)) }
{
    let mut checked = Vec::new(alloc);
    for (parameter, expr) in parameters.iter().zip(written) {
        let passed = actual(alloc, scopes, parameter, expr)?;
        checked.push(passed)?;
    }
    Ok(checked)
}

/// What stands within parentheses, which is nothing where they do not stand.
fn listed(actuals: &Option<Vec<Expr>>) -> &[Expr]
    ensures { map expr_of result.now ≡ Typing.listed (option_map (λ es. map expr_of es.items) actuals.now) }
{
    match actuals {
        Some(actuals) => actuals,
        None => &[],
    }
}

/// The procedure that a name stands for, or the rule that it breaks where a procedure is needed.
fn procedure_meant(meant: Meant<'_>) -> Result<(usize, &[Parameter]), Rule>
    ensures procedure { IfOk result (λ p. (types : List Entry) (name : List ℕ) → meant_of types name meant.entry ≡ AProcedure p.0 (map (parameter_of types) p.1.now)) }
    ensures broken { IfErr result (λ r. (types : List Entry) (name : List ℕ) → procedure_broken (meant_of types name meant.entry) ≡ Some r) }
{
    match meant {
        Meant::Nothing => Err(Rule::UnknownName),
        Meant::Procedure { number, parameters } => Ok((number, parameters)),
        Meant::Constant(_) | Meant::TypeName(_) | Meant::Variable { .. } | Meant::FarVariable => {
            Err(Rule::WrongKind)
        }
    }
}

/// A call.
fn call(
    alloc: Global,
    scopes: &Scopes,
    procedure: &Name,
    written: &Option<Vec<Expr>>,
) -> Result<Statement, CheckFault>
    ensures typed { IfOk result (λ x. called (env_of scopes.now) (name_of procedure.now) (option_map (λ es. map expr_of es.items) written.now) ≡ Right (statement_of x)) }
    ensures fault { IfErr result (λ f. Fails f (called (env_of scopes.now) (name_of procedure.now) (option_map (λ es. map expr_of es.items) written.now))) }
{
    let (number, parameters) = match procedure_meant(scopes.meant(&procedure.text)) {
        Ok(found) => found,
        Err(rule) => return Err(broken(rule, procedure.place)),
    };
    let written = listed(written);
    if written.len() != parameters.len() {
        return Err(broken(Rule::BadActuals, procedure.place));
    }
    let actuals = actuals(alloc, scopes, parameters, written)?;
    Ok(Statement::Call {
        procedure: number,
        actuals,
    })
}

/// An assignment.
fn assignment(
    alloc: Global,
    scopes: &Scopes,
    target: &tree::Designator,
    value: &Expr,
) -> Result<Statement, CheckFault>
    ensures typed { IfOk result (λ x. assigned_by scopes.now target.now value.now ≡ Right (statement_of x)) }
    ensures fault { IfErr result (λ f. Fails f (assigned_by scopes.now target.now value.now)) }
{
    let place = designated(alloc, scopes, target)?;
    let checked = expression(alloc, scopes, value, Usage::InStatement)?;
    if !holds(scopes.types(), place.data_type, checked.data_type) {
        return Err(broken(Rule::TypesDiffer, first_place(value)));
    }
    Ok(Statement::Assign {
        target: place.variable,
        value: checked.code,
    })
}

/// Statements one behind the other; an empty one leaves nothing.
#[cycle(statements)]
pub fn statements(
    alloc: Global,
    scopes: &Scopes,
    written: &[Stmt],
) -> Result<Vec<Statement>, CheckFault>
    ensures typed { IfOk result (λ x. Verdicts.statements (env_of scopes.now) (stmts_in written.now) ≡ Right (statements_in x.items)) }
    ensures fault { IfErr result (λ f. Fails f (Verdicts.statements (env_of scopes.now) (stmts_in written.now))) }
{
    let mut checked = Vec::new(alloc);
    for next in written {
        let done = statement(alloc, scopes, next)?;
        keep(&mut checked, done)?;
    }
    Ok(checked)
}

/// Puts a statement behind others, where there is one.
fn keep(checked: &mut Vec<Statement>, done: Option<Statement>) -> Result<(), CheckFault>
    ensures ok { OnOk result (checked.new.items ≡ kept checked.old.items done) }
    ensures fault { IfErr result (λ f. f ≡ CheckFault.NoMemory) }
{
    if let Some(statement) = done {
        checked.push(statement)?;
    }
    Ok(())
}

/// The statements of a body, which may be absent.
pub fn body(
    alloc: Global,
    scopes: &Scopes,
    written: &Option<Vec<Stmt>>,
) -> Result<Vec<Statement>, CheckFault>
    ensures typed { IfOk result (λ x. Verdicts.body_checked (env_of scopes.now) (option_map (λ b. stmts_in b.items) written.now) ≡ Right (statements_in x.items)) }
    ensures fault { IfErr result (λ f. Fails f (Verdicts.body_checked (env_of scopes.now) (option_map (λ b. stmts_in b.items) written.now))) }
{
    match written {
        Some(body) => statements(alloc, scopes, body),
        None => Ok(Vec::new(alloc)),
    }
}

/// One statement in front of others; none where it is empty.
#[cycle(statements)]
fn statement(
    alloc: Global,
    scopes: &Scopes,
    written: &Stmt,
) -> Result<Option<Statement>, CheckFault>
    ensures typed { IfOk result (λ x. StatementChecksTo scopes.now written.now x) }
    ensures fault { IfErr result (λ f. (rest : trees.Stmts) → Fails f (Verdicts.statements (env_of scopes.now) (trees.stmt (stmt_of written.now) rest))) }
{
    match written {
        Stmt::Empty => Ok(None),
        Stmt::Assign { target, value } => Ok(Some(assignment(alloc, scopes, target, value)?)),
        Stmt::Call { procedure, actuals } => Ok(Some(call(alloc, scopes, procedure, actuals)?)),
        Stmt::If {
            branches,
            otherwise,
            ..
        } => {
            let branches = if_branches(alloc, scopes, branches)?;
            let otherwise = else_branch(alloc, scopes, otherwise)?;
            Ok(Some(Statement::If {
                branches,
                otherwise,
            }))
        }
        Stmt::While {
            condition,
            body,
            ..
        } => {
            let condition = condition_of(alloc, scopes, condition)?;
            let body = statements(alloc, scopes, body)?;
            Ok(Some(Statement::While { condition, body }))
        }
        Stmt::Repeat {
            body,
            condition,
            ..
        } => {
            let body = statements(alloc, scopes, body)?;
            let condition = condition_of(alloc, scopes, condition)?;
            Ok(Some(Statement::Repeat { body, condition }))
        }
    }
}

/// The branches of IF, before what ELSE comes to.
#[cycle(statements)]
fn if_branches(
    alloc: Global,
    scopes: &Scopes,
    written: &[tree::Branch],
) -> Result<Vec<Branch>, CheckFault>
    ensures typed { IfOk result (λ x. (last : Verdict Programs.Branches) → Verdicts.branches (env_of scopes.now) (branches_in written.now) last ≡ branches_before x.items last) }
    ensures fault { IfErr result (λ f. (last : Verdict Programs.Branches) → Fails f (Verdicts.branches (env_of scopes.now) (branches_in written.now) last)) }
{
    let mut checked = Vec::new(alloc);
    for branch in written {
        let condition = condition_of(alloc, scopes, &branch.condition)?;
        let body = statements(alloc, scopes, &branch.body)?;
        checked.push(Branch { condition, body })?;
    }
    Ok(checked)
}

/// What stands behind ELSE, which may be absent.
#[cycle(statements)]
fn else_branch(
    alloc: Global,
    scopes: &Scopes,
    written: &Option<Vec<Stmt>>,
) -> Result<Option<Vec<Statement>>, CheckFault>
    ensures typed { IfOk result (λ x. Verdicts.otherwise (env_of scopes.now) (otherwise_of written.now) ≡ Right (Checked.otherwise_of x)) }
    ensures fault { IfErr result (λ f. Fails f (Verdicts.otherwise (env_of scopes.now) (otherwise_of written.now))) }
{
    match written {
        Some(body) => Ok(Some(statements(alloc, scopes, body)?)),
        None => Ok(None),
    }
}
