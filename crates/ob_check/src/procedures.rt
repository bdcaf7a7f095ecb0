//! Procedures in the order of their headings, and the declarations in which they stand.

ghost use Rattle.std.specs.Prelude.{◌≡◌, true, length, OnOk, IfOk, IfErr};
ghost use Rattle.ob_grammar.specs.Tree as trees;
ghost use Rattle.ob_grammar.specs.View.{procedures_in, procedure_before};
ghost use Rattle.ob_typing.specs.Verdict.{Right};
ghost use Rattle.ob_typing.specs.ModuleVerdicts as Verdicts;
ghost use Rattle.ob_checked.specs.Types.{Extends};
ghost use Rattle.ob_scopes.specs.Names.{types_in, env_of};
ghost use Rattle.ob_rules.specs.Checking.{Fails};
ghost use Rattle.ob_rules.specs.CheckingVariables.{known_variables};
ghost use Rattle.ob_check.specs.ByScopes.{checking_inner, declaring, further_procedures, with_all, with_inner, with_procedures, DeclaresProcedure};
ghost use Rattle.ob_check.specs.CheckingProcedures.{around, known_procedures};

use crate::declaration_parts::{constants_in, types_in, variables_in};
use crate::headings::{counted, declare_heading, test_heading};
use ob_checked::program::{Procedure, Statement, Variable};
use ob_grammar::tree;
use ob_grammar::tree::Declarations;
use ob_rules::declarations::{Room, declare_constants, declare_types, declare_variables};
use ob_rules::statements::body;
use ob_scopes::fault::CheckFault;
use ob_scopes::scopes::Scopes;
use std::alloc::Global;

/// The most words of a frame.
const FRAME_WORDS: usize = 1024;

/// The variables and procedures of declarations.
#[derive(Drop)]
pub struct Declared {
    pub variables: Vec<Variable>,
    pub procedures: Vec<Procedure>,
}

/// What stands behind the heading of a procedure.
#[derive(Drop)]
struct Inner {
    variables: Vec<Variable>,
    procedures: Vec<Procedure>,
    body: Vec<Statement>,
}

/// Declares what declarations declare, part by part; procedures are numbered from here.
#[cycle(declarations)]
pub fn declarations(
    alloc: Global,
    scopes: &mut Scopes,
    tree: &Declarations,
    number: usize,
    room: Room,
) -> Result<Declared, CheckFault>
    ensures typed { IfOk result (λ d. declaring scopes.old tree.now number room ≡ Right (with_all scopes.new d.variables.items d.procedures.items)) }
    ensures variables { IfOk result (λ d. known_variables (length (types_in scopes.new)) d.variables.items ≡ true) }
    ensures procedures { IfOk result (λ d. known_procedures (length (types_in scopes.new)) d.procedures.items ≡ true) }
    ensures extends { OnOk result (Extends (types_in scopes.old) (types_in scopes.new)) }
    ensures fault { IfErr result (λ f. Fails f (declaring scopes.old tree.now number room)) }
{
    declare_constants(alloc, scopes, constants_in(&tree.constants))?;
    declare_types(alloc, scopes, types_in(&tree.types))?;
    let variables = declare_variables(alloc, scopes, variables_in(&tree.variables), room)?;
    let procedures = declare_procedures(alloc, scopes, &tree.procedures, number)?;
    Ok(Declared {
        variables,
        procedures,
    })
}

/// Declares procedures one after another, numbered from here; the exports among them are counted.
#[cycle(declarations)]
fn declare_procedures(
    alloc: Global,
    scopes: &mut Scopes,
    trees: &[tree::Procedure],
    first: usize,
) -> Result<Vec<Procedure>, CheckFault>
    ensures typed { IfOk result (λ ps. Verdicts.procedures (procedures_in trees.now) (env_of scopes.old) first 0
        ≡ Right (with_procedures scopes.new ps.items)) }
    ensures known { IfOk result (λ ps. known_procedures (length (types_in scopes.new)) ps.items ≡ true) }
    ensures extends { OnOk result (Extends (types_in scopes.old) (types_in scopes.new)) }
    ensures fault { IfErr result (λ f. Fails f (Verdicts.procedures (procedures_in trees.now) (env_of scopes.old) first 0)) }
{
    let mut procedures = Vec::new(alloc);
    let mut exported = 0;
    for tree in trees {
        exported = declare_procedure(alloc, scopes, tree, first, exported, &mut procedures)?;
    }
    Ok(procedures)
}

/// Declares a procedure with those within it, behind so many exports; the answer is how many there are behind it.
#[cycle(declarations)]
fn declare_procedure(
    alloc: Global,
    scopes: &mut Scopes,
    tree: &tree::Procedure,
    first: usize,
    exported: usize,
    procedures: &mut Vec<Procedure>,
) -> Result<usize, CheckFault>
    requires known { known_procedures (length (types_in scopes.old)) procedures.old.items ≡ true }
    ensures typed { IfOk result (λ e. DeclaresProcedure tree.now first scopes.old procedures.old.items exported scopes.new procedures.new.items e) }
    ensures known { OnOk result (known_procedures (length (types_in scopes.new)) procedures.new.items ≡ true) }
    ensures extends { OnOk result (Extends (types_in scopes.old) (types_in scopes.new)) }
    ensures fault { IfErr result (λ f. (rest : trees.Procedures) → Fails f (further_procedures scopes.old first procedures.old.items exported (procedure_before tree.now rest))) }
{
    let number = counted(first, procedures.len())?;
    let exports = test_heading(scopes, tree, exported)?;
    let parameters = declare_heading(alloc, scopes, tree, number)?;
    let inner = behind(alloc, scopes, tree, number, parameters.len())?;
    let _own = scopes.leave();
    let name = tree.name.text.clone()?;
    procedures.push(Procedure {
        name,
        is_exported: tree.is_exported,
        parameters,
        variables: inner.variables,
        body: inner.body,
    })?;
    let mut within = inner.procedures;
    procedures.append(&mut within)?;
    Ok(exports)
}

/// What stands behind the heading of a procedure with so many parameters.
#[cycle(declarations)]
fn behind(
    alloc: Global,
    scopes: &mut Scopes,
    tree: &tree::Procedure,
    number: usize,
    count: usize,
) -> Result<Inner, CheckFault>
    ensures typed { IfOk result (λ i. checking_inner scopes.old tree.now number count ≡ Right (with_inner scopes.new i.variables.items i.procedures.items i.body.items)) }
    ensures variables { IfOk result (λ i. known_variables (length (types_in scopes.new)) i.variables.items ≡ true) }
    ensures procedures { IfOk result (λ i. known_procedures (length (types_in scopes.new)) i.procedures.items ≡ true) }
    ensures around { OnOk result (around (env_of scopes.new) ≡ around (env_of scopes.old)) }
    ensures extends { OnOk result (Extends (types_in scopes.old) (types_in scopes.new)) }
    ensures fault { IfErr result (λ f. Fails f (checking_inner scopes.old tree.now number count)) }
{
    let room = Room {
        names: count,
        taken: count,
        limit: FRAME_WORDS,
    };
    let next = counted(number, 1)?;
    let declared = declarations(alloc, scopes, &tree.declarations, next, room)?;
    let body = body(alloc, scopes, &tree.body)?;
    Ok(Inner {
        variables: declared.variables,
        procedures: declared.procedures,
        body,
    })
}
