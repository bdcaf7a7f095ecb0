//! The headings of procedures.

ghost use Rattle.std.specs.Prelude.{◌≡◌, ◌+◌, ◌<◌, ◌∷◌, ℕ, true, length, map, List, None, OnOk, IfOk, IfErr};
ghost use Rattle.ob_grammar.specs.View.{heading_of};
ghost use Rattle.ob_typing.specs.Declarations as Declared;
ghost use Rattle.ob_typing.specs.Declarations.{with_procedure, exports_behind};
ghost use Rattle.ob_typing.specs.DeclarationFaults.{heading_broken};
ghost use Rattle.ob_typing.specs.Scopes.{level, no_names};
ghost use Rattle.ob_typing.specs.Statements.{listed};
ghost use Rattle.ob_typing.specs.ModuleVerdicts.{parameters};
ghost use Rattle.ob_typing.specs.Verdict.{Right, unless};
ghost use Rattle.ob_checked.specs.Types.{Entry, Extends};
ghost use Rattle.ob_checked.specs.View.{table_of, parameter_of};
ghost use Rattle.ob_scopes.specs.Objects.{known_parameters};
ghost use Rattle.ob_scopes.specs.Names.{types_in, env_of};
ghost use Rattle.ob_rules.specs.ByScopes.{parameters_by, with_parameters};
ghost use Rattle.ob_rules.specs.Checking.{Fails};
ghost use Rattle.ob_check.specs.ByScopes.{declared_around};
ghost use Rattle.ob_check.specs.CheckingProcedures.{around, headed};

use crate::declaration_parts::sections_in;
use ob_checked::program::Parameter;
use ob_checked::types::Types;
use ob_grammar::tree::Procedure;
use ob_rules::parameters::declare_parameters;
use ob_scopes::fault::{CheckFault, broken};
use ob_scopes::scopes::Scopes;
use ob_scopes::type_parts::simple_type;
use ob_typing::rule::Rule;
use std::alloc::Global;
use std::collections::BTreeMap;

/// The most exports of a module.
const MOST_EXPORTS: usize = 64;

/// The number of scopes in the module's declarations: its own, in the outermost one.
const MODULE_LEVEL: usize = 2;

/// The sum of two counts. No memory holds more than can be counted.
pub fn counted(first: usize, others: usize) -> Result<usize, CheckFault>
    ensures sum { IfOk result (λ n. n ≡ first + others) }
    ensures fault { IfErr result (λ f. f ≡ CheckFault.NoMemory) }
{
    match first.checked_add(others) {
        Some(sum) => Ok(sum),
        None => Err(CheckFault::NoMemory),
    }
}

/// Tests the name of a procedure behind so many exports; the answer is how many there are behind it.
pub fn test_heading(scopes: &Scopes, tree: &Procedure, exported: usize) -> Result<usize, CheckFault>
    ensures unbroken { OnOk result (heading_broken (env_of scopes.now) exported (heading_of tree.now) ≡ None) }
    ensures exports { IfOk result (λ e. e ≡ exports_behind exported (heading_of tree.now)) }
    ensures fault { IfErr result (λ f. Fails f (unless (heading_broken (env_of scopes.now) exported (heading_of tree.now)) (heading_of tree.now).name.place)) }
{
    let place = tree.name.place;
    if scopes.declares(&tree.name.text) {
        return Err(broken(Rule::DeclaredTwice, place));
    }
    if !tree.is_exported {
        return Ok(exported);
    }
    if scopes.level() != MODULE_LEVEL {
        return Err(broken(Rule::BadExport, place));
    }
    if exported == MOST_EXPORTS {
        return Err(broken(Rule::PassesLimit, place));
    }
    counted(exported, 1)
}

/// Declares a procedure in its scope, and its parameters in a scope of their own, in which the rest of it stands.
pub fn declare_heading(
    alloc: Global,
    scopes: &mut Scopes,
    tree: &Procedure,
    number: usize,
) -> Result<Vec<Parameter>, CheckFault>
    ensures typed { IfOk result (λ ps. headed (env_of scopes.old) number (heading_of tree.now) ≡ Right (with_parameters scopes.new ps.items)) }
    ensures around { IfOk result (λ ps. around (env_of scopes.new) ≡ with_procedure (env_of scopes.old) number (heading_of tree.now) (parameters_by scopes.new ps.items)) }
    ensures known { IfOk result (λ ps. known_parameters (length (types_in scopes.new)) ps.items ≡ true) }
    ensures extends { OnOk result (Extends (types_in scopes.old) (types_in scopes.new)) }
    ensures fault { IfErr result (λ f. Fails f (headed (env_of scopes.old) number (heading_of tree.now))) }
{
    let parameters = enter_parameters(alloc, scopes, tree)?;
    if tree.is_exported && !all_simple(scopes.types(), &parameters) {
        return Err(broken(Rule::BadExport, tree.name.place));
    }
    declare_around(alloc, scopes, tree, number, &parameters)?;
    Ok(parameters)
}

/// Declares the parameters of a procedure in a scope of their own.
fn enter_parameters(
    alloc: Global,
    scopes: &mut Scopes,
    tree: &Procedure,
) -> Result<Vec<Parameter>, CheckFault>
    ensures typed { IfOk result (λ ps. parameters (listed (heading_of tree.now).parameters) (no_names ∷ env_of scopes.old) 0 ≡ Right (with_parameters scopes.new ps.items)) }
    ensures around { OnOk result (around (env_of scopes.new) ≡ env_of scopes.old) }
    ensures known { IfOk result (λ ps. known_parameters (length (types_in scopes.new)) ps.items ≡ true) }
    ensures extends { OnOk result (Extends (types_in scopes.old) (types_in scopes.new)) }
    ensures fault { IfErr result (λ f. Fails f (parameters (listed (heading_of tree.now).parameters) (no_names ∷ env_of scopes.old) 0)) }
{
    scopes.enter(BTreeMap::new(alloc))?;
    declare_parameters(alloc, scopes, sections_in(&tree.parameters))
}

/// Declares a procedure in the scope around the innermost one, which is that of its parameters.
fn declare_around(
    alloc: Global,
    scopes: &mut Scopes,
    tree: &Procedure,
    number: usize,
    parameters: &[Parameter],
) -> Result<(), CheckFault>
    requires within { 1 < level (env_of scopes.old) }
    requires known { known_parameters (length (types_in scopes.old)) parameters.now ≡ true }
    ensures names { OnOk result (env_of scopes.new ≡ declared_around scopes.old number tree.now parameters.now) }
    ensures types { OnOk result (types_in scopes.new ≡ types_in scopes.old) }
    ensures fault { IfErr result (λ f. f ≡ CheckFault.NoMemory) }
{
    let copied = copies(alloc, parameters)?;
    let own = scopes.leave();
    scopes.declare_procedure(alloc, &tree.name.text, number, copied)?;
    scopes.enter(own)?;
    Ok(())
}

/// Whether no parameter is structured.
fn all_simple(types: &Types, parameters: &[Parameter]) -> bool
    ensures { result ≡ Declared.all_simple (map (parameter_of (table_of types.now)) parameters.now) }
{
    for parameter in parameters {
        if simple_type(types, parameter.data_type).is_none() {
            return false;
        }
    }
    true
}

/// Copies of parameters.
fn copies(alloc: Global, parameters: &[Parameter]) -> Result<Vec<Parameter>, CheckFault>
    ensures same { IfOk result (λ ps. (types : List Entry) → map (parameter_of types) ps.items ≡ map (parameter_of types) parameters.now) }
    ensures known { IfOk result (λ ps. (n : ℕ) → known_parameters n parameters.now ≡ true → known_parameters n ps.items ≡ true) }
    ensures fault { IfErr result (λ f. f ≡ CheckFault.NoMemory) }
{
    let mut copied = Vec::new(alloc);
    for parameter in parameters {
        let name = parameter.name.clone()?;
        copied.push(Parameter {
            name,
            is_var: parameter.is_var,
            data_type: parameter.data_type,
        })?;
    }
    Ok(copied)
}
