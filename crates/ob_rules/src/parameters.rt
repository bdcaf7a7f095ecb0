//! Formal parameters, in text order.

ghost use Rattle.std.specs.Prelude.{◌≡◌, true, List, ◌∷◌, ◌+◌, ◌-◌, ◌||◌, length, map, None, OnOk, IfOk, IfErr};
ghost use Rattle.ob_grammar.specs.Tree as trees;
ghost use Rattle.ob_grammar.specs.View.{name_of, type_of, section_of};
ghost use Rattle.ob_typing.specs.Scopes.{is_declared, is_simple};
ghost use Rattle.ob_typing.specs.TypeFaults.{type_place};
ghost use Rattle.ob_typing.specs.Declarations.{most_parameters};
ghost use Rattle.ob_typing.specs.DeclarationFaults.{parameter_broken};
ghost use Rattle.ob_typing.specs.Verdict.{Right, unless_broken};
ghost use Rattle.ob_checked.specs.Types.{type_in, is_below, Extends};
ghost use Rattle.ob_checked.specs.View.{table_of};
ghost use Rattle.ob_scopes.specs.Objects.{known_parameters};
ghost use Rattle.ob_scopes.specs.Names.{types_in, env_of};
ghost use Rattle.ob_rules.specs.ByScopes.{
  declaring_parameters,
  names_with_parameters,
  parameters_and_named,
  parameters_by,
  with_parameters,
  ParametersStayKnown,
};
ghost use Rattle.ob_rules.specs.Checking.{Fails};
ghost use Rattle.ob_rules.specs.FirstParts.{DeclaresSection};

use crate::type_expressions::formal_type;
use ob_checked::program::Parameter;
use ob_checked::types::{DataType, Types};
use ob_grammar::tree::{Name, Section, TypeExpr};
use ob_scopes::fault::{CheckFault, broken};
use ob_scopes::scopes::Scopes;
use ob_scopes::type_parts::simple_type;
use ob_typing::rule::Rule;
use std::alloc::Global;

/// The most parameters of a procedure.
const MOST_PARAMETERS: usize = 8;

/// Declares parameters, each section under those before it, in a procedure's scope without names.
pub fn declare_parameters(
    alloc: Global,
    scopes: &mut Scopes,
    sections: &[Section],
) -> Result<Vec<Parameter>, CheckFault>
    ensures typed { IfOk result (λ ps. declaring_parameters scopes.old 0 (map section_of sections.now) ≡ Right (with_parameters scopes.new ps.items)) }
    ensures known { IfOk result (λ ps. known_parameters (length (types_in scopes.new)) ps.items ≡ true) }
    ensures extends { OnOk result (Extends (types_in scopes.old) (types_in scopes.new)) }
    ensures fault { IfErr result (λ f. Fails f (declaring_parameters scopes.old 0 (map section_of sections.now))) }
{
    let mut parameters = Vec::new(alloc);
    for section in sections {
        declare_section(alloc, scopes, section, &mut parameters)?;
    }
    Ok(parameters)
}

/// Declares the parameters of a section behind others. Their names are tested before the type is looked at.
fn declare_section(
    alloc: Global,
    scopes: &mut Scopes,
    section: &Section,
    parameters: &mut Vec<Parameter>,
) -> Result<(), CheckFault>
    requires known { known_parameters (length (types_in scopes.old)) parameters.old.items ≡ true }
    ensures ok { OnOk result (DeclaresSection section.now scopes.old parameters.old.items scopes.new parameters.new.items) }
    ensures known { OnOk result (known_parameters (length (types_in scopes.new)) parameters.new.items ≡ true) }
    ensures extends { OnOk result (Extends (types_in scopes.old) (types_in scopes.new)) }
    ensures fault { IfErr result (λ f. (rest : List trees.Section) → Fails f (declaring_parameters scopes.old (length parameters.old.items) (section_of section.now ∷ rest))) }
{
    test_names(alloc, scopes, &section.names, parameters.len())?;
    let data_type = formal_type(alloc, scopes, &section.of_type)?;
    if !may_be(scopes.types(), section.is_var, data_type) {
        return Err(broken(Rule::TypesDiffer, type_place(&section.of_type)));
    }
    add_parameters(
        alloc,
        scopes,
        &section.names,
        section.is_var,
        data_type,
        parameters,
    )?;
    Ok(())
}

/// Whether a parameter may be of a type: a value parameter is not structured.
#[tactic(auto, using(crate::proofs::ParameterSteps::simple_or_not))]
fn may_be(types: &Types, is_var: bool, data_type: DataType) -> bool
    ensures { result ≡ (is_var || is_simple (type_in (table_of types.now) data_type)) }
{
    is_var || simple_type(types, data_type).is_some()
}

/// Tests that the names of a section behind so many parameters are new, and that there is room for them.
fn test_names(
    alloc: Global,
    scopes: &Scopes,
    names: &[Name],
    count: usize,
) -> Result<(), CheckFault>
    ensures ok { OnOk result (parameter_broken (is_declared (env_of scopes.now)) (most_parameters - count) (map name_of names.now) ≡ None) }
    ensures fault { IfErr result (λ f. Fails f (unless_broken (parameter_broken (is_declared (env_of scopes.now)) (most_parameters - count) (map name_of names.now)))) }
{
    let left = MOST_PARAMETERS.saturating_sub(count);
    let tested = names.len().min(left + 1);
    if let Some(name) = scopes.second(alloc, &names[..tested])? {
        return Err(broken(Rule::DeclaredTwice, name.place));
    }
    match names.get(left) {
        Some(name) => Err(broken(Rule::PassesLimit, name.place)),
        None => Ok(()),
    }
}

/// Declares names as parameters of a type.
fn add_parameters(
    alloc: Global,
    scopes: &mut Scopes,
    names: &[Name],
    is_var: bool,
    data_type: DataType,
    parameters: &mut Vec<Parameter>,
) -> Result<(), CheckFault>
    requires known { is_below (length (types_in scopes.old)) data_type ≡ true }
    ensures names { OnOk result (env_of scopes.new ≡ names_with_parameters scopes.old (length parameters.old.items) data_type names.now) }
    ensures parameters { OnOk result (parameters_by scopes.old parameters.new.items ≡ parameters_and_named scopes.old parameters.old.items is_var data_type names.now) }
    ensures known { OnOk result (ParametersStayKnown scopes.old parameters.old.items parameters.new.items) }
    ensures types { OnOk result (types_in scopes.new ≡ types_in scopes.old) }
    ensures fault { IfErr result (λ f. f ≡ CheckFault.NoMemory) }
{
    for name in names {
        scopes.declare_variable(alloc, &name.text, parameters.len(), data_type)?;
        let name = name.text.clone()?;
        parameters.push(Parameter {
            name,
            is_var,
            data_type,
        })?;
    }
    Ok(())
}

/// Where a type begins.
fn type_place(expr: &TypeExpr) -> usize
    ensures { result ≡ type_place (type_of expr.now) }
{
    match expr {
        TypeExpr::Named(name) => name.place,
        TypeExpr::Array { place, .. } | TypeExpr::Record { place, .. } => *place,
    }
}
