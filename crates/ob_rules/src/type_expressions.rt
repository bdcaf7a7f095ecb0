//! Type expressions.

ghost use Rattle.std.specs.Prelude.{◌≡◌, ℕ, true, length, map, option_map, None, OnOk, IfOk, IfErr};
ghost use Rattle.ob_grammar.specs.Tree as trees;
ghost use Rattle.ob_grammar.specs.View as Trees;
ghost use Rattle.ob_grammar.specs.View.{type_of, name_of};
ghost use Rattle.ob_typing.specs.Program as Programs;
ghost use Rattle.ob_typing.specs.Types.{second, none_taken, and_all_taken};
ghost use Rattle.std.specs.Prelude as Lists;
ghost use Rattle.ob_typing.specs.Verdict.{Right};
ghost use Rattle.ob_typing.specs.TypeVerdicts as Constants;
ghost use Rattle.ob_checked.specs.Types.{type_in, fields_in, is_below, all_below, Extends};
ghost use Rattle.ob_scopes.specs.Names.{types_in, env_of};
ghost use Rattle.ob_scopes.specs.TakenNames.{taken_by};
ghost use Rattle.ob_rules.specs.ByScopes.{declared_fields};
ghost use Rattle.ob_rules.specs.Checking.{Fails};
ghost use Rattle.ob_rules.specs.CheckingTypes.{length_at, small_at, list_before};
ghost use Rattle.ob_rules.specs.FirstParts.{AddsFieldList, AddsFields};

use crate::declarations::constant;
use crate::expressions::first_place;
use ob_checked::fields::Fields;
use ob_checked::types::DataType;
use ob_grammar::tree::{FieldList, Name, TypeExpr};
use ob_interface::scalar::Scalar;
use ob_scopes::fault::{CheckFault, broken};
use ob_scopes::scopes::{Meant, Scopes};
use ob_scopes::taken::second;
use ob_typing::rule::Rule;
use std::alloc::Global;

/// The longest array.
const LONGEST: i32 = 4096;

/// The type of a type expression. The table of types grows, and what names stand for stays.
#[cycle(denoted)]
pub fn denoted(alloc: Global, scopes: &mut Scopes, expr: &TypeExpr) -> Result<DataType, CheckFault>
    ensures typed { IfOk result (λ t. Constants.denoted (env_of scopes.old) (type_of expr.now) ≡ Right (type_in (types_in scopes.new) t)) }
    ensures known { IfOk result (λ t. is_below (length (types_in scopes.new)) t ≡ true) }
    ensures names { OnOk result (env_of scopes.new ≡ env_of scopes.old) }
    ensures extends { OnOk result (Extends (types_in scopes.old) (types_in scopes.new)) }
    ensures fault { IfErr result (λ f. Fails f (Constants.denoted (env_of scopes.old) (type_of expr.now))) }
{
    match expr {
        TypeExpr::Named(name) => type_named(scopes, name),
        TypeExpr::Array {
            place,
            length,
            element,
        } => {
            let value = constant(alloc, scopes, length)?;
            let length = array_length(value, first_place(length))?;
            let element = denoted(alloc, scopes, element)?;
            array_of(scopes, *place, length, element)
        }
        TypeExpr::Record { place, fields } => {
            let fields = record_fields(alloc, scopes, fields)?;
            record_of(scopes, *place, fields)
        }
    }
}

/// The type of a formal type, which is a name. Within any other the rules are tested first; its limits never are.
pub fn formal_type(
    alloc: Global,
    scopes: &mut Scopes,
    expr: &TypeExpr,
) -> Result<DataType, CheckFault>
    ensures typed { IfOk result (λ t. Constants.formal (env_of scopes.old) (type_of expr.now) ≡ Right (type_in (types_in scopes.new) t)) }
    ensures known { IfOk result (λ t. is_below (length (types_in scopes.new)) t ≡ true) }
    ensures names { OnOk result (env_of scopes.new ≡ env_of scopes.old) }
    ensures extends { OnOk result (Extends (types_in scopes.old) (types_in scopes.new)) }
    ensures fault { IfErr result (λ f. Fails f (Constants.formal (env_of scopes.old) (type_of expr.now))) }
{
    match expr {
        TypeExpr::Named(name) => type_named(scopes, name),
        TypeExpr::Array {
            place,
            length,
            element,
        } => {
            let value = constant(alloc, scopes, length)?;
            array_length(value, first_place(length))?;
            denoted(alloc, scopes, element)?;
            Err(broken(Rule::WrongKind, *place))
        }
        TypeExpr::Record { place, fields } => {
            record_fields(alloc, scopes, fields)?;
            Err(broken(Rule::WrongKind, *place))
        }
    }
}

/// The fields of a record. Their types come from the lists, one after another.
#[cycle(denoted)]
fn record_fields(
    alloc: Global,
    scopes: &mut Scopes,
    lists: &[FieldList],
) -> Result<Fields, CheckFault>
    ensures typed { IfOk result (λ fs. Constants.denoted_fields (env_of scopes.old) (Trees.fields_in lists.now) none_taken ≡ Right (declared_fields scopes.new fs)) }
    ensures known { IfOk result (λ fs. all_below (length (types_in scopes.new)) (fields_in fs) ≡ true) }
    ensures names { OnOk result (env_of scopes.new ≡ env_of scopes.old) }
    ensures extends { OnOk result (Extends (types_in scopes.old) (types_in scopes.new)) }
    ensures fault { IfErr result (λ f. Fails f (Constants.denoted_fields (env_of scopes.old) (Trees.fields_in lists.now) none_taken)) }
{
    let mut fields = Fields::new(alloc);
    for list in lists {
        add_list(alloc, scopes, list, &mut fields)?;
    }
    Ok(fields)
}

/// Adds the fields of a list. Their names are tested before the type is looked at.
#[cycle(denoted)]
fn add_list(
    alloc: Global,
    scopes: &mut Scopes,
    list: &FieldList,
    fields: &mut Fields,
) -> Result<(), CheckFault>
    requires known { all_below (length (types_in scopes.old)) (fields_in fields.old) ≡ true }
    ensures ok { OnOk result (AddsFieldList list.now scopes.old fields.old scopes.new fields.new) }
    ensures known { OnOk result (all_below (length (types_in scopes.new)) (fields_in fields.new) ≡ true) }
    ensures names { OnOk result (env_of scopes.new ≡ env_of scopes.old) }
    ensures extends { OnOk result (Extends (types_in scopes.old) (types_in scopes.new)) }
    ensures fault { IfErr result (λ f. (rest : trees.FieldLists) → Fails f (Constants.denoted_fields (env_of scopes.old) (list_before list.now rest) (taken_by fields.old))) }
{
    match list {
        FieldList::Empty => Ok(()),
        FieldList::Fields { names, of_type } => {
            if let Some(name) = second_field(alloc, fields, names)? {
                return Err(broken(Rule::DeclaredTwice, name.place));
            }
            let data_type = denoted(alloc, scopes, of_type)?;
            add_fields(names, data_type, fields)
        }
    }
}

/// The first of the names that is a field's, or stands before in the list.
fn second_field<'n>(
    alloc: Global,
    fields: &Fields,
    names: &'n [Name],
) -> Result<Option<&'n Name>, CheckFault>
    ensures second { IfOk result (λ r. option_map (λ n. name_of n.now) r ≡ second (taken_by fields.now) (map name_of names.now)) }
    ensures fault { IfErr result (λ f. f ≡ CheckFault.NoMemory) }
{
    second(alloc, fields.positions(), names)
}

/// Adds fields of one type, whose names are new.
fn add_fields(names: &[Name], data_type: DataType, fields: &mut Fields) -> Result<(), CheckFault>
    requires new { second (taken_by fields.old) (map name_of names.now) ≡ None }
    ensures fields { OnOk result (AddsFields names.now data_type fields.old fields.new) }
    ensures taken { OnOk result (taken_by fields.new ≡ and_all_taken (taken_by fields.old) (map name_of names.now)) }
    ensures known { OnOk result ((n : ℕ) → all_below n (fields_in fields.old) ≡ true → is_below n data_type ≡ true → all_below n (fields_in fields.new) ≡ true) }
    ensures fault { IfErr result (λ f. f ≡ CheckFault.NoMemory) }
{
    for name in names {
        let text = name.text.clone()?;
        fields.push(text, data_type)?;
    }
    Ok(())
}

/// The type that a name stands for.
fn type_named(scopes: &Scopes, name: &Name) -> Result<DataType, CheckFault>
    ensures typed { IfOk result (λ t. Constants.denoted (env_of scopes.now) (trees.NamedType (name_of name.now)) ≡ Right (type_in (types_in scopes.now) t)) }
    ensures known { IfOk result (λ t. is_below (length (types_in scopes.now)) t ≡ true) }
    ensures fault { IfErr result (λ f. Fails f (Constants.denoted (env_of scopes.now) (trees.NamedType (name_of name.now)))) }
{
    match scopes.meant(&name.text) {
        Meant::TypeName(data_type) => Ok(data_type),
        Meant::Nothing => Err(broken(Rule::UnknownName, name.place)),
        Meant::Constant(_)
        | Meant::Variable { .. }
        | Meant::FarVariable
        | Meant::Procedure { .. } => Err(broken(Rule::WrongKind, name.place)),
    }
}

/// The length of an array by the value of its expression, which begins at a place.
fn array_length(value: Scalar, place: usize) -> Result<usize, CheckFault>
    ensures typed { IfOk result (λ n. length_at place value ≡ Right n) }
    ensures fault { IfErr result (λ f. Fails f (length_at place value)) }
{
    let Scalar::Int(number) = value else {
        return Err(broken(Rule::TypesDiffer, place));
    };
    if number < 1 || number > LONGEST {
        return Err(broken(Rule::BadLength, place));
    }
    Ok(number as usize)
}

/// An array that begins at a place.
fn array_of(
    scopes: &mut Scopes,
    place: usize,
    length: usize,
    element: DataType,
) -> Result<DataType, CheckFault>
    requires known { is_below (Lists.length (types_in scopes.old)) element ≡ true }
    ensures typed { IfOk result (λ t. small_at place (Programs.Array place length (type_in (types_in scopes.old) element)) ≡ Right (type_in (types_in scopes.new) t)) }
    ensures known { IfOk result (λ t. is_below (Lists.length (types_in scopes.new)) t ≡ true) }
    ensures names { OnOk result (env_of scopes.new ≡ env_of scopes.old) }
    ensures extends { OnOk result (Extends (types_in scopes.old) (types_in scopes.new)) }
    ensures fault { IfErr result (λ f. Fails f (small_at place (Programs.Array place length (type_in (types_in scopes.old) element)))) }
{
    match scopes.array(place, length, element)? {
        Some(data_type) => Ok(data_type),
        None => Err(broken(Rule::PassesLimit, place)),
    }
}

/// A record that begins at a place.
fn record_of(scopes: &mut Scopes, place: usize, fields: Fields) -> Result<DataType, CheckFault>
    requires known { all_below (length (types_in scopes.old)) (fields_in fields) ≡ true }
    ensures typed { IfOk result (λ t. small_at place (Programs.Record place (declared_fields scopes.old fields)) ≡ Right (type_in (types_in scopes.new) t)) }
    ensures known { IfOk result (λ t. is_below (length (types_in scopes.new)) t ≡ true) }
    ensures names { OnOk result (env_of scopes.new ≡ env_of scopes.old) }
    ensures extends { OnOk result (Extends (types_in scopes.old) (types_in scopes.new)) }
    ensures fault { IfErr result (λ f. Fails f (small_at place (Programs.Record place (declared_fields scopes.old fields)))) }
{
    match scopes.record(place, fields)? {
        Some(data_type) => Ok(data_type),
        None => Err(broken(Rule::PassesLimit, place)),
    }
}
