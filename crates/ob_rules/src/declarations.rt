//! Declarations, in text order.

ghost use Rattle.std.specs.Prelude.{◌≡◌, true, List, ◌∷◌, ◌++◌, ◌+◌, length, map, nat_le, Some, None, option_map, if◌then◌else◌, OnOk, IfOk, IfErr};
ghost use Rattle.ob_grammar.specs.Tree as trees;
ghost use Rattle.ob_grammar.specs.View.{expr_of, name_of, const_decl_of, type_decl_of, var_decl_of};
ghost use Rattle.ob_typing.specs.Scopes.{words};
ghost use Rattle.ob_typing.specs.Declarations as Declared;
ghost use Rattle.ob_typing.specs.Declarations.{first_beyond, room_behind};
ghost use Rattle.ob_typing.specs.declared.rule.Rule.TheVariants.{PassesLimit};
ghost use Rattle.ob_typing.specs.Verdict.{Right, unless_name};
ghost use Rattle.ob_typing.specs.TypeVerdicts as Constants;
ghost use Rattle.ob_typing.specs.ModuleVerdicts as Verdicts;
ghost use Rattle.ob_checked.specs.Types.{type_in, is_below, Extends};
ghost use Rattle.ob_scopes.specs.Names.{types_in, env_of};
ghost use Rattle.ob_rules.specs.ByScopes.{declaring_variables, named_variables, names_with_variables, variables_by, with_variables, VariablesStayKnown};
ghost use Rattle.ob_rules.specs.Checking.{Fails};
ghost use Rattle.ob_rules.specs.CheckingVariables.{room_of, known_variables};
ghost use Rattle.ob_rules.specs.FirstParts.{DeclaresConstant, DeclaresType, DeclaresVariables};

use crate::expressions::{expression, first_place};
use crate::type_expressions::denoted;
use ob_checked::program::Variable;
use ob_checked::types::DataType;
use ob_grammar::tree::{ConstDecl, Expr, Name, TypeDecl, VarDecl};
use ob_interface::scalar::Scalar;
use ob_scopes::constants::Usage;
use ob_scopes::fault::{CheckFault, broken};
use ob_scopes::scopes::Scopes;
use ob_typing::rule::Rule;
use std::alloc::Global;

/// The room for the variables of a scope: how many names stand there, the words that they take, and the most words.
#[derive(Clone, Copy)]
pub struct Room {
    pub names: usize,
    pub taken: usize,
    pub limit: usize,
}

/// The value of a constant expression.
pub fn constant(alloc: Global, scopes: &Scopes, expr: &Expr) -> Result<Scalar, CheckFault>
    ensures typed { IfOk result (λ v. Constants.constant (env_of scopes.now) (expr_of expr.now) ≡ Right v) }
    ensures fault { IfErr result (λ f. Fails f (Constants.constant (env_of scopes.now) (expr_of expr.now))) }
{
    let checked = expression(alloc, scopes, expr, Usage::InConstant)?;
    match checked.value {
        Some(value) => Ok(value),
        // The value of a constant expression is known, so this is never met.
        None => Err(broken(Rule::BadConstant, first_place(expr))),
    }
}

/// Declares constants, each under those before it.
pub fn declare_constants(
    alloc: Global,
    scopes: &mut Scopes,
    constants: &[ConstDecl],
) -> Result<(), CheckFault>
    ensures ok { OnOk result (Verdicts.constants (map const_decl_of constants.now) (env_of scopes.old) ≡ Right (env_of scopes.new)) }
    ensures types { OnOk result (types_in scopes.new ≡ types_in scopes.old) }
    ensures fault { IfErr result (λ f. Fails f (Verdicts.constants (map const_decl_of constants.now) (env_of scopes.old))) }
{
    for declaration in constants {
        declare_constant(alloc, scopes, declaration)?;
    }
    Ok(())
}

/// Declares a constant. Its name is tested first.
fn declare_constant(
    alloc: Global,
    scopes: &mut Scopes,
    declaration: &ConstDecl,
) -> Result<(), CheckFault>
    ensures ok { OnOk result (DeclaresConstant declaration.now scopes.old scopes.new) }
    ensures types { OnOk result (types_in scopes.new ≡ types_in scopes.old) }
    ensures fault { IfErr result (λ f. (rest : List trees.ConstDecl) → Fails f (Verdicts.constants (const_decl_of declaration.now ∷ rest) (env_of scopes.old))) }
{
    if scopes.declares(&declaration.name.text) {
        return Err(broken(Rule::DeclaredTwice, declaration.name.place));
    }
    let value = constant(alloc, scopes, &declaration.value)?;
    scopes.declare_constant(alloc, &declaration.name.text, value)
}

/// Declares types, each under those before it.
pub fn declare_types(
    alloc: Global,
    scopes: &mut Scopes,
    types: &[TypeDecl],
) -> Result<(), CheckFault>
    ensures ok { OnOk result (Verdicts.types (map type_decl_of types.now) (env_of scopes.old) ≡ Right (env_of scopes.new)) }
    ensures extends { OnOk result (Extends (types_in scopes.old) (types_in scopes.new)) }
    ensures fault { IfErr result (λ f. Fails f (Verdicts.types (map type_decl_of types.now) (env_of scopes.old))) }
{
    for declaration in types {
        declare_type(alloc, scopes, declaration)?;
    }
    Ok(())
}

/// Declares a type. Its name is tested first.
fn declare_type(
    alloc: Global,
    scopes: &mut Scopes,
    declaration: &TypeDecl,
) -> Result<(), CheckFault>
    ensures ok { OnOk result (DeclaresType declaration.now scopes.old scopes.new) }
    ensures extends { OnOk result (Extends (types_in scopes.old) (types_in scopes.new)) }
    ensures fault { IfErr result (λ f. (rest : List trees.TypeDecl) → Fails f (Verdicts.types (type_decl_of declaration.now ∷ rest) (env_of scopes.old))) }
{
    let name = &declaration.name;
    if scopes.declares(&name.text) {
        return Err(broken(Rule::DeclaredTwice, name.place));
    }
    let data_type = denoted(alloc, scopes, &declaration.definition)?;
    scopes.declare_type(alloc, &name.text, data_type)
}

/// Declares variables, each under those before it, where there is room for them.
pub fn declare_variables(
    alloc: Global,
    scopes: &mut Scopes,
    declarations: &[VarDecl],
    room: Room,
) -> Result<Vec<Variable>, CheckFault>
    ensures typed { IfOk result (λ vs. declaring_variables scopes.old room (map var_decl_of declarations.now) ≡ Right (with_variables scopes.new vs.items)) }
    ensures known { IfOk result (λ vs. known_variables (length (types_in scopes.new)) vs.items ≡ true) }
    ensures extends { OnOk result (Extends (types_in scopes.old) (types_in scopes.new)) }
    ensures fault { IfErr result (λ f. Fails f (declaring_variables scopes.old room (map var_decl_of declarations.now))) }
{
    let mut variables = Vec::new(alloc);
    let mut left = room;
    for declaration in declarations {
        left = declare_of_type(alloc, scopes, declaration, left, &mut variables)?;
    }
    Ok(variables)
}

/// Declares variables of one type; the answer is the room behind them. Their names are tested before the type is looked at.
fn declare_of_type(
    alloc: Global,
    scopes: &mut Scopes,
    declaration: &VarDecl,
    room: Room,
    variables: &mut Vec<Variable>,
) -> Result<Room, CheckFault>
    requires known { known_variables (length (types_in scopes.old)) variables.old.items ≡ true }
    ensures typed { IfOk result (λ left. DeclaresVariables declaration.now scopes.old room variables.old.items scopes.new left variables.new.items) }
    ensures known { OnOk result (known_variables (length (types_in scopes.new)) variables.new.items ≡ true) }
    ensures extends { OnOk result (Extends (types_in scopes.old) (types_in scopes.new)) }
    ensures fault { IfErr result (λ f. (rest : List trees.VarDecl) → Fails f (declaring_variables scopes.old room (var_decl_of declaration.now ∷ rest))) }
{
    if let Some(name) = scopes.second(alloc, &declaration.names)? {
        return Err(broken(Rule::DeclaredTwice, name.place));
    }
    let data_type = denoted(alloc, scopes, &declaration.of_type)?;
    declare_names(
        alloc,
        scopes,
        &declaration.names,
        data_type,
        room,
        variables,
    )
}

/// Declares names as variables of a type, where there is room for them; the answer is the room behind them.
fn declare_names(
    alloc: Global,
    scopes: &mut Scopes,
    names: &[Name],
    data_type: DataType,
    room: Room,
    variables: &mut Vec<Variable>,
) -> Result<Room, CheckFault>
    requires known { is_below (length (types_in scopes.old)) data_type ≡ true }
    ensures fits { OnOk result (first_beyond (room_of room) (words (type_in (types_in scopes.old) data_type)) (map name_of names.now) ≡ None) }
    ensures names { OnOk result (env_of scopes.new ≡ names_with_variables scopes.old room data_type names.now) }
    ensures room { IfOk result (λ r. room_of r ≡ room_behind (room_of room) (type_in (types_in scopes.old) data_type) (map name_of names.now)) }
    ensures variables { OnOk result (variables_by scopes.old variables.new.items ≡ variables_by scopes.old variables.old.items ++ named_variables scopes.old data_type names.now) }
    ensures known { OnOk result (VariablesStayKnown scopes.old variables.old.items variables.new.items) }
    ensures types { OnOk result (types_in scopes.new ≡ types_in scopes.old) }
    ensures fault { IfErr result (λ f. Fails f (unless_name (first_beyond (room_of room) (words (type_in (types_in scopes.old) data_type)) (map name_of names.now)) PassesLimit)) }
{
    let words = scopes.types().words(data_type);
    let mut left = room;
    for name in names {
        let position = left.names;
        left = match with_words(left, words)? {
            Some(next) => next,
            None => return Err(broken(Rule::PassesLimit, name.place)),
        };
        scopes.declare_variable(alloc, &name.text, position, data_type)?;
        let name = name.text.clone()?;
        variables.push(Variable { name, data_type })?;
    }
    Ok(left)
}

/// The room with one variable more, of so many words; `None` where there is none for it.
fn with_words(room: Room, words: usize) -> Result<Option<Room>, CheckFault>
    ensures room { IfOk result (λ r. option_map room_of r ≡ (if nat_le (room.taken + words) room.limit then Some (Declared.with_words (room_of room) words) else None)) }
    ensures fault { IfErr result (λ f. f ≡ CheckFault.NoMemory) }
{
    let Some(taken) = room.taken.checked_add(words) else {
        return Ok(None);
    };
    if taken > room.limit {
        return Ok(None);
    }
    // No memory holds more names than can be counted.
    let Some(names) = room.names.checked_add(1) else {
        return Err(CheckFault::NoMemory);
    };
    Ok(Some(Room {
        names,
        taken,
        limit: room.limit,
    }))
}
