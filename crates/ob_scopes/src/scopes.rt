//! The names that are declared so far, and the types that they speak of.

ghost use Rattle.std.specs.Prelude.{◌≡◌, ◌&&◌, true, ℕ, length, option_map, List, [], OnOk, OnErr, IfOk, IfErr, IfSome};
ghost use Rattle.ob_typing.specs.Scopes.{found, with_name, outermost};
ghost use Rattle.ob_checked.specs.Types.{Entry};
ghost use Rattle.ob_checked.specs.View.{table_of};
ghost use Rattle.ob_scopes.specs.Objects.{object_of, scope_of, env_behind, known_object, known_names, known_scopes};

use crate::fault::CheckFault;
use crate::taken::second;
use ob_checked::fields::Fields;
use ob_checked::operators::type_of;
use ob_checked::program::{Owner, Parameter};
use ob_checked::types::{DataType, Types};
use ob_grammar::tree::Name;
use ob_interface::scalar::{Scalar, ScalarType};
use std::alloc::Global;
use std::collections::BTreeMap;
use std::mem::replace;

/// The number of scopes in the module's declarations: its own, in the outermost one.
const MODULE_LEVEL: usize = 2;

/// What a name is declared as.
#[derive(Drop)]
pub enum Object {
    Constant(Scalar),
    TypeName(DataType),
    ModuleVariable {
        position: usize,
        data_type: DataType,
    },
    /// A variable or a parameter of a procedure, with the number of scopes at its declaration.
    LocalVariable {
        level: usize,
        position: usize,
        data_type: DataType,
    },
    Procedure {
        number: usize,
        parameters: Vec<Parameter>,
    },
}

/// What each name of a scope is declared as. Names are kept in order and not hashed: who writes a module chooses them.
pub type Scope = BTreeMap<String, Object>;

/// The names that are declared so far, and the types that they speak of; those of inner scopes hide those of outer ones.
#[derive(Drop)]
pub struct Scopes {
    types: Types,
    /// The scopes around the innermost one, the outermost first.
    around: Vec<Scope>,
    own: Scope,
    ghost known: { (known_names (length (table_of types)) own.entries && known_scopes (length (table_of types)) around.items) ≡ true },
}

/// What a name stands for where it is used.
#[derive(Drop)]
pub enum Meant<'s> {
    Nothing,
    Constant(Scalar),
    TypeName(DataType),
    Variable {
        owner: Owner,
        position: usize,
        data_type: DataType,
    },
    /// A variable of a procedure around the innermost one.
    FarVariable,
    Procedure {
        number: usize,
        parameters: &'s [Parameter],
    },
}

/// A value that a name stands for.
#[derive(Clone, Copy)]
pub enum Value {
    Constant(Scalar),
    Variable {
        owner: Owner,
        position: usize,
        data_type: DataType,
    },
}

impl Value {
    ghost use Rattle.std.specs.Prelude.{◌≡◌, ℕ, Some, List};
    ghost use Rattle.ob_typing.specs.Scopes.{type_meant};
    ghost use Rattle.ob_checked.specs.Types.{Entry, type_in};
    ghost use Rattle.ob_scopes.specs.Names.{value_of};

    /// Its type.
    pub fn data_type(&self) -> DataType
        ensures { (types : List Entry) (name : List ℕ) → type_meant (value_of types name self.now) ≡ Some (type_in types result) }
    {
        match self {
            Value::Constant(value) => DataType::Simple(type_of(*value)),
            Value::Variable { data_type, .. } => *data_type,
        }
    }
}

/// Adds a name to a scope, or replaces it there.
fn add(alloc: Global, scope: &mut Scope, name: &str, object: Object) -> Result<(), CheckFault>
    ensures ok { OnOk result ((types : List Entry) → scope_of types scope.new ≡ with_name (scope_of types scope.old) name.now (object_of types object)) }
    ensures known { (n : ℕ) → known_names n scope.old.entries ≡ true → known_object n object ≡ true → known_names n scope.new.entries ≡ true }
    ensures fault { IfErr result (λ f. f ≡ CheckFault.NoMemory) }
    ensures unchanged { OnErr result ((types : List Entry) → scope_of types scope.new ≡ scope_of types scope.old) }
{
    let key = String::from_str(alloc, name)?;
    scope.insert(key, object)?;
    Ok(())
}

/// The outermost scope.
fn outermost_scope(alloc: Global) -> Result<Scope, CheckFault>
    ensures names { IfOk result (λ s. (types : List Entry) → scope_of types s ≡ outermost) }
    ensures known { IfOk result (λ s. (n : ℕ) → known_names n s.entries ≡ true) }
    ensures fault { IfErr result (λ f. f ≡ CheckFault.NoMemory) }
{
    let mut names = BTreeMap::new(alloc);
    let boolean = DataType::Simple(ScalarType::Boolean);
    let integer = DataType::Simple(ScalarType::Integer);
    add(
        alloc,
        &mut names,
        "FALSE",
        Object::Constant(Scalar::Bool(false)),
    )?;
    add(
        alloc,
        &mut names,
        "TRUE",
        Object::Constant(Scalar::Bool(true)),
    )?;
    add(alloc, &mut names, "BOOLEAN", Object::TypeName(boolean))?;
    add(alloc, &mut names, "INTEGER", Object::TypeName(integer))?;
    Ok(names)
}

/// What a name is declared as in the innermost of these scopes that declares it.
fn found_around<'s>(scopes: &'s [Scope], name: &str) -> Option<&'s Object>
    ensures object { (types : List Entry) → option_map (λ o. object_of types o.now) result ≡ found (env_behind types scopes.now []) name.now }
    ensures known { (n : ℕ) → known_scopes n scopes.now ≡ true → IfSome result (λ o. known_object n o.now ≡ true) }
{
    let mut level = scopes.len();
    while level > 0 {
        level -= 1;
        match scopes[level].get(name) {
            Some(object) => return Some(object),
            None => {}
        }
    }
    None
}

impl Scopes {
    ghost use Rattle.std.specs.Prelude.{◌≡◌, ◌<◌, true, ℕ, length, option_map, map, ◌∷◌, [], OnOk, OnErr, IfOk, IfErr, IfSome};
    ghost use Rattle.std.specs.Prelude as Lists;
    ghost use Rattle.ob_grammar.specs.View.{name_of};
    ghost use Rattle.ob_typing.specs.Program as Programs;
    ghost use Rattle.ob_typing.specs.Types.{second};
    ghost use Rattle.ob_typing.specs.Scopes as Declared;
    ghost use Rattle.ob_typing.specs.Scopes.{found, level, meant, is_declared, declared, opening_names, variable_in};
    ghost use Rattle.ob_checked.specs.Types.{type_in, types_of, fields_in, fields_by, is_below, all_below, if_small, Extends};
    ghost use Rattle.ob_checked.specs.View.{table_of, parameter_of};
    ghost use Rattle.ob_scopes.specs.Objects.{object_of, scope_of, known_object, known_names, known_parameters};
    ghost use Rattle.ob_scopes.specs.Names.{types_in, env_of, meant_of, known_meant};

    /// The names that a module's text begins under.
    pub fn new(alloc: Global) -> Result<Scopes, CheckFault>
        ensures opening { IfOk result (λ s. env_of s ≡ opening_names) }
        ensures types { IfOk result (λ s. types_in s ≡ []) }
        ensures fault { IfErr result (λ f. f ≡ CheckFault.NoMemory) }
    {
        let outermost = outermost_scope(alloc)?;
        let mut around = Vec::new(alloc);
        around.push(outermost)?;
        Ok(Scopes {
            types: Types::new(alloc),
            around,
            own: BTreeMap::new(alloc),
        })
    }

    /// The types of the program so far.
    pub fn types(&self) -> &Types
        ensures { table_of result.now ≡ types_in self.now }
    {
        &self.types
    }

    /// How many scopes there are.
    pub fn level(&self) -> usize
        ensures { result ≡ level (env_of self.now) }
    {
        self.around.len() + 1
    }

    /// What a name is declared as.
    pub fn find(&self, name: &str) -> Option<&Object>
        ensures object { option_map (λ o. object_of (types_in self.now) o.now) result ≡ found (env_of self.now) name.now }
        ensures known { IfSome result (λ o. known_object (length (types_in self.now)) o.now ≡ true) }
    {
        if let Some(object) = self.own.get(name) {
            return Some(object);
        }
        found_around(&self.around, name)
    }

    /// What a name stands for.
    pub fn meant(&self, name: &str) -> Meant<'_>
        ensures meant { meant_of (types_in self.now) name.now result ≡ meant (env_of self.now) name.now }
        ensures known { known_meant (length (types_in self.now)) result ≡ true }
    {
        match self.find(name) {
            None => Meant::Nothing,
            Some(Object::Constant(value)) => Meant::Constant(*value),
            Some(Object::TypeName(data_type)) => Meant::TypeName(*data_type),
            Some(
                Object::ModuleVariable {
                    position,
                    data_type,
                },
            ) => Meant::Variable {
                owner: Owner::Module,
                position: *position,
                data_type: *data_type,
            },
            Some(
                Object::LocalVariable {
                    level,
                    position,
                    data_type,
                },
            ) => {
                if *level != self.level() {
                    return Meant::FarVariable;
                }
                Meant::Variable {
                    owner: Owner::Own,
                    position: *position,
                    data_type: *data_type,
                }
            }
            Some(Object::Procedure { number, parameters }) => Meant::Procedure {
                number: *number,
                parameters,
            },
        }
    }

    /// Whether the innermost scope declares a name.
    pub fn declares(&self, name: &str) -> bool
        ensures { result ≡ is_declared (env_of self.now) name.now }
    {
        self.own.contains_key(name)
    }

    /// Declares a constant in the innermost scope.
    pub fn declare_constant(
        &mut self,
        alloc: Global,
        name: &str,
        value: Scalar,
    ) -> Result<(), CheckFault>
        ensures ok { OnOk result (env_of self.new ≡ declared (env_of self.old) name.now (Declared.Constant value)) }
        ensures types { types_in self.new ≡ types_in self.old }
        ensures fault { IfErr result (λ f. f ≡ CheckFault.NoMemory) }
        ensures unchanged { OnErr result (env_of self.new ≡ env_of self.old) }
    {
        add(alloc, &mut self.own, name, Object::Constant(value))
    }

    /// The first of the names that the innermost scope declares, or that stands before in the list.
    pub fn second<'n>(
        &self,
        alloc: Global,
        names: &'n [Name],
    ) -> Result<Option<&'n Name>, CheckFault>
        ensures second { IfOk result (λ r. option_map (λ n. name_of n.now) r ≡ second (is_declared (env_of self.now)) (map name_of names.now)) }
        ensures fault { IfErr result (λ f. f ≡ CheckFault.NoMemory) }
    {
        second(alloc, &self.own, names)
    }

    /// Adds an array to the types, where it keeps the limits. What names stand for stays.
    pub fn array(
        &mut self,
        place: usize,
        length: usize,
        element: DataType,
    ) -> Result<Option<DataType>, CheckFault>
        requires known { is_below (Lists.length (types_in self.old)) element ≡ true }
        ensures given { IfOk result (λ r. option_map (type_in (types_in self.new)) r ≡ if_small (Programs.Array place length (type_in (types_in self.old) element))) }
        ensures known { IfOk result (λ r. IfSome r (λ t. is_below (Lists.length (types_in self.new)) t ≡ true)) }
        ensures extends { Extends (types_in self.old) (types_in self.new) }
        ensures names { env_of self.new ≡ env_of self.old }
        ensures fault { IfErr result (λ f. f ≡ CheckFault.NoMemory) }
        ensures unchanged { OnErr result (types_in self.new ≡ types_in self.old) }
    {
        let added = self.types.array(place, length, element)?;
        Ok(added)
    }

    /// Adds a record to the types, where it keeps the limits. What names stand for stays.
    pub fn record(&mut self, place: usize, fields: Fields) -> Result<Option<DataType>, CheckFault>
        requires known { all_below (length (types_in self.old)) (fields_in fields) ≡ true }
        ensures given { IfOk result (λ r. option_map (type_in (types_in self.new)) r ≡ if_small (Programs.Record place (fields_by (types_of (types_in self.old)) (fields_in fields)))) }
        ensures known { IfOk result (λ r. IfSome r (λ t. is_below (length (types_in self.new)) t ≡ true)) }
        ensures extends { Extends (types_in self.old) (types_in self.new) }
        ensures names { env_of self.new ≡ env_of self.old }
        ensures fault { IfErr result (λ f. f ≡ CheckFault.NoMemory) }
        ensures unchanged { OnErr result (types_in self.new ≡ types_in self.old) }
    {
        let added = self.types.record(place, fields)?;
        Ok(added)
    }

    /// Declares a name for a type in the innermost scope.
    pub fn declare_type(
        &mut self,
        alloc: Global,
        name: &str,
        data_type: DataType,
    ) -> Result<(), CheckFault>
        requires known { is_below (length (types_in self.old)) data_type ≡ true }
        ensures ok { OnOk result (env_of self.new ≡ declared (env_of self.old) name.now (Declared.TypeName (type_in (types_in self.old) data_type))) }
        ensures types { types_in self.new ≡ types_in self.old }
        ensures fault { IfErr result (λ f. f ≡ CheckFault.NoMemory) }
        ensures unchanged { OnErr result (env_of self.new ≡ env_of self.old) }
    {
        add(alloc, &mut self.own, name, Object::TypeName(data_type))
    }

    /// Declares a variable of the innermost scope at a position among the owner's variables: of the module, or of a
    /// procedure with the number of scopes.
    pub fn declare_variable(
        &mut self,
        alloc: Global,
        name: &str,
        position: usize,
        data_type: DataType,
    ) -> Result<(), CheckFault>
        requires known { is_below (length (types_in self.old)) data_type ≡ true }
        ensures ok { OnOk result (env_of self.new ≡ declared (env_of self.old) name.now (variable_in (env_of self.old) position (type_in (types_in self.old) data_type))) }
        ensures types { types_in self.new ≡ types_in self.old }
        ensures fault { IfErr result (λ f. f ≡ CheckFault.NoMemory) }
        ensures unchanged { OnErr result (env_of self.new ≡ env_of self.old) }
    {
        let level = self.level();
        let variable = if level == MODULE_LEVEL {
            Object::ModuleVariable {
                position,
                data_type,
            }
        } else {
            Object::LocalVariable {
                level,
                position,
                data_type,
            }
        };
        add(alloc, &mut self.own, name, variable)
    }

    /// Declares a procedure in the innermost scope.
    pub fn declare_procedure(
        &mut self,
        alloc: Global,
        name: &str,
        number: usize,
        parameters: Vec<Parameter>,
    ) -> Result<(), CheckFault>
        requires known { known_parameters (length (types_in self.old)) parameters.items ≡ true }
        ensures ok { OnOk result (env_of self.new ≡ declared (env_of self.old) name.now (Declared.ProcedureName number (map (parameter_of (types_in self.old)) parameters.items))) }
        ensures types { types_in self.new ≡ types_in self.old }
        ensures fault { IfErr result (λ f. f ≡ CheckFault.NoMemory) }
        ensures unchanged { OnErr result (env_of self.new ≡ env_of self.old) }
    {
        add(
            alloc,
            &mut self.own,
            name,
            Object::Procedure { number, parameters },
        )
    }

    /// Puts a scope within the innermost one.
    pub fn enter(&mut self, scope: Scope) -> Result<(), CheckFault>
        requires known { known_names (length (types_in self.old)) scope.entries ≡ true }
        ensures ok { OnOk result (env_of self.new ≡ scope_of (types_in self.old) scope ∷ env_of self.old) }
        ensures types { types_in self.new ≡ types_in self.old }
        ensures fault { IfErr result (λ f. f ≡ CheckFault.NoMemory) }
        ensures unchanged { OnErr result (env_of self.new ≡ env_of self.old) }
    {
        let outer = replace(&mut self.own, scope);
        match self.around.push(outer) {
            Ok(()) => Ok(()),
            Err(failed) => {
                self.own = failed.value;
                Err(CheckFault::NoMemory)
            }
        }
    }

    /// Takes the innermost scope away.
    pub fn leave(&mut self) -> Scope
        requires within { 1 < level (env_of self.old) }
        ensures scope { env_of self.old ≡ scope_of (types_in self.old) result ∷ env_of self.new }
        ensures known { known_names (length (types_in self.old)) result.entries ≡ true }
        ensures types { types_in self.new ≡ types_in self.old }
    {
        let outer = self.around.remove(self.around.len() - 1);
        replace(&mut self.own, outer)
    }

    /// The types alone.
    pub fn into_types(self) -> Types
        ensures { table_of result ≡ types_in self }
    {
        self.types
    }
}
