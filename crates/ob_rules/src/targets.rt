//! Variables and their parts, as targets of assignments and as actuals for VAR.

ghost use Rattle.std.specs.Prelude.{◌≡◌, ℕ, List, IfOk, IfErr, Some};
ghost use Rattle.ob_typing.specs.Scopes.{holds};
ghost use Rattle.ob_typing.specs.StatementFaults.{place_broken};
ghost use Rattle.ob_typing.specs.Verdict.{Right};
ghost use Rattle.ob_checked.specs.Types.{Entry, type_in};
ghost use Rattle.ob_checked.specs.View.{table_of};
ghost use Rattle.ob_scopes.specs.Names.{types_in, meant_of};
ghost use Rattle.ob_rules.specs.ByScopes.{designated_by};
ghost use Rattle.ob_rules.specs.Checking.{Fails};
ghost use Rattle.ob_rules.specs.Designations.{variable_of, designation_of};

use crate::expressions::selecting;
use ob_checked::program::{Designator, Owner, Slot};
use ob_checked::types::{DataType, Types};
use ob_checked::written_operators::same_scalar_type;
use ob_grammar::tree;
use ob_interface::scalar::ScalarType;
use ob_scopes::constants::Usage;
use ob_scopes::fault::{CheckFault, broken};
use ob_scopes::scopes::{Meant, Scopes};
use ob_scopes::type_parts::simple_type;
use ob_typing::rule::Rule;
use std::alloc::Global;

/// A variable that a name stands for, with its type.
#[derive(Clone, Copy)]
pub struct KnownVariable {
    pub owner: Owner,
    pub position: usize,
    pub data_type: DataType,
}

/// A variable or a part of it, with its type.
#[derive(Drop)]
pub struct Designation {
    pub data_type: DataType,
    pub variable: Designator,
}

/// The variable that a name stands for, or the rule that it breaks where a variable is needed.
fn variable_meant(meant: &Meant<'_>) -> Result<KnownVariable, Rule>
    ensures variable { IfOk result (λ v. (types : List Entry) (name : List ℕ) → meant_of types name meant.now ≡ variable_of types name v) }
    ensures broken { IfErr result (λ r. (types : List Entry) (name : List ℕ) → place_broken (meant_of types name meant.now) ≡ Some r) }
{
    match meant {
        Meant::Nothing => Err(Rule::UnknownName),
        Meant::FarVariable => Err(Rule::WrongLevel),
        Meant::Constant(_) | Meant::TypeName(_) | Meant::Procedure { .. } => Err(Rule::WrongKind),
        Meant::Variable {
            owner,
            position,
            data_type,
        } => Ok(KnownVariable {
            owner: *owner,
            position: *position,
            data_type: *data_type,
        }),
    }
}

/// The variable or the part of it that a target or an actual for VAR names.
pub fn designated(
    alloc: Global,
    scopes: &Scopes,
    designator: &tree::Designator,
) -> Result<Designation, CheckFault>
    ensures typed { IfOk result (λ x. designated_by scopes.now designator.now ≡ Right (designation_of (types_in scopes.now) x)) }
    ensures fault { IfErr result (λ f. Fails f (designated_by scopes.now designator.now)) }
{
    let meant = scopes.meant(&designator.name.text);
    let known = match variable_meant(&meant) {
        Ok(known) => known,
        Err(rule) => return Err(broken(rule, designator.name.place)),
    };
    let path = selecting(
        alloc,
        scopes,
        &designator.selectors,
        Usage::InStatement,
        known.data_type,
    )?;
    let name = designator.name.text.clone()?;
    let slot = Slot {
        owner: known.owner,
        position: known.position,
        name,
    };
    let selectors = path.selectors;
    Ok(Designation {
        data_type: path.data_type,
        variable: Designator { slot, selectors },
    })
}

/// Whether a variable of a type holds scalars of another one.
pub fn holds(types: &Types, data_type: DataType, scalar: ScalarType) -> bool
    ensures { result ≡ holds (type_in (table_of types.now) data_type) scalar }
{
    match simple_type(types, data_type) {
        Some(simple) => same_scalar_type(simple, scalar),
        None => false,
    }
}
