//! The state that is carried over to a module.

ghost use Rattle.std.specs.Prelude.{◌≡◌, IfErr, IfOk, OnOk, map};
ghost use Rattle.ob_meaning.specs.Resolved.{AreDistinct, module_scope};
ghost use Rattle.ob_meaning.specs.Same.{SameState};
ghost use Rattle.ob_checked.specs.CheckedModule.{program_in};
ghost use Rattle.ob_checked.specs.View.{program_of, table_of, variable_of};
ghost use Rattle.ob_store.specs.View.{state_of, variables_in};
ghost use Rattle.ob_carry.specs.Carried.{AreCarriable, IsCarryFault, carried, position_from};
ghost use Rattle.ob_carry.specs.View.{entries_of};

use crate::fields_by_name::NamedField;
use crate::fitting::fitted;
use ob_checked::checked::Checked;
use ob_checked::program::{Program, Variable};
use ob_checked::types::Types;
use ob_interface::NoMemory;
use ob_mean::begun::state_begun;
use ob_meaning::agreement_laws::well_typed_is_resolved;
use ob_store::state::State;
use ob_store::store::overwrite;
use std::alloc::{AllocError, Global};
use thiserror::Error;

/// Why values can't be carried over: the first of them that can't, in the list's order, by its position from 0.
#[derive(Clone, Copy, Debug, Error)]
pub enum CarryFault {
    /// M1: its name is none of the module's variables.
    #[error("M1 {0}")]
    Unknown(usize),
    /// M2: it is no value of its variable's type.
    #[error("M2 {0}")]
    Unfit(usize),
    /// Want of memory.
    #[error("NoMemory")]
    NoMemory,
}

impl From<AllocError> for CarryFault {
    ghost use Rattle.std.specs.Prelude.{◌≡◌};
    ghost use Rattle.ob_carry.specs.declared.carrying.CarryFault.TheVariants as Faults;

    ghost from_gives = { λ _ fault. fault ≡ Faults.NoMemory };

    fn from(_: AllocError) -> CarryFault {
        CarryFault::NoMemory
    }
}

impl From<NoMemory> for CarryFault {
    ghost use Rattle.std.specs.Prelude.{◌≡◌};
    ghost use Rattle.ob_carry.specs.declared.carrying.CarryFault.TheVariants as Faults;

    ghost from_gives = { λ _ fault. fault ≡ Faults.NoMemory };

    fn from(_: NoMemory) -> CarryFault {
        CarryFault::NoMemory
    }
}

/// The position of the variable of a name.
fn position_of(types: &Types, variables: &[Variable], name: &str) -> Option<usize>
    ensures { result ≡ position_from 0 (map (variable_of (table_of types.now)) variables.now) name.now }
{
    for (position, variable) in variables.iter().enumerate() {
        if variable.name.as_str() == name {
            return Some(position);
        }
    }
    None
}

/// The module's variables with the values that a list gives to their names, where it names variables of the module and gives
/// them values of their types, and 0 or FALSE throughout where it does not name them. Of a name that stands twice the last
/// value counts. The module's body is not run. It takes a comparison of names for each value and each variable.
pub fn carry(alloc: Global, checked: &Checked, values: &[NamedField]) -> Result<State, CarryFault>
    ensures state { IfOk result (λ s. SameState (program_in checked.now) (carried (program_in checked.now) (entries_of values.now)) (state_of s)) }
    ensures carriable { OnOk result (AreCarriable (program_in checked.now).variables (entries_of values.now)) }
    ensures fault { IfErr result (IsCarryFault (program_in checked.now).variables (entries_of values.now)) }
{
    well_typed_is_resolved();
    carry_to(alloc, checked.program(), values)
}

/// The same of a program whose variables have distinct names.
fn carry_to(alloc: Global, program: &Program, values: &[NamedField]) -> Result<State, CarryFault>
    requires distinct { AreDistinct (module_scope (program_of program.now)) }
    ensures state { IfOk result (λ s. SameState (program_of program.now) (carried (program_of program.now) (entries_of values.now)) (state_of s)) }
    ensures carriable { OnOk result (AreCarriable (program_of program.now).variables (entries_of values.now)) }
    ensures fault { IfErr result (IsCarryFault (program_of program.now).variables (entries_of values.now)) }
{
    let variables = program.variables.as_slice();
    let mut all = state_begun(alloc, &program.types, variables)?.into_values();
    for (place, given) in values.iter().enumerate() {
        let Some(position) = position_of(&program.types, variables, &given.name) else {
            return Err(CarryFault::Unknown(place));
        };
        let data_type = variables[position].data_type;
        let Some(value) = fitted(alloc, &program.types, data_type, &given.value)? else {
            return Err(CarryFault::Unfit(place));
        };
        overwrite(all.as_mut_slice(), position, &[], value);
    }
    Ok(State::new(all))
}
