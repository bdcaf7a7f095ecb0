//! The values of a state by the names of its variables.

ghost use Rattle.std.specs.Prelude.{IfOk, map};
ghost use Rattle.ob_checked.specs.CheckedModule.{program_in};
ghost use Rattle.ob_checked.specs.View.{table_of, variable_of};
ghost use Rattle.ob_store.specs.View.{state_of, variables_in};
ghost use Rattle.ob_carry.specs.View.{entries_of};
ghost use Rattle.ob_carry.specs.NamedValues.{AreToldOf, CarryBack};

use crate::fields_by_name::NamedField;
use crate::naming::named;
use ob_checked::checked::Checked;
use ob_checked::program::Variable;
use ob_checked::types::Types;
use ob_interface::NoMemory;
use ob_store::state::State;
use ob_store::value::Value;
use std::alloc::Global;

/// The values of a state of a checked module by the names of its variables, in text order: carried over, they are that state.
pub fn named_values(
    alloc: Global,
    checked: &Checked,
    state: &State,
) -> Result<Vec<NamedField>, NoMemory>
    ensures { IfOk result (λ values. CarryBack (program_in checked.now) (entries_of values.items) (state_of state.now)) }
{
    let program = checked.program();
    told(alloc, &program.types, &program.variables, state.values())
}

/// The same of variables with their values.
fn told(
    alloc: Global,
    types: &Types,
    variables: &[Variable],
    values: &[Value],
) -> Result<Vec<NamedField>, NoMemory>
    ensures { IfOk result (λ entries. AreToldOf (map (variable_of (table_of types.now)) variables.now) (entries_of entries.items) (variables_in values.now)) }
{
    if values.len() != variables.len() {
        // It is a state of another module, which is never met.
        return Ok(Vec::new(alloc));
    }
    let mut entries = Vec::with_capacity(alloc, values.len())?;
    for (position, held) in values.iter().enumerate() {
        let variable = &variables[position];
        let value = named(alloc, types, variable.data_type, held)?;
        let name = String::from_str(alloc, &variable.name)?;
        entries.push(NamedField { name, value })?;
    }
    Ok(entries)
}
