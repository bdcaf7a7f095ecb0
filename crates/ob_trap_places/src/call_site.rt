//! Where the trap of a call from outside comes from.

ghost use Rattle.std.specs.Prelude.{◌≡◌, IfOk, option_map};
ghost use Rattle.ob_checked.specs.CheckedModule.{program_in};
ghost use Rattle.ob_checked.specs.View.{procedure_of, table_of};
ghost use Rattle.ob_mean.specs.Outside.{outside_store};
ghost use Rattle.ob_mean.specs.View.{call_of};
ghost use Rattle.ob_store.specs.View.{state_of, store_in};
ghost use Rattle.ob_trap_places.specs.TrapOfCall as Sites;
ghost use Rattle.ob_trap_places.specs.Reaching.{site_of};
ghost use Rattle.ob_trap_places.specs.Running.{IsExportFound, site_outside};

use crate::outside::{outside_handed, results_begun};
use crate::site::{Halt, Site, within_procedure};
use crate::sited_statements::run;
use ob_checked::checked::Checked;
use ob_checked::program::{Procedure, Program};
use ob_interface::NoMemory;
use ob_interface::scalar::Scalar;
use ob_mean::begun::variables_begun;
use ob_mean::call::Call;
use ob_mean::outside_call::MOST_ACTIVATIONS;
use ob_mean::statements::Context;
use ob_store::state::State;
use ob_store::store::Store;
use std::alloc::{AllocError, Global};

/// The export of a number, with its number among all procedures.
fn export(program: &Program, number: usize) -> Option<(usize, &Procedure)>
    ensures { IsExportFound program.now number result }
{
    let mut left = number;
    for (position, procedure) in program.procedures.iter().enumerate() {
        if procedure.is_exported {
            if left == 0 {
                return Some((position, procedure));
            }
            left -= 1;
        }
    }
    None
}

/// The store that a call from outside begins with: the module's variables, the results, and the first activation.
fn store_begun(
    alloc: Global,
    program: &Program,
    procedure: &Procedure,
    state: State,
    arguments: &[Scalar],
) -> Result<Store, AllocError>
    ensures { IfOk result (λ s. store_in s
        ≡ outside_store (procedure_of (table_of program.now.types) procedure.now) (state_of state) arguments.now) }
{
    let parameters = procedure.parameters.as_slice();
    let results = results_begun(alloc, &program.types, parameters)?;
    let handed = outside_handed(alloc, &program.types, parameters, arguments)?;
    let own = variables_begun(
        alloc,
        &program.types,
        handed,
        procedure.variables.as_slice(),
    )?;
    let others = vec![in alloc; results, own]?;
    Ok(Store::new(alloc, state, others))
}

/// Runs the procedure of a number from outside in its store, and answers where it traps, if it does.
fn site_outside(
    alloc: Global,
    program: &Program,
    number: usize,
    procedure: &Procedure,
    store: &mut Store,
    budget: u64,
) -> Result<Option<Site>, NoMemory>
    ensures { IfOk result (λ found. option_map site_of found ≡ site_outside program.now number procedure.now budget (store_in store.old)) }
{
    let context = Context {
        alloc,
        program,
        more: MOST_ACTIVATIONS - 1,
    };
    match run(context, store, procedure.body.as_slice(), budget) {
        Ok(_) => Ok(None),
        Err(halt) => match within_procedure(number, halt) {
            Halt::Trap(site) => Ok(Some(site)),
            Halt::NoMemory => Err(NoMemory),
        },
    }
}

/// Where the trap of one call on the object with a budget of turns comes from, if it traps.
pub fn site_of_call(
    alloc: Global,
    checked: &Checked,
    state: &State,
    call: &Call,
    budget: u64,
) -> Result<Option<Site>, NoMemory>
    ensures { IfOk result (λ found. option_map site_of found ≡ Sites.site_of_call (program_in checked.now) (call_of call.now) budget (state_of state.now)) }
{
    let program = checked.program();
    match export(program, call.export) {
        None => Ok(None),
        Some((number, procedure)) => {
            let copy = state.copy(alloc)?;
            let arguments = call.arguments.as_slice();
            let mut store = store_begun(alloc, program, procedure, copy, arguments)?;
            site_outside(alloc, program, number, procedure, &mut store, budget)
        }
    }
}
