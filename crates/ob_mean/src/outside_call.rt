//! One call on the object, from outside.

ghost use Rattle.std.specs.Prelude.{◌≡◌, IfOk, option_map, slice_get};
ghost use Rattle.ob_checked.specs.CheckedModule.{program_in};
ghost use Rattle.ob_checked.specs.View.{procedure_of, program_of, table_of};
ghost use Rattle.ob_meaning.specs.ByNameObject.{results_position};
ghost use Rattle.ob_meaning.specs.ByPositionObject as Objects;
ghost use Rattle.ob_meaning.specs.ByPositionStore as Stores;
ghost use Rattle.ob_store.specs.View.{state_of, store_in};
ghost use Rattle.ob_store.specs.Begun.{begun_in};
ghost use Rattle.ob_typing.specs.Program.{exports};
ghost use Rattle.ob_mean.specs.Outside.{outside_store, run_of};
ghost use Rattle.ob_mean.specs.Running.{Comes};
ghost use Rattle.ob_mean.specs.View.{call_of, effect_in};

use crate::begun::variables_begun;
use crate::call::{Call, Reply};
use crate::expressions::scalar_of;
use crate::outside::{RESULTS, outside_handed, results_begun};
use crate::places::Stop;
use crate::statements::{Context, run};
use ob_checked::checked::Checked;
use ob_checked::program::{Procedure, Program};
use ob_interface::NoMemory;
use ob_interface::scalar::Scalar;
use ob_store::state::State;
use ob_store::store::{Store, value_held};
use std::alloc::{AllocError, Global};

/// How many activations may be active.
pub const MOST_ACTIVATIONS: usize = 64;

/// The export of a number.
fn export(program: &Program, number: usize) -> Option<&Procedure>
    ensures { option_map (λ p. procedure_of (table_of program.now.types) p.now) result
        ≡ slice_get (exports (program_of program.now)) number }
{
    program
        .procedures
        .iter()
        .filter(|procedure| procedure.is_exported)
        .nth(number)
}

/// The store that a call from outside begins with: the module's variables, the results, and the first activation.
fn store_begun(
    alloc: Global,
    program: &Program,
    procedure: &Procedure,
    mut state: State,
    arguments: &[Scalar],
) -> Result<Store, AllocError>
    ensures store { IfOk result (λ s. store_in s
        ≡ outside_store (procedure_of (table_of program.now.types) procedure.now) (state_of state) arguments.now) }
    ensures begun { IfOk result (λ s. begun_in s ≡ state_of state) }
{
    let parameters = procedure.parameters.as_slice();
    let room = state.spare_activation();
    let results = results_begun(alloc, &program.types, parameters, room)?;
    let room = state.spare_activation();
    let handed = outside_handed(alloc, &program.types, parameters, arguments, room)?;
    let own = variables_begun(
        alloc,
        &program.types,
        handed,
        procedure.variables.as_slice(),
    )?;
    Store::begin(state, results, own)
}

/// The values of the results.
fn answers(alloc: Global, store: &Store) -> Result<Vec<Scalar>, AllocError>
    ensures { IfOk result (λ v. v.items
        ≡ Objects.values_of_results (Stores.activation_at (store_in store.now) results_position)) }
{
    let mut all = Vec::new(alloc);
    for held in store.behind(RESULTS - 1) {
        all.push(scalar_of(value_held(held)))?;
    }
    Ok(all)
}

/// Runs a procedure from outside in its store.
fn run_outside(
    alloc: Global,
    program: &Program,
    procedure: &Procedure,
    store: &mut Store,
    budget: u64,
) -> Result<u64, Stop>
    ensures outcome { Comes (run_of (program_of program.now) (procedure_of (table_of program.now.types) procedure.now) budget (store_in store.old)) result (store_in store.new) }
    ensures begun { begun_in store.new ≡ begun_in store.old }
{
    let context = Context {
        alloc,
        program,
        more: MOST_ACTIVATIONS - 1,
    };
    run(context, store, procedure.body.as_slice(), budget)
}

/// What one call on the object with a budget of turns makes of a state that is given up, and what it answers. The state is
/// not copied: what a call that traps has written is taken back.
pub fn step(
    alloc: Global,
    program: &Program,
    state: State,
    call: &Call,
    budget: u64,
) -> Result<(State, Reply), NoMemory>
    ensures { IfOk result (λ made. Objects.effect (program_of program.now) (call_of call.now) budget (state_of state) ≡ effect_in made) }
{
    let Some(procedure) = export(program, call.export) else {
        return Ok((state, Reply::Answers(Vec::new(alloc))));
    };
    let arguments = call.arguments.as_slice();
    let mut store = store_begun(alloc, program, procedure, state, arguments)?;
    match run_outside(alloc, program, procedure, &mut store, budget) {
        Ok(_) => {
            let values = answers(alloc, &store)?;
            let next = store.into_state();
            Ok((next, Reply::Answers(values)))
        }
        Err(Stop::Trap(number)) => {
            let before = store.into_begun();
            Ok((before, Reply::Trapped(number)))
        }
        Err(Stop::NoMemory) => Err(NoMemory),
    }
}

/// What one call on the object with a budget of turns leaves and answers: the new state and the answers, or the old state
/// and the trap. The state is copied once.
pub fn interpret(
    alloc: Global,
    checked: &Checked,
    state: &State,
    call: &Call,
    budget: u64,
) -> Result<(State, Reply), NoMemory>
    ensures { IfOk result (λ made. Objects.effect (program_in checked.now) (call_of call.now) budget (state_of state.now) ≡ effect_in made) }
{
    let copy = state.copy(alloc)?;
    step(alloc, checked.program(), copy, call, budget)
}
