//! The opening: the state in which an object begins.

ghost use Rattle.std.specs.Prelude.{IfOk, IfErr};
ghost use Rattle.ob_checked.specs.CheckedModule.{program_in};
ghost use Rattle.ob_mean.specs.Sequences.{IsOpening};
ghost use Rattle.ob_mean.specs.Faults.{IsOpenFault};
ghost use Rattle.ob_checked.specs.View.{program_of};
ghost use Rattle.ob_mean.specs.Outside.{Opens};
ghost use Rattle.ob_store.specs.View.{state_of};

use crate::begun::state_begun;
use crate::outside_call::MOST_ACTIVATIONS;
use crate::places::Stop;
use crate::statements::{Context, run};
use ob_checked::checked::Checked;
use ob_checked::program::Program;
use ob_store::state::State;
use ob_store::store::Store;
use std::alloc::Global;
use thiserror::Error;

/// How many turns an opening has, and the most that a call may have.
pub const MOST_TURNS: u64 = 1_000_000;

/// Why a module has no opening state.
#[derive(Clone, Copy, Debug, Error)]
pub enum OpenFault {
    /// O2: the module's body traps; the number of the trap.
    #[error("O2 trap {0}")]
    Trap(u8),
    /// Want of memory.
    #[error("NoMemory")]
    NoMemory,
}

impl From<Stop> for OpenFault {
    ghost use Rattle.std.specs.Prelude.{◌≡◌};
    ghost use Rattle.ob_mean.specs.Faults.{of_stop};

    ghost from_gives = { λ stop e. e ≡ of_stop stop };

    fn from(stop: Stop) -> OpenFault {
        match stop {
            Stop::Trap(number) => OpenFault::Trap(number),
            Stop::NoMemory => OpenFault::NoMemory,
        }
    }
}

/// Runs the module's body with so many turns on its variables at their beginning.
fn run_body(alloc: Global, program: &Program, turns: u64) -> Result<State, Stop>
    ensures { Opens (program_of program.now) turns result }
{
    let begun = state_begun(alloc, &program.types, program.variables.as_slice())?;
    let mut store = Store::new(alloc, begun, Vec::new(alloc));
    let context = Context {
        alloc,
        program,
        more: MOST_ACTIVATIONS,
    };
    run(context, &mut store, program.body.as_slice(), turns)?;
    Ok(store.into_state())
}

/// The opening state: all variables 0 or FALSE, and then what the module's body makes of them with the turns of an opening.
pub fn opening(alloc: Global, checked: &Checked) -> Result<State, OpenFault>
    ensures state { IfOk result (λ s. IsOpening (program_in checked.now) (state_of s)) }
    ensures fault { IfErr result (λ e. IsOpenFault (program_in checked.now) e) }
{
    let state = run_body(alloc, checked.program(), MOST_TURNS)?;
    Ok(state)
}
