//! Where the trap of the opening comes from.

ghost use Rattle.std.specs.Prelude.{◌≡◌, IfOk, option_map};
ghost use Rattle.ob_checked.specs.CheckedModule.{program_in};
ghost use Rattle.ob_checked.specs.View.{program_of};
ghost use Rattle.ob_meaning.specs.ByNameObject.{most_turns};
ghost use Rattle.ob_trap_places.specs.TrapOfCall as Sites;
ghost use Rattle.ob_trap_places.specs.Reaching.{site_of};

use crate::site::{Halt, Site};
use crate::sited_statements::run;
use ob_checked::checked::Checked;
use ob_checked::program::Program;
use ob_interface::NoMemory;
use ob_mean::begun::state_begun;
use ob_mean::openings::MOST_TURNS;
use ob_mean::outside_call::MOST_ACTIVATIONS;
use ob_mean::statements::Context;
use ob_store::store::Store;
use std::alloc::Global;

/// Runs the module's body with so many turns on its variables at their beginning, and answers where it traps, if it does.
fn site_in_body(alloc: Global, program: &Program, turns: u64) -> Result<Option<Site>, NoMemory>
    ensures { IfOk result (λ found. option_map site_of found ≡ Sites.site_of_opening (program_of program.now) turns) }
{
    let begun = state_begun(alloc, &program.types, program.variables.as_slice())?;
    let mut store = Store::new(alloc, begun, Vec::new(alloc));
    let context = Context {
        alloc,
        program,
        more: MOST_ACTIVATIONS,
    };
    match run(context, &mut store, program.body.as_slice(), turns) {
        Ok(_) => Ok(None),
        Err(Halt::Trap(site)) => Ok(Some(site)),
        Err(Halt::NoMemory) => Err(NoMemory),
    }
}

/// Where the trap comes from by which the opening ends with the turns of an opening, if it traps.
pub fn site_of_opening(alloc: Global, checked: &Checked) -> Result<Option<Site>, NoMemory>
    ensures { IfOk result (λ found. option_map site_of found ≡ Sites.site_of_opening (program_in checked.now) most_turns) }
{
    site_in_body(alloc, checked.program(), MOST_TURNS)
}
