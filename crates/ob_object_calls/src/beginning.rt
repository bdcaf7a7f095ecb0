//! The state with which the calls of a record begin.

ghost use Rattle.std.specs.Prelude.{IfOk, IfErr};
ghost use Rattle.ob_checked.specs.CheckedModule.{program_in};
ghost use Rattle.ob_object_calls.specs.Beginnings.{BeginsPlaced, IsBeginningFault};
ghost use Rattle.ob_store.specs.View.{state_of};
ghost use Rattle.ob_text_reading.specs.RecordContents.{carried_of};

use ob_checked::checked::Checked;
use ob_mean::openings::{OpenFault, opening};
use ob_store::state::State;
use std::alloc::Global;

/// The values that were carried over, where there are any, and else what the module's body leaves.
pub fn beginning(
    alloc: Global,
    checked: &Checked,
    carried: Option<State>,
) -> Result<State, OpenFault>
    ensures state { IfOk result (λ s. BeginsPlaced (program_in checked.now) (carried_of carried) (state_of s)) }
    ensures fault { IfErr result (λ e. IsBeginningFault (program_in checked.now) (carried_of carried) e) }
{
    match carried {
        Some(state) => Ok(state),
        None => opening(alloc, checked),
    }
}
