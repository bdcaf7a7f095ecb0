//! Calls one at a time, from the opening state.

ghost use Rattle.std.specs.Prelude.{IfOk, IfErr, map};
ghost use Rattle.ob_checked.specs.CheckedModule.{program_in};
ghost use Rattle.ob_mean.specs.Sequences.{AreReplies};
ghost use Rattle.ob_mean.specs.Faults.{IsSeqFault};
ghost use Rattle.ob_mean.specs.View.{call_of, reply_of};

use crate::call::{Call, Reply};
use crate::openings::{OpenFault, opening};
use crate::outside_call::step;
use ob_checked::checked::Checked;
use ob_interface::NoMemory;
use std::alloc::{AllocFailed, Global};
use thiserror::Error;

/// Why calls have no replies.
#[derive(Clone, Copy, Debug, Error)]
pub enum SeqFault {
    /// O2: the module's body traps; the number of the trap.
    #[error("O2 trap {0}")]
    OpeningTrap(u8),
    /// Want of memory.
    #[error("NoMemory")]
    NoMemory,
}

impl From<OpenFault> for SeqFault {
    ghost use Rattle.std.specs.Prelude.{◌≡◌};
    ghost use Rattle.ob_mean.specs.Faults.{of_opening};

    ghost from_gives = { λ fault e. e ≡ of_opening fault };

    fn from(fault: OpenFault) -> SeqFault {
        match fault {
            OpenFault::Trap(number) => SeqFault::OpeningTrap(number),
            OpenFault::NoMemory => SeqFault::NoMemory,
        }
    }
}

impl From<NoMemory> for SeqFault {
    ghost use Rattle.std.specs.Prelude.{◌≡◌};
    ghost use Rattle.ob_mean.specs.declared.sequences.SeqFault.TheVariants as Seq;

    ghost from_gives = { λ _ e. e ≡ Seq.NoMemory };

    fn from(_: NoMemory) -> SeqFault {
        SeqFault::NoMemory
    }
}

impl<T: Drop> From<AllocFailed<T>> for SeqFault {
    ghost use Rattle.std.specs.Prelude.{◌≡◌};
    ghost use Rattle.ob_mean.specs.declared.sequences.SeqFault.TheVariants as Seq;

    ghost from_gives = { λ _ e. e ≡ Seq.NoMemory };

    fn from(_: AllocFailed<T>) -> SeqFault {
        SeqFault::NoMemory
    }
}

/// The replies to calls made one at a time from the opening state, each with the budget.
pub fn sequence(
    alloc: Global,
    checked: &Checked,
    calls: &[Call],
    budget: u64,
) -> Result<Vec<Reply>, SeqFault>
    ensures replies { IfOk result (λ rs. AreReplies (program_in checked.now) budget (map call_of calls.now) (map reply_of rs.items)) }
    ensures fault { IfErr result (λ e. IsSeqFault (program_in checked.now) e) }
{
    let mut state = opening(alloc, checked)?;
    let mut replies = Vec::new(alloc);
    for call in calls {
        let (next, reply) = step(alloc, checked.program(), state, call, budget)?;
        state = next;
        replies.push(reply)?;
    }
    Ok(replies)
}
