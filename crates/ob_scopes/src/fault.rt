//! Why a module is refused.

ghost use Rattle.std.specs.Prelude.{◌≡◌};

use ob_typing::rule::{BrokenRule, Rule};
use std::alloc::{AllocError, AllocFailed};
use thiserror::Error;

/// The rule that a module breaks first, with its place, or want of memory.
#[derive(Clone, Copy, Debug, Error)]
pub enum CheckFault {
    #[error("a rule is broken")]
    Broken(BrokenRule),
    #[error("NoMemory")]
    NoMemory,
}

impl From<AllocError> for CheckFault {
    ghost use Rattle.std.specs.Prelude.{◌≡◌};
    ghost use Rattle.ob_scopes.specs.declared.fault.CheckFault.TheVariants.{NoMemory};

    ghost from_gives = { λ _ e. e ≡ NoMemory };

    fn from(_: AllocError) -> CheckFault {
        CheckFault::NoMemory
    }
}

impl<T: Drop> From<AllocFailed<T>> for CheckFault {
    ghost use Rattle.std.specs.Prelude.{◌≡◌};
    ghost use Rattle.ob_scopes.specs.declared.fault.CheckFault.TheVariants.{NoMemory};

    ghost from_gives = { λ _ e. e ≡ NoMemory };

    fn from(_: AllocFailed<T>) -> CheckFault {
        CheckFault::NoMemory
    }
}

/// A rule that fails at a place.
pub fn broken(rule: Rule, place: usize) -> CheckFault
    ensures { result ≡ CheckFault.Broken (record { rule = rule; place = place }) }
{
    CheckFault::Broken(BrokenRule { rule, place })
}
