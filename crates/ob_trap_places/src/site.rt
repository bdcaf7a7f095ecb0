//! Where a trap comes from, and why a run isn't done.

ghost use Rattle.std.specs.Prelude.{◌≡◌};
ghost use Rattle.ob_checked.specs.Traps.{evaluated, trap_number};
ghost use Rattle.ob_trap_places.specs.Site as Sites;
ghost use Rattle.ob_trap_places.specs.Reaching.{cause_of, site_of, HaltsAs, IsInside, IsWithin, Reaches};

use ob_checked::trap::{Trap, trap_number};
use ob_interface::scalar::Scalar;
use ob_typing::operator::BinaryOperator;
use std::alloc::{AllocError, AllocFailed, Global};

/// What could not be done.
#[derive(Clone, Copy)]
pub enum Cause {
    /// An operator on these values.
    Operating {
        operator: BinaryOperator,
        left: Scalar,
        right: Scalar,
    },
    /// A minus sign before this value.
    Negating(Scalar),
    /// This index in an array of so many elements.
    Indexing {
        length: usize,
        index: i32,
    },
    /// One activation more, where no more may be made.
    Activating,
    /// A turn, where none is left.
    Turning,
}

/// The number of the trap; the number of the procedure in which it comes, or none for the statements that are run; the path
/// from its statements to the operation; and what could not be done.
#[derive(Drop)]
pub struct Site {
    pub number: u8,
    pub procedure: Option<usize>,
    pub path: Vec<usize>,
    pub cause: Cause,
}

/// Why a run isn't done.
#[derive(Drop)]
pub enum Halt {
    /// A trap, with its site.
    Trap(Site),
    /// Want of memory.
    NoMemory,
}

impl From<AllocError> for Halt {
    ghost use Rattle.std.specs.Prelude.{◌≡◌};
    ghost use Rattle.ob_trap_places.specs.declared.site.Halt.TheVariants as Halts;

    ghost from_gives = { λ _ halt. halt ≡ Halts.NoMemory };

    fn from(_: AllocError) -> Halt {
        Halt::NoMemory
    }
}

impl<T: Drop> From<AllocFailed<T>> for Halt {
    ghost use Rattle.std.specs.Prelude.{◌≡◌};
    ghost use Rattle.ob_trap_places.specs.declared.site.Halt.TheVariants as Halts;

    ghost from_gives = { λ _ halt. halt ≡ Halts.NoMemory };

    fn from(_: AllocFailed<T>) -> Halt {
        Halt::NoMemory
    }
}

/// A trap of the operation of this part.
pub fn here(alloc: Global, part: usize, trap: Trap, cause: Cause) -> Halt
    ensures { HaltsAs (Sites.here part (trap_number trap) (cause_of cause)) result }
{
    match vec![in alloc; part] {
        Ok(path) => Halt::Trap(Site {
            number: trap_number(trap),
            procedure: None,
            path,
            cause,
        }),
        Err(_) => Halt::NoMemory,
    }
}

/// What an operation of this part gives.
pub fn at<T>(alloc: Global, part: usize, cause: Cause, given: Result<T, Trap>) -> Result<T, Halt>
    ensures { Reaches (λ a. a) (Sites.at part (cause_of cause) (evaluated given)) result }
{
    match given {
        Ok(value) => Ok(value),
        Err(trap) => Err(here(alloc, part, trap, cause)),
    }
}

/// Why a construct isn't done of which this part isn't.
pub fn inside(part: usize, halt: Halt) -> Halt
    ensures { IsInside part halt result }
{
    match halt {
        Halt::Trap(site) => site_inside(part, site),
        Halt::NoMemory => Halt::NoMemory,
    }
}

/// The site seen from the construct around this part. Within a procedure that was called its path begins there.
fn site_inside(part: usize, site: Site) -> Halt
    ensures { HaltsAs (Sites.inside part (site_of site)) result }
{
    let mut outer = site;
    if outer.procedure.is_some() {
        return Halt::Trap(outer);
    }
    match outer.path.insert(0, part) {
        Ok(()) => Halt::Trap(outer),
        Err(_) => Halt::NoMemory,
    }
}

/// Why a call of the procedure of this number isn't done of which the statements aren't.
pub fn within_procedure(number: usize, halt: Halt) -> Halt
    ensures { IsWithin number halt result }
{
    match halt {
        Halt::Trap(site) => {
            let innermost = site.procedure.unwrap_or(number);
            Halt::Trap(Site {
                number: site.number,
                procedure: Some(innermost),
                path: site.path,
                cause: site.cause,
            })
        }
        Halt::NoMemory => Halt::NoMemory,
    }
}
