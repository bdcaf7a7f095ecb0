//! Why a result is missing.

ghost use Rattle.std.specs.Prelude.{◌≡◌};
ghost use Rattle.ob_checked.specs.Traps.{trap_number};

/// The trap that ends a call.
#[derive(Clone, Copy, PartialEq, Eq)]
pub enum Trap {
    /// Trap 1: an INTEGER out of range.
    OutOfRange,
    /// Trap 2: an index outside its array.
    OutsideArray,
    /// Trap 3: a divisor that is not above 0.
    BadDivisor,
    /// Trap 4: more activations than there may be.
    TooManyActivations,
    /// Trap 5: a turn where none is left.
    NoTurnLeft,
}

/// The number of a trap.
pub fn trap_number(trap: Trap) -> u8
    ensures { result ≡ trap_number trap }
{
    match trap {
        Trap::OutOfRange => 1,
        Trap::OutsideArray => 2,
        Trap::BadDivisor => 3,
        Trap::TooManyActivations => 4,
        Trap::NoTurnLeft => 5,
    }
}
