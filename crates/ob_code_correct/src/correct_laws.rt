//! Laws of compiled code. What a function here ensures is proved; it does nothing.

ghost use Rattle.ob_code_scheme.specs.Correct.{CodeIsCorrect};
ghost use Rattle.ob_code_correct.specs.Bodies.{BodiesAreCorrect};

/// The code of each well-formed program does what its procedures mean, in both directions, and ends in a stated number of instructions.
pub fn code_is_correct()
    ensures { CodeIsCorrect }
{}

/// A body that is started at an export of a well-formed program, on the words of a state, and stepped until it ends, does what the
/// procedure means.
pub fn bodies_are_correct()
    ensures { BodiesAreCorrect }
{}
