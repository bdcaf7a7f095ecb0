//! Laws of runs. What a function here ensures is proved; it does nothing.

ghost use Rattle.ob_code_correct.specs.Kept.{OpeningsAreStates};

/// An opening that is done leaves a state of the module's variables.
pub fn openings_are_states()
    ensures { OpeningsAreStates }
{}
