//! Laws of the machine. What a function here ensures is proved; it does nothing.

ghost use Rattle.ob_code_machine.specs.Laws.{StaysOver, StuckChangesNothing, TrapEndsBody, ReturnEndsBody, StepsKeepSizes, StackStaysWithin, StepsAreInstructions};

/// A run of instructions that is over stays over: more of them change nothing.
pub fn stays_over()
    ensures { StaysOver }
{}

/// A step that is stuck changes nothing.
pub fn stuck_changes_nothing()
    ensures { StuckChangesNothing }
{}

/// A step that traps changes nothing, but the body is over.
pub fn trap_ends_body()
    ensures { TrapEndsBody }
{}

/// A body that has returned is stuck.
pub fn return_ends_body()
    ensures { ReturnEndsBody }
{}

/// A step keeps the number of words in the block and the words reserved for the stack, and its trap
/// is from 1 to 5.
pub fn steps_keep_sizes()
    ensures { StepsKeepSizes }
{}

/// A stack within the words reserved for it stays there.
pub fn stack_stays_within()
    ensures { StackStaysWithin }
{}

/// So many steps of a body that goes on are so many instructions of the machine.
pub fn steps_are_instructions()
    ensures { StepsAreInstructions }
{}
