//! What holds of procedures that spare the module's variables, as functions that do nothing: their contracts are the laws.

ghost use Rattle.ob_carry.specs.ReadOnlyLaws.{ReadOnlyCallsLeaveTheState};

/// An export whose body assigns to nothing of the module's variables, hands nothing of them over to a VAR parameter, and calls
/// only procedures of which the same holds, leaves the object's state as it was.
pub fn read_only_calls_leave_the_state()
    ensures { ReadOnlyCallsLeaveTheState }
{}
