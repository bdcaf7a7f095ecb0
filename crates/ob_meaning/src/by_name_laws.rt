//! What holds of the meaning, as functions that do nothing: their contracts are the laws.

ghost use Rattle.ob_typing.specs.Program.{Program};
ghost use Rattle.ob_typing.specs.Scopes.{Environment};
ghost use Rattle.ob_meaning.specs.ByNameObject.{State, HasVariables, IsOpening};
ghost use Rattle.ob_meaning.specs.ByNameLaws.{
  StatementsGainNoTurns,
  CallsGainNoTurns,
  OpeningLeavesAState,
  CallsLeaveAState,
  ConstantsAreValues,
};
ghost use Rattle.ob_meaning.specs.TrappedCalls.{TrapsLeaveTheState};

/// Statements that are done leave no more turns than they had, and neither does a call in the text.
pub fn no_run_gains_turns()
    ensures statements { (program : Program) → StatementsGainNoTurns program }
    ensures call { (program : Program) → CallsGainNoTurns program }
{}

/// A call that traps leaves the module's variables as before it.
pub fn traps_leave_the_state()
    ensures { (program : Program) → TrapsLeaveTheState program }
{}

/// An opening that is done leaves a state, and each call on the object leaves one again: the module's variables in text order,
/// each with a value of its own.
pub fn states_follow()
    ensures opens { (program : Program) → OpeningLeavesAState program }
    ensures opening_state { (program : Program) (state : State) → IsOpening program state → HasVariables program state }
    ensures goes_on { (program : Program) → CallsLeaveAState program }
{}

/// A constant has the value that its expression has in every store.
#[tactic(auto, using(crate::proofs::ConstantValues::constant_is_value))]
pub fn constants_are_values()
    ensures { (env : Environment) → ConstantsAreValues env }
{}
