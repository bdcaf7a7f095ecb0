//! What holds of turns, as functions that do nothing: their contracts are the laws.

ghost use Rattle.ob_mean.specs.Laws.{MoreTurnsChangeNothing, TurnsAreThoseSpent};
ghost use Rattle.ob_typing.specs.Program.{Program};

/// A call that has turns enough leaves and answers with more turns what it does with these.
#[tactic(auto, using(crate::proofs::Calls::more_change_nothing))]
pub fn more_turns_change_nothing()
    ensures { (program : Program) → MoreTurnsChangeNothing program }
{}

/// A call that is done took the turns of its budget that aren't left.
#[tactic(auto, using(crate::proofs::Calls::turns_spent))]
pub fn turns_are_those_spent()
    ensures { (program : Program) → TurnsAreThoseSpent program }
{}
