//! What holds of carried states, as functions that do nothing: their contracts are the laws.

ghost use Rattle.std.specs.Prelude.{List};
ghost use Rattle.ob_meaning.specs.Resolved.{IsResolved};
ghost use Rattle.ob_typing.specs.Program.{Program};
ghost use Rattle.ob_carry.specs.Carried.{AreDistinctEntries, Entry};
ghost use Rattle.ob_carry.specs.CarryLaws.{CarriedStatesAreStates, CarriedStatesHaveTheirTypes, EachEntryCounts, SameStatesAreOne};

/// What is carried over to a module is a state of it: there is the same by position.
pub fn carried_states_are_states()
    ensures { (program : Program) → IsResolved program → CarriedStatesAreStates program }
{}

/// In it each variable has a value of its type.
pub fn carried_states_have_their_types()
    ensures { (program : Program) → IsResolved program → CarriedStatesHaveTheirTypes program }
{}

/// A state by name is one state by position.
pub fn same_states_are_one()
    ensures { (program : Program) → SameStatesAreOne program }
{}

/// Where no name stands twice, each value is given to its name, so that the list's order doesn't matter.
pub fn each_entry_counts()
    ensures { (entries : List Entry) → AreDistinctEntries entries → EachEntryCounts entries }
{}
