//! Laws of outcomes. What a function here ensures is proved; it does nothing.

ghost use Rattle.ob_object_outcomes.specs.Laws.{MergesAreCompleted};

/// Each front of a merge of calls on a module's object can be completed; so the replies that a call may have are those that it
/// has in merges of all calls.
pub fn merges_are_completed()
    ensures { MergesAreCompleted }
{}
