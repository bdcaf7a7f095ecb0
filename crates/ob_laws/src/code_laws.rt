//! A law of merges and of runs over compiled code. What a function here ensures is proved; it does nothing.

ghost use Rattle.ob_laws.specs.Meant.{CodeShowsMerges};

use ob_code_correct::laws::orders_are_carried;

/// A law: over the code of a program, with whatever budget of turns, the items p! of the processes, in the order of a merge of all calls,
/// give a run in which each call begins, is applied and ends before the next one begins. Its order is the merge; its replies and its last
/// state are those that the calls have, made in this order, by what they mean by name.
pub fn code_shows_merges()
    ensures { CodeShowsMerges }
{
    orders_are_carried();
}
