//! A law of merges and of runs, from bytes. What a function here ensures is proved; it does nothing.

ghost use Rattle.ob_laws.specs.Shown.{OutcomesAreShown};

use crate::code_laws::code_shows_merges;
use ob_object_compile::laws::compilations_are_sound;

/// A law: of the object of a module's text, with the calls of a script, the items p! of the processes, in the order of a merge of all
/// calls, give a run in which each call begins, is applied and ends before the next one begins. Its order is the merge, and its replies and its
/// last state are those that the calls have, made in this order, by what they mean by name.
pub fn outcomes_are_shown()
    ensures { OutcomesAreShown }
{
    code_shows_merges();
    compilations_are_sound();
}
