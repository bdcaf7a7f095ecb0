//! Laws of runs from texts. What a function here ensures is proved; it does nothing.

ghost use Rattle.ob_object_perform.specs.PerformLaws.{OneProcessAnswers, OneProcessInTurn, PerformancesKeepTotal, PerformancesPassCheck};

use ob_object_compile::laws::compilations_are_sound;
use ob_object_run::laws as runs;

/// In a record of one process the order is a beginning of the script's calls, and each call that ended has the reply of its
/// place: the one that the calls have when they are made one at a time by name, with the budget, from the state with which the object begins.
pub fn one_process()
    ensures in_turn { OneProcessInTurn }
    ensures answers { OneProcessAnswers }
{
    runs::one_process();
    runs::one_process_answers();
    runs::states_are_objects();
    compilations_are_sound();
}

/// No call of a run from texts takes more own steps in all than the promised number and, in each of 2n bodies, one time more
/// than its budget as many as the code has instructions. Nothing is asked of the calls.
pub fn performances_keep_total()
    ensures { PerformancesKeepTotal }
{
    runs::runs_keep_total();
}

/// From the opening by position, with the budget, a record's order has no fault for which a checker of orders would refuse it,
/// but want of memory.
pub fn performances_pass_check()
    ensures { PerformancesPassCheck }
{
    runs::runs_pass_check();
    runs::states_are_objects();
    compilations_are_sound();
}
