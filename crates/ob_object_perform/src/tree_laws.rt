//! Laws of runs from texts over a module's tree, whatever the length of its code. What a function here ensures is proved; it does
//! nothing.

ghost use Rattle.ob_object_perform.specs.TreeLaws.{PerformancesKeepTotal, PerformancesPassCheck};

use ob_object_compile::laws::compilations_are_sound;
use ob_object_run::laws as runs;

/// No call of a run from texts takes more own steps in all than the promised number and, in each of 2n bodies, one time more
/// than its budget as many as the code of the scheme has instructions. Nothing is asked of the calls.
pub fn performances_keep_total()
    ensures { PerformancesKeepTotal }
{
    runs::runs_keep_total();
}

/// From the opening by position, with the budget, a record's order has no fault for which a checker of orders would refuse it,
/// but want of memory.
pub fn performances_pass_check()
    ensures { PerformancesPassCheck }
{
    runs::runs_pass_check();
    runs::states_are_objects();
    compilations_are_sound();
}
