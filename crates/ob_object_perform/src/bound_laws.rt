//! Laws of the numbers of objects. What a function here ensures is proved; it does nothing.

ghost use Rattle.ob_object_perform.specs.Kept.{NumbersAreKept};

use ob_object_run::laws::{runs_keep_bound, runs_keep_total};

/// In a recorded run, at each moment, no call has taken more own steps than the numbers of its object say, outside bodies and in all.
/// Nothing is asked of the calls.
pub fn numbers_are_kept()
    ensures { NumbersAreKept }
{
    runs_keep_bound();
    runs_keep_total();
}
