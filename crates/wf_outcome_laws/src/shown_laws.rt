//! A law of merges and of runs of the machine. What a function here ensures is proved; it does nothing.

ghost use Rattle.wf_outcome_laws.specs.Shown.{EveryMergeIsShown};

use wf_object::engine::Engine;

/// A law: where each call of the scripts ends within a limit wherever others may have led, the machine can be made to show each merge
/// of all calls. The items p! of the processes, in the merge's order, give a run in which each call begins, is applied and ends before the
/// next one begins; its order is the merge, and its replies and last variables are those of the merge.
pub fn merges_are_shown<E: Engine>()
    ensures { (e : E) → EveryMergeIsShown (E.meaning e) (E.lawful e) (E.fits e) (E.ready e) (E.effect e) }
{}
