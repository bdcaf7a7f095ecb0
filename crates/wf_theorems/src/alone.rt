//! What holds of the calls of one process in the order of every run, and of a process alone.

ghost use Rattle.wf_theorems.specs.FirstCalls.{EveryOrderHasFirstCalls, EveryScriptIsSubmitted, OrderOfOneHasFirstCalls};

use wf_object::engine::Engine;

/// In every run the calls of a process stand in the order as in its script, which is what was submitted to it: those of
/// the order are its first ones, and of those that have begun at most the last is missing.
pub fn every_process<E: Engine>()
    ensures script { (e : E) → EveryScriptIsSubmitted (E.meaning e) (E.lawful e) (E.fits e) (E.ready e) }
    ensures calls { (e : E) → EveryOrderHasFirstCalls (E.meaning e) (E.lawful e) (E.fits e) (E.ready e) }
{}

/// In every run of an object of one process the order is a beginning of its script.
pub fn process_alone<E: Engine>()
    ensures { (e : E) → OrderOfOneHasFirstCalls (E.meaning e) (E.lawful e) (E.fits e) (E.ready e) }
{}
