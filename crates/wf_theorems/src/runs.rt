//! What holds of the bodies of every engine, and of every run.

ghost use Rattle.wf_theorems.specs.Bodies.{CopiesAreRoots, EffectsAreOne, EffectsAreReturned, EffectsAreTrapped, EndsAreEffects, EndsAreOne};
ghost use Rattle.wf_theorems.specs.Bodies.{EndsLeadOn, EveryRunGoesOn, EveryRunIsNeverStuck, EveryRunIsSound, HaltedIsCounted, NoBodyIsStuck};
ghost use Rattle.wf_theorems.specs.Bodies.{ReturnsAreEffects, StuckChangesNothing, TrapsAreEffects};

use wf_object::engine::Engine;

/// From the start of a fitting call on a lawful block the steps reach the block and the reply of the
/// call's effect, a trap included, and they are never stuck; a body that is over has the effect; a
/// call has one effect at most, and no trap is 0.
pub fn every_body<E: Engine>()
    ensures returns { (e : E) → EffectsAreReturned (E.meaning e) (E.lawful e) (E.fits e) (E.effect e) }
    ensures traps { (e : E) → EffectsAreTrapped (E.meaning e) (E.lawful e) (E.fits e) (E.effect e) }
    ensures returned { (e : E) → ReturnsAreEffects (E.meaning e) (E.lawful e) (E.fits e) (E.effect e) }
    ensures trapped { (e : E) → TrapsAreEffects (E.meaning e) (E.lawful e) (E.fits e) (E.effect e) }
    ensures never_stuck { (e : E) → NoBodyIsStuck (E.meaning e) (E.lawful e) (E.fits e) }
    ensures functional { (e : E) → EffectsAreOne (E.lawful e) (E.fits e) (E.effect e) }
{}

/// Every run of an object, whatever the schedule and the submitted calls, keeps what an object has.
pub fn every_run<E: Engine>()
    ensures { (e : E) → EveryRunIsSound (E.meaning e) (E.lawful e) (E.fits e) (E.ready e) }
{}

/// A step from CHECK1 to MINE finds the whole own block equal to the root.
pub fn every_copy<E: Engine>()
    ensures { (e : E) → CopiesAreRoots (E.meaning e) (E.lawful e) (E.fits e) (E.ready e) }
{}

/// In every run the body at which a process stands goes on, returns or traps: its next step is never stuck.
pub fn every_present_body<E: Engine>()
    ensures { (e : E) → EveryRunIsNeverStuck (E.meaning e) (E.lawful e) (E.fits e) (E.ready e) }
{}

/// A body that is stuck, as in no run, changes neither the cell nor a process.
pub fn every_stuck_body<E: Engine>()
    ensures { (e : E) → StuckChangesNothing (E.meaning e) (E.lawful e) (E.fits e) (E.ready e) }
{}

/// A step of a process that has no call left changes the schedule alone.
pub fn every_halted_step<E: Engine>()
    ensures { (e : E) → HaltedIsCounted (E.meaning e) }
{}

/// A run by scripts, all submitted first, and its own schedule goes on with a step of one more process.
pub fn every_turn<E: Engine>()
    ensures { (e : E) → EveryRunGoesOn (E.meaning e) (E.lawful e) (E.fits e) (E.ready e) }
{}

/// A call whose body is over when it is made alone has ended in one way, which is its effect; so calls of a
/// history that their bodies make one at a time are made one at a time by their effects.
pub fn every_call_alone<E: Engine>()
    ensures one_end { (e : E) → EndsAreOne (E.meaning e) }
    ensures effect { (e : E) → EndsAreEffects (E.meaning e) (E.lawful e) (E.fits e) (E.effect e) }
    ensures effects { (e : E) → EndsLeadOn (E.meaning e) (E.lawful e) (E.fits e) (E.effect e) }
{}
