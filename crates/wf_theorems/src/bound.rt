//! What a call takes of its process in every run.

ghost use Rattle.std.specs.Prelude.{◌≡◌, ◌+◌, ◌*◌};
ghost use Rattle.wf_table.specs.declared.process.Sizes.{Sizes};
ghost use Rattle.wf_table.specs.Bound.{sharp, bound};
ghost use Rattle.wf_theorems.specs.Limits.{BodiesKeepLimit, BodiesLeaveNoMore, CountedRunIsRun, EveryRunEndsWithin, EveryRunIsInRounds};
ghost use Rattle.wf_theorems.specs.Limits.{EveryRunIsLimited, EveryRunIsWithinBound, EveryRunStaysBelow, EveryRunSumsBodies, OwnStepsAreCounted};
ghost use Rattle.wf_theorems.specs.Limits.{OwnStepsAreLimited, OwnStepsAreWithinBound, StepsLeaveFewer};

use crate::runs::every_run;
use wf_object::engine::Engine;

/// In every run, whatever the schedule and the submitted calls, the open or last call of each process is
/// in at most two rounds, counted by its LINKs and as its register tells, has begun at most 2n bodies and has
/// taken no more own steps outside them than is promised. What it has taken in bodies is the sum over the bodies that it has begun.
pub fn every_bound<E: Engine>()
    ensures bound { (e : E) → EveryRunIsWithinBound (E.meaning e) (E.lawful e) (E.fits e) (E.ready e) }
    ensures rounds { (e : E) → EveryRunIsInRounds (E.meaning e) (E.lawful e) (E.fits e) (E.ready e) }
    ensures sums { (e : E) → EveryRunSumsBodies (E.meaning e) (E.lawful e) (E.fits e) (E.ready e) }
    ensures run { (e : E) → CountedRunIsRun (E.meaning e) }
    ensures sharp { (z : Sizes) → sharp z + 10 * z.processes + 22 ≡ bound z }
{
    every_run::<E>();
}

/// Each own step of an open call outside bodies leaves fewer such steps to take, whatever the others do,
/// and a step of a body leaves no more.
pub fn every_step<E: Engine>()
    ensures outside { (e : E) → StepsLeaveFewer (E.meaning e) }
    ensures inside { (e : E) → BodiesLeaveNoMore (E.meaning e) }
{}

/// A run in which no body takes a step behind a limit: no call takes more own steps in bodies than the limit
/// for each body, and in all no more than the bound and the limit for 2n bodies. Where all calls end within the
/// limit, a body on a block that is reached without its call takes no step behind it.
pub fn every_limit<E: Engine>()
    ensures limit { (e : E) → EveryRunIsLimited (E.meaning e) (E.lawful e) (E.fits e) (E.ready e) }
    ensures body { (e : E) → BodiesKeepLimit (E.meaning e) (E.effect e) }
{
    every_bound::<E>();
}

/// Where each call that a run begins, on each block that is reached without it, ends within a limit, no body takes a
/// step behind it, and no call takes more than the limit for each body that it begins.
pub fn every_end<E: Engine>()
    ensures below { (e : E) → EveryRunStaysBelow (E.meaning e) (E.lawful e) (E.fits e) (E.ready e) (E.effect e) }
    ensures limit { (e : E) → EveryRunEndsWithin (E.meaning e) (E.lawful e) (E.fits e) (E.ready e) (E.effect e) }
{
    every_limit::<E>();
}

/// The own steps of one call, read off the acts in which its process begins it and no other: they are what is
/// counted, and no more than is promised.
pub fn every_call<E: Engine>()
    ensures counted { (e : E) → OwnStepsAreCounted (E.meaning e) }
    ensures bound { (e : E) → OwnStepsAreWithinBound (E.meaning e) (E.lawful e) (E.fits e) (E.ready e) }
    ensures limit { (e : E) → OwnStepsAreLimited (E.meaning e) (E.lawful e) (E.fits e) (E.ready e) }
{
    every_bound::<E>();
    every_limit::<E>();
}
