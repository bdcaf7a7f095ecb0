//! What holds of help and of the root in every run.

ghost use Rattle.wf_theorems.specs.Helping.{EveryOrderLeads, EveryRootHolds, EveryRootToggles, EveryRunIsHelped, ServesWholeCall, StartsAnother};

use wf_object::engine::Engine;

/// Every run of an object, whatever the schedule and the submitted calls, keeps what is said of help.
pub fn every_help<E: Engine>()
    ensures { (e : E) → EveryRunIsHelped (E.meaning e) (E.lawful e) (E.fits e) (E.ready e) }
{}

/// Help. A linked process that stands at CHECK2 has the whole announcement of the open call of the process
/// that it serves. Each body that is started runs a call on what some calls lead to that have begun, none
/// twice and not that one among them.
pub fn help<E: Engine>()
    ensures whole { (e : E) → ServesWholeCall (E.meaning e) (E.lawful e) (E.fits e) (E.ready e) }
    ensures another { (e : E) → StartsAnother (E.meaning e) (E.lawful e) (E.fits e) }
{}

/// The root. There are words of each call of the order such that the order, made one at a time from the
/// opening, leads to the root's variables, each process's reply is the words of its last call, and its
/// toggle is the parity of the number of its calls.
pub fn root<E: Engine>()
    ensures holds { (e : E) → EveryRootHolds (E.meaning e) (E.lawful e) (E.fits e) (E.ready e) }
    ensures toggles { (e : E) → EveryRootToggles (E.meaning e) (E.lawful e) (E.fits e) (E.ready e) }
{}

/// The order. Its calls have their effects one at a time, from the opening to the root's variables.
pub fn order_leads<E: Engine>()
    ensures { (e : E) → EveryOrderLeads (E.meaning e) (E.lawful e) (E.fits e) (E.ready e) (E.effect e) }
{}
