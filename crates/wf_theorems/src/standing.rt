//! What holds of the replies and of the order in every run.

ghost use Rattle.std.specs.Prelude.{ℕ};
ghost use Rattle.wf_table.specs.declared.process.Sizes.{Sizes};
ghost use Rattle.wf_table.specs.StepTable.{Process};
ghost use Rattle.wf_table.specs.Object.{State};
ghost use Rattle.wf_theorems.specs.Replies.{EveryOrderIsLegal, EveryRunIsStanding, GivenStands, RepliesStand, RootHasReply, RootHasToggle};

use wf_object::engine::Engine;

/// Every run of an object, whatever the schedule and the submitted calls, keeps what is said of replies.
pub fn every_reply<E: Engine>()
    ensures { (e : E) → EveryRunIsStanding (E.meaning e) (E.lawful e) (E.fits e) (E.ready e) }
{}

/// The standing reply. In a state that a run has reached, let the announced call of process k be in the order.
/// However the run goes on, until k's next FLIP each block b that has been the root since the call was applied
/// holds the status, the values and the toggle that the root has of k in that first state, in every place i of
/// k's part; also while the block is written anew. The toggle there is the announced one. Where the root holds what
/// the order leads to, status and values are the words of that call. At GIVE the reply list has them.
pub fn standing_reply<E: Engine>()
    ensures stands { (e : E) → RepliesStand (E.meaning e) (E.lawful e) (E.fits e) (E.ready e) }
    ensures announced { (e : E) → RootHasToggle (E.meaning e) (E.lawful e) (E.fits e) (E.ready e) }
    ensures of_call { (e : E) → RootHasReply (E.meaning e) (E.lawful e) }
    ensures given { (z : Sizes) (s : State E.Run) (p x : ℕ) (q : Process E.Run) → GivenStands z s p x q }
{}

/// The legal order. In every state that a run reaches, whatever the schedule and the submitted calls, the order is a
/// legal order of the history, from the opening block to the variables of the root: no call stands in it twice, each
/// ended call stands in it, a call that ended before another began stands before it, and its calls, made one at a
/// time, have the effects that lead to the root and the replies that the history gives.
pub fn legal_order<E: Engine>()
    ensures { (e : E) → EveryOrderIsLegal (E.meaning e) (E.lawful e) (E.fits e) (E.ready e) (E.effect e) }
{}
