//! The replies that a call may have, each with calls behind which it has it.

ghost use Rattle.std.specs.Prelude.{◌≡◌, ◌<◌, length, map, IfOk};
ghost use Rattle.ob_interface.specs.View.{reply_of};
ghost use Rattle.wf_outcomes.specs.Explored.{all_kept, calls_in};
ghost use Rattle.wf_outcomes.specs.Outcomes.{LeadsToPlace};
ghost use Rattle.wf_outcomes.specs.OutcomeOrders.{AreRepliesTold};
ghost use Rattle.wf_outcomes.specs.View.{told_in};

use crate::{Explored, Possible};
use ob_interface::NoMemory;
use ob_interface::call::Reply;
use smallvec::SmallVec;
use std::alloc::{AllocError, Global};
use wf_history::CallId;
use wf_order::Object;

/// A reply that a call may have, and calls, in order, behind which it has it.
#[derive(Drop)]
pub struct ToldReply {
    pub reply: Reply,
    pub behind: Vec<CallId>,
}

/// The reply once more.
fn copied(alloc: Global, reply: &Reply) -> Result<Reply, AllocError>
    ensures { IfOk result (λ copy. reply_of copy ≡ reply_of reply.now) }
{
    match reply {
        Reply::Done(values) => Ok(Reply::Done(SmallVec::from_slice(alloc, values.as_slice())?)),
        Reply::Trap(number) => Ok(Reply::Trap(*number)),
    }
}

/// The reply, with the calls that lead to where the call has it.
fn told_reply<O: Object>(
    alloc: Global,
    explored: &Explored<O>,
    possible: &Possible,
) -> Result<ToldReply, NoMemory>
    requires { possible.now.place < length (all_kept O.meaning explored.now.seen) }
    ensures reply { IfOk result (λ told. reply_of told.reply ≡ reply_of possible.now.reply) }
    ensures behind { IfOk result (λ told. ∥ LeadsToPlace (O.effect explored.now.object.now) (calls_in explored.now.scripts.now) (O.opening explored.now.object.now)
        (all_kept O.meaning explored.now.seen) told.behind.items possible.now.place ∥₁) }
{
    let reply = copied(alloc, &possible.reply)?;
    let behind = explored.path_to(alloc, possible.place)?;
    Ok(ToldReply { reply, behind })
}

/// The replies that a call may have: exactly these, each once, with calls behind which it has it.
pub fn replies_told<O: Object>(
    alloc: Global,
    explored: &Explored<O>,
    id: CallId,
) -> Result<Vec<ToldReply>, NoMemory>
    ensures { IfOk result (λ told. ∥ AreRepliesTold (O.effect explored.now.object.now) (calls_in explored.now.scripts.now) (O.opening explored.now.object.now)
        id (map told_in told.items) ∥₁) }
{
    let replies = explored.replies_of(alloc, id)?;
    let mut told = Vec::new(alloc);
    for possible in &replies {
        told.push(told_reply(alloc, explored, possible)?)?;
    }
    Ok(told)
}
