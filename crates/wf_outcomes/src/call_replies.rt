//! The replies that a call may have.

ghost use Rattle.std.specs.Prelude.{◌≡◌, ◌↔◌, ◌<◌, ◌+◌, map, length, get_or, Contains, IfOk, OnOk, IsTrue, MatchOption};
ghost use Rattle.ob_interface.specs.View.{reply_of};
ghost use Rattle.wf_outcomes.specs.Explored.{kept_in, calls_in, IsWorded};
ghost use Rattle.wf_outcomes.specs.RememberedCalls.{AreMade};
ghost use Rattle.wf_outcomes.specs.Outcomes.{HasNoReply, IsAdded, IsOnlyReply};
ghost use Rattle.wf_outcomes.specs.Possible.{had_in, reply_in};

use crate::explored::Explored;
use crate::remembered_calls::{Memory, reply_to};
use crate::seen::Found;
use crate::step::{Task, next_call};
use ob_interface::NoMemory;
use ob_interface::call::Reply;
use std::alloc::Global;
use wf_counts::Counts;
use wf_history::CallId;
use wf_order::Object;

/// A reply that a call may have, and the place of a configuration at which it has it.
#[derive(Drop)]
pub struct Possible {
    pub reply: Reply,
    pub place: usize,
}

/// Whether two replies are the same.
fn is_same_reply(reply: &Reply, other: &Reply) -> bool
    ensures { IsTrue result ↔ (reply_of reply.now ≡ reply_of other.now) }
{
    match (reply, other) {
        (Reply::Done(values), Reply::Done(others)) => values.as_slice() == others.as_slice(),
        (Reply::Trap(number), Reply::Trap(other)) => *number == *other,
        _ => false,
    }
}

/// Whether a reply is among some.
fn has_reply(replies: &[Possible], reply: &Reply) -> bool
    ensures { IsTrue result ↔ Contains (map reply_in replies.now) (reply_of reply.now) }
{
    for other in replies {
        if is_same_reply(&other.reply, reply) {
            return true;
        }
    }
    false
}

/// One more reply, if it is new.
fn add_reply(replies: &mut Vec<Possible>, reply: Reply, place: usize) -> Result<(), NoMemory>
    ensures { OnOk result (IsAdded (map had_in replies.old.items) (map had_in replies.new.items) (record { reply = reply_of reply; place = place })) }
{
    if has_reply(replies, &reply) {
        return Ok(());
    }
    replies.push(Possible { reply, place })?;
    Ok(())
}

/// Whether a call is its process's next one.
fn is_next(counts: &Counts, id: CallId) -> bool
    ensures { IsTrue result ↔ ((id.process < length counts.now.items) × (id.number ≡ get_or counts.now.items id.process 0 + 1)) }
{
    if id.process >= counts.len() {
        return false;
    }
    match id.number.checked_sub(1) {
        None => false,
        Some(before) => before == counts.count(id.process) as u64,
    }
}

/// The reply of a call at a configuration, if it is next there.
fn reply_at<O: Object>(
    task: &Task<'_, O>,
    memory: &Memory<'_, O::State>,
    here: &Found<O::State>,
    id: CallId,
) -> Result<Option<Reply>, NoMemory>
    requires words { IsWorded O.meaning O.words_of here.now }
    requires memory { ∥ AreMade O.meaning O.words_of (O.effect task.now.object.now) memory.now.made.items ∥₁ }
    ensures { IfOk result (λ made. MatchOption made (HasNoReply (O.effect task.now.object.now) (calls_in task.now.scripts.now) (kept_in O.meaning here.now).here id)
        (λ reply. ∥ IsOnlyReply (O.effect task.now.object.now) (calls_in task.now.scripts.now) (kept_in O.meaning here.now).here id (reply_of reply) ∥₁)) }
{
    if !is_next(&here.counts, id) {
        return Ok(None);
    }
    let Some(call) = next_call(task.scripts, &here.counts, id.process) else {
        return Ok(None);
    };
    let reply = reply_to(task, memory, here.kept.as_ref(), call)?;
    Ok(Some(reply))
}

impl<'a, O: Object> Explored<'a, O> {
    ghost use Rattle.std.specs.Prelude.{map, IfOk};
    ghost use Rattle.wf_outcomes.specs.Explored.{all_kept, calls_in};
    ghost use Rattle.wf_outcomes.specs.Outcomes.{AreReplies};
    ghost use Rattle.wf_outcomes.specs.Possible.{had_in};

    /// The replies that a call may have in the merges: exactly these, each once, and of each a place at which the call has
    /// it.
    pub fn replies_of(&self, alloc: Global, id: CallId) -> Result<Vec<Possible>, NoMemory>
        ensures { IfOk result (λ replies. ∥ AreReplies (O.effect self.now.object.now) (calls_in self.now.scripts.now) (O.opening self.now.object.now)
            (all_kept O.meaning self.now.seen) id (map had_in replies.items) ∥₁) }
    {
        let task = Task {
            alloc,
            object: self.object,
            scripts: self.scripts,
        };
        let mut replies = Vec::new(alloc);
        let places = self.telling.as_slice();
        for row in 0..places.len() {
            let place = places[row];
            if let Some(reply) = reply_at(&task, &self.memory, &self.seen[place], id)? {
                add_reply(&mut replies, reply, place)?;
            }
        }
        Ok(replies)
    }
}
