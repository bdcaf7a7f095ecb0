//! Events of a history, copied.

ghost use Rattle.std.specs.Prelude.{◌≡◌, ◌++◌, ◌∷◌, [], IfOk, OnOk, map};
ghost use Rattle.wf_history.specs.History.{IsHistory};
ghost use Rattle.wf_history.specs.View.{event_of, kept_call, kept_reply, seen_call, seen_event, seen_reply};

use ob_interface::NoMemory;
use smallvec::SmallVec;
use std::alloc::Global;
use wf_history::{
    Event, History, KeptCall, KeptReply, KeptScalars, SeenCall, SeenEvent, SeenReply,
};

/// The call, to be kept.
pub(crate) fn kept_call(alloc: Global, call: SeenCall) -> Result<KeptCall, NoMemory>
    ensures { IfOk result (λ kept. kept_call kept ≡ seen_call call.entry) }
{
    Ok(KeptCall {
        proc: call.proc,
        args: KeptScalars::from_slice(alloc, call.args.lent().as_slice())?,
    })
}

/// The reply, to be kept.
pub(crate) fn kept_reply(alloc: Global, reply: SeenReply) -> Result<KeptReply, NoMemory>
    ensures { IfOk result (λ kept. kept_reply kept ≡ seen_reply reply.entry) }
{
    match reply {
        SeenReply::Done(values) => Ok(KeptReply::Done(KeptScalars::from_slice(
            alloc,
            values.lent().as_slice(),
        )?)),
        SeenReply::Trap(number) => Ok(KeptReply::Trap(number)),
    }
}

/// Adds a copy of an event.
pub fn push_seen(alloc: Global, history: &mut History, event: SeenEvent) -> Result<(), NoMemory>
    requires { IsHistory (history.old ++ seen_event event ∷ []) }
    ensures { OnOk result (history.new ≡ history.old ++ seen_event event.entry ∷ []) }
{
    match event {
        SeenEvent::Begin(id, call) => {
            let call = kept_call(alloc, call)?;
            history.push_begin(id, call)
        }
        SeenEvent::Applied(ids) => {
            let ids = SmallVec::from_slice(alloc, ids)?;
            history.push_applied(ids)
        }
        SeenEvent::End(id, reply) => {
            let reply = kept_reply(alloc, reply)?;
            history.push_end(id, reply)
        }
    }
}

/// A history of copies of events.
pub fn copied(alloc: Global, events: &[Event]) -> Result<History, NoMemory>
    requires { IsHistory (map event_of events.now) }
    ensures { IfOk result (λ history. history ≡ map event_of events.now) }
{
    let mut history = History::new(alloc);
    for event in events {
        push_seen(alloc, &mut history, event.seen())?;
    }
    Ok(history)
}
