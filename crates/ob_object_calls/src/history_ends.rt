//! What the Ends of a history say.

ghost use Rattle.std.specs.Prelude.{◌≡◌, IfOk, MatchOption, map, option_map};
ghost use Rattle.ob_interface.specs.Call as Calls;
ghost use Rattle.ob_mean.specs.View.{reply_of};
ghost use Rattle.ob_object_calls.specs.MadeCalls.{IsTold};
ghost use Rattle.wf_history.specs.History.{End};
ghost use Rattle.wf_history.specs.View.{event_of, seen_reply};

use crate::call_names::is_same;
use ob_mean::call as interpreter;
use std::alloc::{AllocError, Global};
use wf_history::{CallId, Event, SeenEvent, SeenReply};

/// The reply of a call that has ended.
pub(crate) fn told_reply(
    alloc: Global,
    events: &[Event],
    id: CallId,
) -> Result<Option<interpreter::Reply>, AllocError>
    ensures { IfOk result (λ reply. IsTold (map event_of events.now) id (option_map reply_of reply)) }
{
    for event in events {
        if let Some(reply) = reply_told(event, id) {
            let reply = reply_in(alloc, reply)?;
            return Ok(Some(reply));
        }
    }
    Ok(None)
}

/// The reply of a call, if it ends with this event.
fn reply_told(event: &Event, id: CallId) -> Option<SeenReply<'_>>
    ensures { MatchOption result
        ((reply : Calls.Reply) → event_of event.now ≡ End id reply → ⊥)
        (λ reply. event_of event.now ≡ End id (seen_reply reply)) }
{
    match event.seen() {
        SeenEvent::Begin(_, _) => None,
        SeenEvent::Applied(_) => None,
        SeenEvent::End(other, reply) => {
            if is_same(other, id) {
                Some(reply)
            } else {
                None
            }
        }
    }
}

/// The reply, as the interpreter's.
fn reply_in(alloc: Global, reply: SeenReply) -> Result<interpreter::Reply, AllocError>
    ensures { IfOk result (λ r. reply_of r ≡ seen_reply reply.entry) }
{
    match reply {
        SeenReply::Done(values) => {
            let values = Vec::from_slice(alloc, values.lent().as_slice())?;
            Ok(interpreter::Reply::Answers(values))
        }
        SeenReply::Trap(trap) => Ok(interpreter::Reply::Trapped(trap)),
    }
}
