//! Replies with which a call could have ended.

ghost use Rattle.std.specs.Prelude.{◌++◌, ◌∷◌, [], All, IfOk, IsTrue, map};
ghost use Rattle.ob_checked.specs.CheckedModule.{program_in};
ghost use Rattle.ob_interface.specs.Call.{Reply as AnyReply};
ghost use Rattle.ob_interface.specs.View.{reply_of};
ghost use Rattle.ob_object_run.specs.LegalOrder.{CallEnds};
ghost use Rattle.ob_store.specs.View.{state_of};
ghost use Rattle.wf_history.specs.History.{End, IsHistory};
ghost use Rattle.wf_history.specs.View.{event_of};
ghost use Rattle.wf_order.specs.Verdict.{HasLegal};

use crate::candidates::{Calls, candidates};
use crate::{ModuleObject, Search};
use ob_interface::NoMemory;
use ob_interface::call::Reply;
use std::alloc::Global;
use wf_history::{CallId, Event, KeptReply};
use wf_order::{Verdict, find_order};
use wf_parts::copied;

/// For a reply at most so many configurations are looked at, and more where there are many events.
const FEW: usize = 10_000;

/// Replies with which a call could end behind the first events, as far as is searched.
pub(crate) fn possible_replies(
    alloc: Global,
    object: &ModuleObject,
    calls: &Calls,
    end: CallId,
    search: &Search,
) -> Result<Vec<Reply>, NoMemory>
    requires { (reply : AnyReply) → IsHistory (map event_of calls.now.before.now ++ End end reply ∷ []) }
    ensures { IfOk result (λ replies. All (λ reply. HasLegal (CallEnds (program_in object.now.checked.now) object.now.budget) (state_of object.now.opening.now)
        (map event_of calls.now.before.now ++ End end (reply_of reply) ∷ [])) replies.items) }
{
    let mut replies = Vec::new(alloc);
    for reply in candidates(alloc, object, calls, end)? {
        if could_end(alloc, object, calls.before, end, &reply, search)? {
            replies.push(reply)?;
        }
    }
    Ok(replies)
}

/// Whether a legal order was found of the events with this end behind them.
fn could_end(
    alloc: Global,
    object: &ModuleObject,
    before: &[Event],
    end: CallId,
    reply: &Reply,
    search: &Search,
) -> Result<bool, NoMemory>
    requires { (reply : AnyReply) → IsHistory (map event_of before.now ++ End end reply ∷ []) }
    ensures { IfOk result (λ could. IsTrue could → HasLegal (CallEnds (program_in object.now.checked.now) object.now.budget) (state_of object.now.opening.now)
        (map event_of before.now ++ End end (reply_of reply.now) ∷ [])) }
{
    let mut history = copied(alloc, before)?;
    let kept = KeptReply::keep(alloc, reply)?;
    history.push_end(end, kept)?;
    let most = search
        .most
        .min(before.len().saturating_mul(4).saturating_add(FEW));
    match find_order(alloc, &history, object, most, search.keys)? {
        Verdict::Legal(_) => Ok(true),
        _ => Ok(false),
    }
}
