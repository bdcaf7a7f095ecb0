//! The calls of an order, with what the history says of each.

ghost use Rattle.std.specs.Prelude.{◌≡◌, ℕ, List, map, slice_get, IfOk, IfSome, IsTrue, MatchOption, Some};
ghost use Rattle.ob_interface.specs.Call.{ObjectCall, Reply};
ghost use Rattle.wf_history.specs.History.{Event as AnyEvent, IsHistory};
ghost use Rattle.wf_history.specs.Legal.{HasBegun};
ghost use Rattle.wf_history.specs.View.{event_of};
ghost use Rattle.wf_history.specs.declared.event.CallId.{CallId};
ghost use Rattle.wf_needed.specs.Listed.{AreListed, IsListed, NoneIsOpen, ids_of};
ghost use Rattle.wf_order.specs.Rows.{AreRows};

use ob_interface::NoMemory;
use std::alloc::Global;
use wf_history::{CallId, Event, SeenCall, SeenReply};
use wf_lookup::counted_processes::processes_of;
use wf_order::kept_rows::Rows;
use wf_order::rows::rows_of;

/// A call, with the reply that the history has of it, if it has one.
#[derive(Clone, Copy)]
pub(crate) struct Listed<'a> {
    pub id: CallId,
    pub call: SeenCall<'a>,
    pub reply: Option<SeenReply<'a>>,
}

/// A call that has begun, with its reply.
fn known_call<'a>(rows: &Rows<'_, 'a>, id: CallId) -> Option<Listed<'a>>
    ensures id { IfSome result (λ c. c.id ≡ id) }
    ensures listed { (history : List (AnyEvent ObjectCall Reply)) (processes : ℕ) → AreRows history processes rows.now
        → MatchOption result ((call : ObjectCall) → ¬ HasBegun history id call) (IsListed history) }
{
    let place = id.number.checked_sub(1)? as usize;
    let begun = rows.begun_at(id.process, place)?;
    let call = begun.call;
    let reply = rows.reply_at(id.process, place);
    Some(Listed { id, call, reply })
}

/// Whether all of these calls have ended.
fn have_ended(rows: &Rows, order: &[CallId]) -> bool
    ensures { (history : List (AnyEvent ObjectCall Reply)) (processes : ℕ) → AreRows history processes rows.now → IsTrue result → NoneIsOpen history order.now }
{
    for id in order {
        let Some(listed) = known_call(rows, *id) else {
            return false;
        };
        let Some(_reply) = listed.reply else {
            return false;
        };
    }
    true
}

/// Calls that have begun, with their replies; nothing where all of them have ended.
pub(crate) fn listed_all<'a>(
    alloc: Global,
    events: &'a [Event],
    order: &[CallId],
) -> Result<Option<Vec<Listed<'a>>>, NoMemory>
    requires history { IsHistory (map event_of events.now) }
    requires begun { (k : ℕ) (id : CallId) → slice_get order.now k ≡ Some id → (call : ObjectCall) × HasBegun (map event_of events.now) id call }
    ensures ids { IfOk result (λ o. IfSome o (λ all. ids_of all.items ≡ order.now)) }
    ensures listed { IfOk result (λ o. MatchOption o (NoneIsOpen (map event_of events.now) order.now) (λ all. AreListed (map event_of events.now) all.items)) }
{
    // A row for each process would not fit into memory.
    let Some(processes) = processes_of(events) else {
        return Err(NoMemory);
    };
    let kept = rows_of(alloc, events, processes)?;
    let rows = kept.rows();
    if have_ended(&rows, order) {
        return Ok(None);
    }
    let mut all = Vec::with_capacity(alloc, order.len())?;
    for id in order {
        let Some(listed) = known_call(&rows, *id) else {
            unreachable!()
        };
        all.push(listed)?;
    }
    Ok(Some(all))
}

/// The names of calls.
pub(crate) fn names_of(alloc: Global, all: &[Listed]) -> Result<Vec<CallId>, NoMemory>
    ensures { IfOk result (λ ids. ids.items ≡ ids_of all.now) }
{
    let mut ids = Vec::with_capacity(alloc, all.len())?;
    for listed in all {
        ids.push(listed.id)?;
    }
    Ok(ids)
}
