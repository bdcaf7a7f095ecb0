//! A call before which another one stands too early in an order.

ghost use Rattle.std.specs.Prelude.{◌≡◌, ◌<◌, ◌↔◌, Contains, IfOk, IfSome, IsTrue, MatchOption, length, map};
ghost use Rattle.std.specs.HashSet as bag;
ghost use Rattle.ob_interface.specs.Call.{ObjectCall};
ghost use Rattle.ob_object_run.specs.Places.{BeginsAt, same_id};
ghost use Rattle.ob_object_calls.specs.Early.{IsEnded, IsEndedWith, IsOvertakenFound};
ghost use Rattle.ob_object_calls.specs.MadeCalls.{NeverBegan};
ghost use Rattle.wf_history.specs.History.{Begin};
ghost use Rattle.wf_history.specs.View.{event_of};
ghost use Rattle.wf_history.specs.declared.event.CallId.{CallId};

use crate::call_names::{is_same, place_in};
use ob_interface::NoMemory;
use std::alloc::Global;
use std::collections::HashSet;
use wf_history::{CallId, Event, History, SeenEvent};

/// A call that had ended when another one began, and stands behind it in an order. There is one where `check_order` tells that the other one
/// stands too early.
pub fn overtaken(
    alloc: Global,
    history: &History,
    order: &[CallId],
    id: CallId,
) -> Result<Option<CallId>, NoMemory>
    ensures { IfOk result (IsOvertakenFound history.now order.now id) }
{
    let events = history.events();
    let Some(place) = place_in(order, id) else {
        return Ok(None);
    };
    let Some(begin) = begin_of(events, id) else {
        return Ok(None);
    };
    let behind = set_of(alloc, &order[place + 1..])?;
    Ok(first_ended(&events[..begin], &behind))
}

/// The place of a call's Begin.
fn begin_of(events: &[Event], id: CallId) -> Option<usize>
    ensures place { MatchOption result (NeverBegan (map event_of events.now) id) (λ place. BeginsAt (map event_of events.now) id place) }
    ensures below { IfSome result (λ place. place < length events.now) }
{
    for (place, event) in events.iter().enumerate() {
        if begins(event, id) {
            return Some(place);
        }
    }
    None
}

/// Whether a call begins with an event.
fn begins(event: &Event, id: CallId) -> bool
    ensures { IsTrue result ↔ ((call : ObjectCall) × (event_of event.now ≡ Begin id call)) }
{
    match event.seen() {
        SeenEvent::Begin(other, _) => is_same(other, id),
        SeenEvent::Applied(_) => false,
        SeenEvent::End(_, _) => false,
    }
}

/// The ids of a list, as a set.
fn set_of(alloc: Global, ids: &[CallId]) -> Result<HashSet<CallId>, NoMemory>
    ensures { IfOk result (λ set. (q : CallId) → IsTrue (bag.contains same_id set q) ↔ Contains ids.now q) }
{
    let mut set = HashSet::new(alloc);
    for id in ids {
        set.insert(*id)?;
    }
    Ok(set)
}

/// The first call to end of those of a set.
fn first_ended(events: &[Event], set: &HashSet<CallId>) -> Option<CallId>
    ensures { IsEnded (map event_of events.now) (λ id. IsTrue (bag.contains same_id set.now id)) result }
{
    for event in events {
        if let Some(id) = ended(event, set) {
            return Some(id);
        }
    }
    None
}

/// The call of a set that ends with an event, if one does.
fn ended(event: &Event, set: &HashSet<CallId>) -> Option<CallId>
    ensures { IsEndedWith (event_of event.now) (λ id. IsTrue (bag.contains same_id set.now id)) result }
{
    match event.seen() {
        SeenEvent::End(id, _) => { if set.contains(&id) { Some(id) } else { None } }
        _ => None,
    }
}
