//! Replies that a call has in some states along an order of other calls. They are tried, and nothing is promised of them.

use crate::ModuleObject;
use ob_interface::NoMemory;
use ob_interface::call::Reply;
use std::alloc::{AllocError, Global};
use wf_history::{CallId, Event, SeenCall, SeenEvent};
use wf_order::Object;

/// The call is tried before each of the last so many calls of the order, and behind them.
const MOST_TRIED: usize = 16;

/// The first events of a history, whose processes have these names, and an order of their calls by the names.
#[derive(Clone, Copy)]
pub(crate) struct Calls<'a> {
    pub names: &'a [usize],
    pub before: &'a [Event],
    pub order: &'a [CallId],
}

/// Replies that a call has in some states along the order.
pub(crate) fn candidates(
    alloc: Global,
    object: &ModuleObject,
    calls: &Calls,
    end: CallId,
) -> Result<Vec<Reply>, NoMemory> {
    let begins = begins_of(alloc, calls.names.len(), calls.before)?;
    let mut replies = Vec::new(alloc);
    let Some(call) = call_at(calls.before, &begins, end) else {
        return Ok(replies);
    };
    let mut state = object.open(alloc)?;
    let first = calls.order.len().saturating_sub(MOST_TRIED);
    for (place, id) in calls.order.iter().enumerate() {
        if place >= first {
            let (_, reply) = object.apply(alloc, &state, call)?;
            push_new(&mut replies, reply)?;
        }
        let named = calls.names.iter().position(|name| *name == id.process);
        let numbered = CallId {
            process: named.unwrap_or(0),
            number: id.number,
        };
        if let Some(made) = call_at(calls.before, &begins, numbered) {
            let (next, _) = object.apply(alloc, &state, made)?;
            state = next;
        }
    }
    let (_, reply) = object.apply(alloc, &state, call)?;
    push_new(&mut replies, reply)?;
    Ok(replies)
}

/// The places at which the calls of each process begin.
fn begins_of(
    alloc: Global,
    processes: usize,
    events: &[Event],
) -> Result<Vec<Vec<usize>>, AllocError> {
    let mut begins: Vec<Vec<usize>> = (0..processes).map(|_| Vec::new(alloc)).collect(alloc)?;
    for (place, event) in events.iter().enumerate() {
        if let SeenEvent::Begin(id, _) = event.seen()
            && let Some(row) = begins.get_mut(id.process)
        {
            row.push(place)?;
        }
    }
    Ok(begins)
}

/// The call of this name, if it has begun.
fn call_at<'a>(events: &'a [Event], begins: &[Vec<usize>], id: CallId) -> Option<SeenCall<'a>> {
    let row = begins.get(id.process)?;
    let before = id.number.checked_sub(1)?;
    let place = row.get(before as usize)?;
    match events.get(*place)?.seen() {
        SeenEvent::Begin(_, call) => Some(call),
        _ => None,
    }
}

/// Adds a reply that is not there yet.
fn push_new(replies: &mut Vec<Reply>, reply: Reply) -> Result<(), NoMemory> {
    for other in &*replies {
        let is_there = match (other, &reply) {
            (Reply::Done(others), Reply::Done(values)) => others.as_slice() == values.as_slice(),
            (Reply::Trap(other), Reply::Trap(number)) => *other == *number,
            _ => false,
        };
        if is_there {
            return Ok(());
        }
    }
    replies.push(reply)?;
    Ok(())
}
