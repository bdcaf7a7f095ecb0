//! The calls of a record's order, each as it began.

ghost use Rattle.std.specs.Prelude.{◌≡◌, IfErr, IfOk, Some, map, slice_get};
ghost use Rattle.ob_explained_traps.specs.RecordTraps.{AreBegun, IsUnbegun};
ghost use Rattle.ob_mean.specs.View.{call_of};
ghost use Rattle.ob_object_run.specs.Places.{BeginsAt};
ghost use Rattle.wf_history.specs.History.{Begin};
ghost use Rattle.wf_history.specs.View.{event_of, seen_call};
ghost use Rattle.wf_history.specs.declared.event.CallId.{CallId};

use ob_mean::call::Call;
use ob_object_calls::begins::begins_of;
use ob_object_run::OrderFault;
use std::alloc::{AllocError, Global};
use wf_history::{CallId, Event, SeenCall, SeenEvent};

/// The calls of these names, as they began among these events; or a name of which no call began.
pub(crate) fn order_calls(
    alloc: Global,
    events: &[Event],
    order: &[CallId],
) -> Result<Vec<Call>, OrderFault>
    ensures calls { IfOk result (λ calls. AreBegun (map event_of events.now) order.now (map call_of calls.items)) }
    ensures fault { IfErr result (IsUnbegun (map event_of events.now) order.now) }
{
    let begins = begins_of(alloc, events)?;
    let mut calls = Vec::new(alloc);
    for id in order {
        let Some(begin) = begins.get(id) else {
            return Err(OrderFault::Unknown(*id));
        };
        let call = call_in(alloc, call_at(events, *begin))?;
        calls.push(call)?;
    }
    Ok(calls)
}

/// The call that begins at a place.
fn call_at(events: &[Event], place: usize) -> SeenCall<'_>
    requires { (id : CallId) × BeginsAt (map event_of events.now) id place }
    ensures { (id : CallId) × (slice_get (map event_of events.now) place ≡ Some (Begin id (seen_call result))) }
{
    match events[place].seen() {
        SeenEvent::Begin(_, call) => call,
        _ => unreachable!(),
    }
}

/// The call, for the interpreter.
fn call_in(alloc: Global, call: SeenCall) -> Result<Call, AllocError>
    ensures { IfOk result (λ c. call_of c ≡ seen_call call.entry) }
{
    Ok(Call {
        export: call.proc,
        arguments: Vec::from_slice(alloc, call.args.lent().as_slice())?,
    })
}
