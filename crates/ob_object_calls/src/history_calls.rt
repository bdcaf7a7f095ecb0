//! Calls of a history made one at a time.

ghost use Rattle.std.specs.Prelude.{◌≡◌, IfOk, Some, map, option_map, slice_get};
ghost use Rattle.std.specs.HashMap as hash;
ghost use Rattle.ob_checked.specs.CheckedModule.{program_in};
ghost use Rattle.ob_mean.specs.View.{call_of, reply_of};
ghost use Rattle.ob_object_run.specs.Places.{BeginsAt, same_id};
ghost use Rattle.ob_object_calls.specs.Begins.{AreBegins};
ghost use Rattle.ob_object_calls.specs.MadeCalls.{IsCallMade, IsMeantFound, IsStateBehind};
ghost use Rattle.ob_object_calls.specs.View.{step_of};
ghost use Rattle.ob_store.specs.View.{state_of};
ghost use Rattle.wf_history.specs.History.{Begin};
ghost use Rattle.wf_history.specs.View.{event_of, seen_call};
ghost use Rattle.wf_history.specs.declared.event.CallId.{CallId};

use crate::begins::begins_of;
use ob_checked::checked::Checked;
use ob_interface::NoMemory;
use ob_mean::call as interpreter;
use ob_mean::outside_call::step;
use ob_store::state::State;
use std::alloc::{AllocError, Global};
use std::collections::HashMap;
use wf_history::{CallId, Event, SeenCall, SeenEvent};

/// The reply of a call behind others, which are made one at a time from the opening state, each with the budget of turns; none where one of
/// them or the call itself never began.
pub(crate) fn meant_reply(
    alloc: Global,
    events: &[Event],
    before: &[CallId],
    checked: &Checked,
    opening: &State,
    budget: u64,
    id: CallId,
) -> Result<Option<interpreter::Reply>, NoMemory>
    ensures { IfOk result (λ reply.
        IsMeantFound (program_in checked.now) budget (map event_of events.now) (state_of opening.now) before.now id (option_map reply_of reply)) }
{
    let begins = begins_of(alloc, events)?;
    let Some(state) = state_behind(alloc, events, &begins, before, checked, opening, budget)? else {
        return Ok(None);
    };
    let Some((_, reply)) = made(alloc, events, &begins, checked, state, id, budget)? else {
        return Ok(None);
    };
    Ok(Some(reply))
}

/// The state to which calls lead; none where one of them never began.
fn state_behind(
    alloc: Global,
    events: &[Event],
    begins: &HashMap<CallId, usize>,
    ids: &[CallId],
    checked: &Checked,
    opening: &State,
    budget: u64,
) -> Result<Option<State>, NoMemory>
    requires { AreBegins (map event_of events.now) (hash.get same_id begins.now) }
    ensures { IfOk result (λ state.
        IsStateBehind (program_in checked.now) budget (map event_of events.now) (state_of opening.now) ids.now (option_map state_of state)) }
{
    let mut state = opening.copy(alloc)?;
    for id in ids {
        let Some((next, _)) = made(alloc, events, begins, checked, state, *id, budget)? else {
            return Ok(None);
        };
        state = next;
    }
    Ok(Some(state))
}

/// The state and the reply to which a call leads; none where it never began.
fn made(
    alloc: Global,
    events: &[Event],
    begins: &HashMap<CallId, usize>,
    checked: &Checked,
    state: State,
    id: CallId,
    budget: u64,
) -> Result<Option<(State, interpreter::Reply)>, NoMemory>
    requires { AreBegins (map event_of events.now) (hash.get same_id begins.now) }
    ensures { IfOk result (λ made.
        IsCallMade (program_in checked.now) budget (map event_of events.now) id (state_of state) (option_map step_of made)) }
{
    let Some(begin) = begins.get(&id) else {
        return Ok(None);
    };
    let call = call_in(alloc, call_at(events, *begin))?;
    let (next, reply) = step(alloc, checked.program(), state, &call, budget)?;
    Ok(Some((next, reply)))
}

/// The call that begins at a place.
fn call_at(events: &[Event], place: usize) -> SeenCall<'_>
    requires { (id : CallId) × BeginsAt (map event_of events.now) id place }
    ensures { (id : CallId) × (slice_get (map event_of events.now) place ≡ Some (Begin id (seen_call result))) }
{
    match events[place].seen() {
        SeenEvent::Begin(_, call) => call,
        _ => unreachable!(),
    }
}

/// The call, for the interpreter.
fn call_in(alloc: Global, call: SeenCall) -> Result<interpreter::Call, AllocError>
    ensures { IfOk result (λ c. call_of c ≡ seen_call call.entry) }
{
    Ok(interpreter::Call {
        export: call.proc,
        arguments: Vec::from_slice(alloc, call.args.lent().as_slice())?,
    })
}
