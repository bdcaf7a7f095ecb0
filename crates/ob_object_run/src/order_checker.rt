//! The checker of orders: whether a list of calls is a legal order of a history.

ghost use Rattle.std.specs.Prelude.{◌≡◌, List, map, slice_get, Some, OnOk, IfOk, IfErr};
ghost use Rattle.ob_checked.specs.CheckedModule.{program_in};
ghost use Rattle.ob_meaning.specs.ByPositionStore.{Activation};
ghost use Rattle.ob_store.specs.View.{state_of};
ghost use Rattle.wf_history.specs.declared.event.CallId.{CallId};
ghost use Rattle.wf_history.specs.History.{Begin, End, IsHistory};
ghost use Rattle.wf_history.specs.View.{event_of, seen_call, seen_reply};
ghost use Rattle.ob_object_run.specs.declared.order_checker.OrderFault.{OrderFault};
ghost use Rattle.ob_object_run.specs.declared.order_checker.OrderFault.TheVariants as Faults;
ghost use Rattle.ob_object_run.specs.LegalOrder.{IsLegalOrder};
ghost use Rattle.ob_object_run.specs.OrderFaults.{IsNowhere, IsUnknown, IsListFault, IsEndFound, IsUnlistedFound, IsTooLateFound, IsArranged, IsOrderFault, TellsFault};
ghost use Rattle.ob_object_run.specs.InTurn.{AcceptsLegal, FailsBy, MakesAll, MakesLegal, StopsAt, TakesBegun, TellsFaults};
ghost use Rattle.ob_object_run.specs.Noted.{AreNoted};
ghost use Rattle.ob_object_run.specs.PlacedCalls.{placed_all};
ghost use Rattle.ob_object_run.specs.Places.{ArePlaced, BeginsAt, EndsAt};

use crate::event_places::{Places, places_of};
use crate::history_replies::is_same_reply;
use crate::interpreted::Interpreted;
use crate::maker::CallMaker;
use crate::noted::Noted;
use ob_checked::checked::Checked;
use ob_interface::NoMemory;
use ob_store::state::State;
use std::alloc::{AllocError, AllocFailed, Global};
use thiserror::Error;
use wf_history::{CallId, Event, History, SeenCall, SeenEvent, SeenReply};

/// Why a list of calls is no legal order of a history.
#[derive(Clone, Copy, Debug, Error)]
pub enum OrderFault {
    /// H1: the first call, by its End, that has ended and that the list lacks.
    #[error("H1 {0}")]
    Missing(CallId),
    /// H2: the first id of the list that never began, or stood in it before.
    #[error("H2 {0}")]
    Unknown(CallId),
    /// H3: the first call of the list that began after the end of one that stands behind it.
    #[error("H3 {0}")]
    TooEarly(CallId),
    /// H4: made in its turn, this call ends with another reply than the history's.
    #[error("H4 {0}")]
    OtherReply(CallId),
    /// Want of memory.
    #[error("NoMemory")]
    NoMemory,
}

impl From<NoMemory> for OrderFault {
    ghost use Rattle.std.specs.Prelude.{◌≡◌};
    ghost use Rattle.ob_object_run.specs.declared.order_checker.OrderFault.TheVariants as Faults;

    ghost from_gives = { λ _ e. e ≡ Faults.NoMemory };

    fn from(_: NoMemory) -> OrderFault {
        OrderFault::NoMemory
    }
}

impl From<AllocError> for OrderFault {
    ghost use Rattle.std.specs.Prelude.{◌≡◌};
    ghost use Rattle.ob_object_run.specs.declared.order_checker.OrderFault.TheVariants as Faults;

    ghost from_gives = { λ _ e. e ≡ Faults.NoMemory };

    fn from(_: AllocError) -> OrderFault {
        OrderFault::NoMemory
    }
}

impl<T: Drop> From<AllocFailed<T>> for OrderFault {
    ghost use Rattle.std.specs.Prelude.{◌≡◌};
    ghost use Rattle.ob_object_run.specs.declared.order_checker.OrderFault.TheVariants as Faults;

    ghost from_gives = { λ _ e. e ≡ Faults.NoMemory };

    fn from(_: AllocFailed<T>) -> OrderFault {
        OrderFault::NoMemory
    }
}

/// The places of all calls, and the ids of the list, where each of them has begun and none stands in it twice.
fn known_places(
    alloc: Global,
    events: &[Event],
    order: &[CallId],
) -> Result<(Places, Noted), OrderFault>
    ensures placed { IfOk result (λ k. ArePlaced (map event_of events.now) (placed_all k.0 order.now)) }
    ensures listed { IfOk result (λ k. AreNoted k.1 order.now) }
    ensures known { OnOk result (IsNowhere (IsUnknown (map event_of events.now) order.now) order.now) }
    ensures fault { IfErr result (IsListFault (map event_of events.now) order.now) }
{
    let places = places_of(alloc, events)?;
    let mut seen = Noted::new(alloc)?;
    for id in order {
        let Some(begin) = places.begins.get(*id) else {
            return Err(OrderFault::Unknown(*id));
        };
        if seen.get(*id).is_some() {
            return Err(OrderFault::Unknown(*id));
        }
        seen.note(*id, begin)?;
    }
    Ok((places, seen))
}

/// The call that ends with an event, if one does.
fn ended(event: &Event) -> Option<CallId>
    ensures { IsEndFound (event_of event.now) result }
{
    match event.seen() {
        SeenEvent::End(id, _) => Some(id),
        _ => None,
    }
}

/// The first call, by its End, that has ended and that is not noted: the list of those that are noted lacks it.
fn first_missing(events: &[Event], listed: &Noted) -> Option<CallId>
    ensures { (order : List CallId) → AreNoted listed.now order → IsUnlistedFound (map event_of events.now) order result }
{
    for event in events {
        if let Some(id) = ended(event)
            && listed.get(id).is_none()
        {
            return Some(id);
        }
    }
    None
}

/// The first call that began after the end of one that stands behind it.
fn first_too_early(places: &Places, order: &[CallId]) -> Option<CallId>
    ensures { IsTooLateFound (placed_all places.now order.now) result }
{
    let mut first = None;
    let mut least = usize::MAX;
    for k in (0..order.len()).rev() {
        let x = places.placed(order[k]);
        if least < x.begin {
            first = Some(x.id);
        }
        if let Some(end) = x.end {
            least = least.min(end);
        }
    }
    first
}

/// The places of all calls, where the list is right but for the replies.
fn arranged(alloc: Global, events: &[Event], order: &[CallId]) -> Result<Places, OrderFault>
    requires { IsHistory (map event_of events.now) }
    ensures placed { IfOk result (λ p. ArePlaced (map event_of events.now) (placed_all p order.now)) }
    ensures arranged { OnOk result (IsArranged (map event_of events.now) order.now) }
    ensures fault { IfErr result (IsListFault (map event_of events.now) order.now) }
{
    let (places, listed) = known_places(alloc, events, order)?;
    if let Some(id) = first_missing(events, &listed) {
        return Err(OrderFault::Missing(id));
    }
    if let Some(id) = first_too_early(&places, order) {
        return Err(OrderFault::TooEarly(id));
    }
    Ok(places)
}

/// The call that begins at a place.
fn call_at(events: &[Event], place: usize) -> SeenCall<'_>
    requires { (id : CallId) × BeginsAt (map event_of events.now) id place }
    ensures { (id : CallId) × (slice_get (map event_of events.now) place ≡ Some (Begin id (seen_call result))) }
{
    match events[place].seen() {
        SeenEvent::Begin(_, call) => call,
        _ => unreachable!(),
    }
}

/// The reply of the End at a place.
fn reply_at(events: &[Event], place: usize) -> SeenReply<'_>
    requires { (id : CallId) × EndsAt (map event_of events.now) id place }
    ensures { (id : CallId) × (slice_get (map event_of events.now) place ≡ Some (End id (seen_reply result))) }
{
    match events[place].seen() {
        SeenEvent::End(_, reply) => reply,
        _ => unreachable!(),
    }
}

/// Makes the calls one at a time, and compares the replies of those that have ended.
fn replay<M: CallMaker>(
    alloc: Global,
    events: &[Event],
    places: &Places,
    order: &[CallId],
    maker: &mut M,
) -> Result<(), OrderFault>
    requires history { IsHistory (map event_of events.now) }
    requires placed { ArePlaced (map event_of events.now) (placed_all places.now order.now) }
    requires taken { TakesBegun M.takes M.stands (map event_of events.now) maker.old }
    ensures made { OnOk result (MakesAll M.stands (map event_of events.now) order.now maker.old maker.new) }
    ensures fault { IfErr result (StopsAt M.stands (map event_of events.now) order.now maker.old) }
{
    for id in order {
        let x = places.placed(*id);
        let reply = maker.make(alloc, call_at(events, x.begin))?;
        if let Some(end) = x.end
            && !is_same_reply(&reply, reply_at(events, end))
        {
            return Err(OrderFault::OtherReply(x.id));
        }
    }
    Ok(())
}

/// Whether a list of calls is a legal order of a history, where the calls are made by this, from where it stands: so many turns for each
/// as it gives them, the calls give the history's replies. Behind a legal order it stands where the calls have led to. Applied events
/// are not looked at.
pub fn check_order_by<M: CallMaker>(
    alloc: Global,
    history: &History,
    order: &[CallId],
    maker: &mut M,
) -> Result<(), OrderFault>
    requires { TakesBegun M.takes M.stands history.now maker.old }
    ensures legal { OnOk result (MakesLegal M.stands history.now order.now maker.old maker.new) }
    ensures fault { IfErr result (FailsBy M.stands history.now order.now maker.old) }
    ensures exact { TellsFaults M.stands history.now order.now maker.old result }
    ensures accepted { AcceptsLegal M.stands history.now order.now maker.old result }
{
    let events = history.events();
    let places = arranged(alloc, events, order)?;
    replay(alloc, events, &places, order, maker)
}

/// Whether a list of calls is a legal order of a history: made one at a time from the opening state, each with the budget of
/// turns, the calls give the history's replies. It gives the state that they lead to. Applied events are not looked at.
pub fn check_order(
    alloc: Global,
    history: &History,
    order: &[CallId],
    checked: &Checked,
    opening: &State,
    budget: u64,
) -> Result<State, OrderFault>
    ensures legal { IfOk result (λ last. IsLegalOrder (program_in checked.now) budget (state_of opening.now) history.now order.now (state_of last)) }
    ensures fault { IfErr result (IsOrderFault (program_in checked.now) budget (state_of opening.now) history.now order.now) }

    // The fault that stands there is answered, want of memory aside.
    ensures exact { (fault : OrderFault) → IsOrderFault (program_in checked.now) budget (state_of opening.now) history.now order.now fault
        → TellsFault result fault }
    // A legal order is accepted, want of memory aside.
    ensures accepted { (last : Activation) → IsLegalOrder (program_in checked.now) budget (state_of opening.now) history.now order.now last
        → IfErr result (λ e. e ≡ Faults.NoMemory) }
{
    let state = opening.copy(alloc)?;
    let mut maker = Interpreted {
        checked,
        state,
        budget,
    };
    check_order_by(alloc, history, order, &mut maker)?;
    Ok(maker.state)
}
