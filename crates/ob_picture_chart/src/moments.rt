//! What is seen of a run, one moment after the other.

ghost use Rattle.std.specs.Prelude.{◌≡◌, ◌≤◌, ◌++◌, IfOk, OnOk, length, map, slice_get};
ghost use Rattle.ob_picture_chart.specs.Moments.{made_behind, placed_at, placed_from, seen, seen_from};
ghost use Rattle.ob_picture_chart.specs.ChartView.{moment_of};
ghost use Rattle.wf_history.specs.View.{event_of};

use crate::order::Order;
use std::alloc::{AllocError, Global};
use wf_history::{CallId, Event, SeenCall, SeenEvent, SeenReply};

/// A moment of a run: a column of its picture.
#[derive(Clone, Copy)]
pub enum Moment<'a> {
    /// A process begins a call.
    Begins(CallId, SeenCall<'a>),
    /// These calls take effect, in this order, by a step of the process, where it is known.
    Takes(&'a [CallId], Option<usize>),
    /// A call ends with its reply.
    Ends(CallId, SeenReply<'a>),
}

/// The moments of a run: its events, each with the process whose step showed it.
pub fn seen_moments<'a>(
    alloc: Global,
    events: &'a [Event],
    makers: &[usize],
) -> Result<Vec<Moment<'a>>, AllocError>
    ensures { IfOk result (λ moments. map moment_of moments.items ≡ seen_from makers.now 0 (map event_of events.now)) }
{
    let mut moments = Vec::new(alloc);
    for (number, event) in events.iter().enumerate() {
        moments.push(seen(event, makers, number))?;
    }
    Ok(moments)
}

/// The event of a number, as its maker's step showed it.
fn seen<'a>(event: &'a Event, makers: &[usize], number: usize) -> Moment<'a>
    ensures { moment_of result ≡ seen (event_of event.now) (slice_get makers.now number) }
{
    match event.seen() {
        SeenEvent::Begin(id, call) => Moment::Begins(id, call),
        SeenEvent::Applied(ids) => Moment::Takes(ids, makers.get(number).copied()),
        SeenEvent::End(id, reply) => Moment::Ends(id, reply),
    }
}

/// The moments of a run of which only the Begin and End events and the order are known: each call takes effect as late as
/// the order lets it.
pub fn placed_moments<'a>(
    alloc: Global,
    events: &'a [Event],
    order: &'a [CallId],
) -> Result<Vec<Moment<'a>>, AllocError>
    ensures { IfOk result (λ moments. map moment_of moments.items ≡ placed_from order.now 0 (map event_of events.now)) }
{
    let known = Order::new(alloc, order)?;
    let mut moments = Vec::new(alloc);
    let mut made = 0;
    for event in events {
        made = push_placed(&mut moments, event, &known, made)?;
    }
    moments.push(Moment::Takes(&order[made..], None))?;
    Ok(moments)
}

/// Appends what is seen with an event, and tells how many calls of the order have taken effect then.
fn push_placed<'a>(
    moments: &mut Vec<Moment<'a>>,
    event: &'a Event,
    order: &Order<'a>,
    made: usize,
) -> Result<usize, AllocError>
    requires { made ≤ length order.now.ids.now }
    ensures moments { OnOk result (map moment_of moments.new.items ≡ map moment_of moments.old.items ++ placed_at order.now.ids.now made (event_of event.now)) }
    ensures made { IfOk result (λ behind. (behind ≡ made_behind order.now.ids.now made (event_of event.now)) × (behind ≤ length order.now.ids.now)) }
{
    match event.seen() {
        SeenEvent::Begin(id, call) => {
            moments.push(Moment::Begins(id, call))?;
            Ok(made)
        }
        SeenEvent::Applied(_) => Ok(made),
        SeenEvent::End(id, reply) => {
            let behind = order.place(id).max(made);
            moments.push(Moment::Takes(&order.ids[made..behind], None))?;
            moments.push(Moment::Ends(id, reply))?;
            Ok(behind)
        }
    }
}
