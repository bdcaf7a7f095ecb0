//! The calls of a history, in rows: one row for each process.

ghost use Rattle.std.specs.Prelude.{◌≡◌, ◌++◌, ◌∷◌, ◌<◌, ◌≤◌, ◌^◌, ℕ, List, [], map, length, replicate, slice_set};
ghost use Rattle.std.specs.Prelude.{◌↔◌, Contains, IfOk, IfSome, IsTrue, OnOk, None, vec_len};
ghost use Rattle.ob_interface.specs.Call.{ObjectCall, Reply};
ghost use Rattle.wf_history.specs.History.{Event as AnyEvent, IsHistory};
ghost use Rattle.wf_history.specs.View.{event_of};
ghost use Rattle.wf_lookup.specs.Beginnings.{IsOfProcesses};
ghost use Rattle.wf_order.specs.Rows.{AreKept, AreNoted, AreRows, row_of};
ghost use Rattle.wf_order.specs.Steps.{IsLimit, IsOneMore, IsTaken};

use crate::kept_rows::{KeptRows, Rows};
use ob_interface::NoMemory;
use std::alloc::Global;
use wf_history::{CallId, Event, SeenCall, SeenEvent, SeenReply};

/// A call, and its place among the events.
#[derive(Clone, Copy)]
pub struct Begun<'a> {
    pub call: SeenCall<'a>,
    pub place: usize,
}

/// A reply, and its place among the events.
#[derive(Clone, Copy)]
pub struct Ended<'a> {
    pub reply: SeenReply<'a>,
    pub place: usize,
}

impl<'a> KeptRows<'a> {
    ghost use Rattle.std.specs.Prelude.{◌≤◌, ℕ, List, length};
    ghost use Rattle.ob_interface.specs.Call.{ObjectCall, Reply};
    ghost use Rattle.wf_history.specs.History.{Event as AnyEvent};
    ghost use Rattle.wf_order.specs.Rows.{AreKept, AreRows, begun_rows, total};

    /// The rows of all events.
    pub fn rows(&self) -> Rows<'_, 'a>
        ensures rows { (history : List (AnyEvent ObjectCall Reply)) (processes : ℕ) → AreKept history processes self.now → AreRows history processes result }
        ensures few { (history : List (AnyEvent ObjectCall Reply)) (processes : ℕ) → AreKept history processes self.now → total (begun_rows result) ≤ length history }
    {
        Rows {
            begun: self.begun.as_slice(),
            ended: self.ended.as_slice(),
            events: self.events,
        }
    }
}

impl<'r, 'a> Rows<'r, 'a> {
    ghost use Rattle.std.specs.Prelude.{◌≡◌, ◌+◌, ◌^◌, ◌<◌, ◌≤◌, ℕ, List, length, take, IsSome, option_map, slice_get};
    ghost use Rattle.ob_interface.specs.Call.{ObjectCall, Reply};
    ghost use Rattle.wf_history.specs.History.{Event as AnyEvent};
    ghost use Rattle.wf_order.specs.Rows.{AreRows, begun_rows, ended_rows, row_of};

    /// The rows of the first events, so many.
    pub fn first(&self, count: usize) -> Rows<'r, 'a>
        ensures { (history : List (AnyEvent ObjectCall Reply)) (processes : ℕ) → AreRows history processes self.now → count ≤ length history
            → AreRows (take count history) processes result }
    {
        Rows {
            begun: self.begun,
            ended: self.ended,
            events: count,
        }
    }

    /// A call by its process and its place in the row.
    pub fn begun_at(&self, process: usize, place: usize) -> Option<Begun<'a>>
        ensures item { result ≡ slice_get (row_of (begun_rows self.now) process) place }
        ensures room { IsSome result → place + 1 < 2 ^ 64 }
    {
        let begun = *self.begun.get(process)?.get(place)?;
        if begun.place >= self.events {
            return None;
        }
        Some(begun)
    }

    /// A reply by its process and its place in the row.
    pub fn ended_at(&self, process: usize, place: usize) -> Option<Ended<'a>>
        ensures { result ≡ slice_get (row_of (ended_rows self.now) process) place }
    {
        let ended = *self.ended.get(process)?.get(place)?;
        if ended.place >= self.events {
            return None;
        }
        Some(ended)
    }

    /// The reply alone.
    pub fn reply_at(&self, process: usize, place: usize) -> Option<SeenReply<'a>>
        ensures { result ≡ option_map (λ e. e.reply) (slice_get (row_of (ended_rows self.now) process) place) }
    {
        Some(self.ended_at(process, place)?.reply)
    }
}

/// Rows without items, each with memory for so many.
fn empty_rows<T: Drop>(alloc: Global, count: usize, room: usize) -> Result<Vec<Vec<T>>, NoMemory>
    ensures { IfOk result (λ rows. map (λ row. row.items) rows.items ≡ replicate count []) }
{
    let mut rows = Vec::new(alloc);
    for _ in 0..count {
        rows.push(Vec::with_capacity(alloc, room)?)?;
    }
    Ok(rows)
}

/// One more item at the end of a row.
fn push_at<T: Drop>(rows: &mut Vec<Vec<T>>, row: usize, item: T) -> Result<(), NoMemory>
    requires { row < vec_len rows.old }
    ensures { OnOk result (map (λ row. row.items) rows.new.items ≡ slice_set (map (λ row. row.items) rows.old.items) row (row_of (map (λ row. row.items) rows.old.items) row ++ item ∷ [])) }
{
    rows[row].push(item)?;
    Ok(())
}

/// One more event, at the place behind those that are noted.
fn note<'a>(
    event: &'a Event,
    place: usize,
    begun: &mut Vec<Vec<Begun<'a>>>,
    ended: &mut Vec<Vec<Ended<'a>>>,
) -> Result<(), NoMemory>
    requires begun { IsOfProcesses (vec_len begun.old) (event_of event.now) }
    requires ended { IsOfProcesses (vec_len ended.old) (event_of event.now) }
    ensures { (history : List (AnyEvent ObjectCall Reply)) (processes : ℕ) → IsHistory (history ++ event_of event.now ∷ []) → place ≡ length history
        → AreNoted history processes (map (λ row. row.items) begun.old.items) (map (λ row. row.items) ended.old.items)
        → OnOk result (AreNoted (history ++ event_of event.now ∷ []) processes (map (λ row. row.items) begun.new.items) (map (λ row. row.items) ended.new.items)) }
{
    match event.seen() {
        SeenEvent::Begin(id, call) => push_at(begun, id.process, Begun { call, place }),
        SeenEvent::Applied(_) => Ok(()),
        SeenEvent::End(id, reply) => push_at(ended, id.process, Ended { reply, place }),
    }
}

/// The rows of these events, which are of so many processes.
pub fn rows_of(alloc: Global, events: &[Event], processes: usize) -> Result<KeptRows<'_>, NoMemory>
    requires history { IsHistory (map event_of events.now) }
    requires few { (event : AnyEvent ObjectCall Reply) → Contains (map event_of events.now) event → IsOfProcesses processes event }
    ensures { IfOk result (AreKept (map event_of events.now) processes) }
{
    // Half of the events begin a call, and mostly each process begins as many: so much memory is taken at once.
    let room = events.len() / 2 / processes.max(1);
    let mut begun = empty_rows(alloc, processes, room)?;
    let mut ended = empty_rows(alloc, processes, room)?;
    for (place, event) in events.iter().enumerate() {
        note(event, place, &mut begun, &mut ended)?;
    }
    Ok(KeptRows {
        begun,
        ended,
        events: events.len(),
    })
}

/// The first place at which a call ends that is not among those counted; where there is none, the number of events.
pub(crate) fn limit_of(rows: &Rows, counts: &[u32]) -> usize
    ensures { (history : List (AnyEvent ObjectCall Reply)) → AreRows history (length counts.now) rows.now → IsLimit history counts.now result }
{
    let mut limit = rows.events;
    for (process, count) in counts.iter().enumerate() {
        if let Some(end) = rows.ended_at(process, *count as usize) {
            limit = limit.min(end.place);
        }
    }
    limit
}

/// Whether a call is one of those that are counted.
#[inline(always)]
fn is_taken(counts: &[u32], id: CallId) -> bool
    ensures { IsTrue result ↔ IsTaken counts.now id }
{
    let Some(taken) = counts.get(id.process) else {
        return false;
    };
    id.number > 0 && id.number <= *taken as u64
}

/// The limit behind one more call, where it was this before: from there on the first end of a call that is not among those counted.
pub(crate) fn next_limit(events: &[Event], counts: &[u32], limit: usize) -> usize
    ensures { (before : List ℕ) (id : CallId) → IsOneMore before id counts.now → IsLimit (map event_of events.now) before limit
        → IsLimit (map event_of events.now) counts.now result }
{
    for place in limit..events.len() {
        match events[place].seen() {
            SeenEvent::Begin(_, _) => continue,
            SeenEvent::Applied(_) => continue,
            SeenEvent::End(id, _) => {
                if !is_taken(counts, id) {
                    return place;
                }
            }
        }
    }
    events.len()
}
