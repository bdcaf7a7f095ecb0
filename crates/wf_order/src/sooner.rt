//! Which calls need not be tried, since an equal one comes first.

ghost use Rattle.std.specs.Prelude.{◌≡◌, ◌<◌, ℕ, List, length, get_or, IsTrue};
ghost use Rattle.ob_interface.specs.Call.{ObjectCall, Reply};
ghost use Rattle.wf_history.specs.History.{Event};
ghost use Rattle.wf_order.specs.Rows.{AreAt, AreRows, call_at};
ghost use Rattle.wf_order.specs.Rules.{AreAlike, HasSooner};
ghost use Rattle.wf_order.specs.Search.{IsAt};
ghost use Rattle.wf_order.specs.Steps.{IsLimit};
ghost use Rattle.wf_order.specs.Turns.{IsNextOf};

use crate::hints::Wanted;
use crate::kept_rows::Rows;
use crate::next_call::Next;
use crate::rows::{Begun, Ended};
use crate::searched_object::Object;
use crate::step::{Here, Task};
use wf_lookup::compared_replies::{are_same_replies, is_same_call};

/// A call by its process and its place in the row.
#[derive(Clone, Copy)]
pub(crate) struct Spot {
    pub process: usize,
    pub place: usize,
}

/// Whether two calls are equal, and the first one comes first: it ends before the other one, which may be open; or both are open, and the
/// first is of the smaller process.
pub(crate) fn are_alike(rows: &Rows, first: Spot, other: Spot) -> bool
    ensures { (history : List (Event ObjectCall Reply)) (processes : ℕ) → AreRows history processes rows.now
        → IsTrue result → AreAlike history (call_at first.process first.place) (call_at other.process other.place) }
{
    let Some(begun) = rows.begun_at(first.process, first.place) else {
        return false;
    };
    let Some(other_begun) = rows.begun_at(other.process, other.place) else {
        return false;
    };
    if !is_same_call(begun.call, other_begun.call) {
        return false;
    }
    match (
        rows.ended_at(first.process, first.place),
        rows.ended_at(other.process, other.place),
    ) {
        (Some(end), Some(later)) => end.place < later.place,
        (Some(_), None) => true,
        (None, Some(_)) => false,
        (None, None) => first.process < other.process,
    }
}

/// Whether a call that may be taken before the limit can stand for one that has begun and ended so, and ends before it.
pub(crate) fn is_sooner(rows: &Rows, limit: usize, first: Spot, begun: Begun, end: Ended) -> bool
    ensures { (history : List (Event ObjectCall Reply)) (counts : List ℕ) (p k : ℕ) → AreRows history (length counts) rows.now → IsLimit history counts limit
        → AreAt rows.now p k begun.entry end.entry → first.process < length counts → first.place ≡ get_or counts first.process 0
        → IsTrue result → HasSooner history counts (call_at p k) }
{
    let Some(sooner_end) = rows.ended_at(first.process, first.place) else {
        return false;
    };
    if sooner_end.place >= end.place {
        return false;
    }
    let Some(sooner_begun) = rows.begun_at(first.process, first.place) else {
        return false;
    };
    if sooner_begun.place >= limit {
        return false;
    }
    if !are_same_replies(sooner_end.reply, end.reply) {
        return false;
    }
    is_same_call(sooner_begun.call, begun.call)
}

/// Whether a next call need not be tried, since an equal one of another process ends sooner.
pub(crate) fn has_sooner<O: Object>(task: &Task<O>, here: &Here<O::State>, next: &Next) -> bool
    requires { IsNextOf task.now.rows.now here.now.found.now.counts.items next.now }
    ensures { (history : List (Event ObjectCall Reply)) → IsAt history task.now.rows.now here.now
        → IsTrue result → HasSooner history here.now.found.now.counts.items (call_at next.now.process (get_or here.now.found.now.counts.items next.now.process 0)) }
{
    let Some(end) = next.ended else {
        return false;
    };
    // No call that is not taken ends before the limit.
    if end.place <= here.limit {
        return false;
    }
    let counts = here.found.counts.as_slice();
    let taken = counts.get(next.process).copied().unwrap_or(0);
    let Some(own) = task.hints.at(next.process, taken as usize) else {
        return false;
    };
    let mut from = 0;
    for _ in 0..counts.len() {
        let process = task.hints.first(counts, from, Wanted::Like(own.looks));
        let Some(count) = counts.get(process) else {
            return false;
        };
        from = process + 1;
        if process == next.process {
            continue;
        }
        let first = Spot {
            process,
            place: *count as usize,
        };
        if is_sooner(task.rows, here.limit, first, next.begun, end) {
            return true;
        }
    }
    false
}
