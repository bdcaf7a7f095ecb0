//! What a search that found no order of all events tells of the first events.

ghost use Rattle.std.specs.Prelude.{ℕ, List, length, map, false, IfOk, IsTrue};
ghost use Rattle.ob_interface.specs.Call.{ObjectCall, Reply};
ghost use Rattle.wf_history.specs.History.{Event as AnyEvent};
ghost use Rattle.wf_history.specs.View.{event_of};
ghost use Rattle.wf_order.specs.Rows.{AreRows};
ghost use Rattle.wf_order.specs.Search.{all_counts, all_found, AreWorded, IsGrown, IsLed, IsSearch};
ghost use Rattle.wf_order.specs.Fronts.{AreFramed, AreSized, EndsBefore, IsFarthest, IsFound, IsWithin};
ghost use Rattle.wf_order.specs.Steps.{start_at};

use crate::kept_rows::Rows;
use crate::made_calls::no_calls;
use crate::rows::limit_of;
use crate::search::{Frame, advance};
use crate::searched_object::Object;
use crate::seen::Seen;
use crate::step::Task;
use ob_interface::NoMemory;
use std::alloc::Global;
use wf_history::CallId;

/// What is known of the first events.
#[derive(Drop)]
pub(crate) enum Front {
    /// They have a legal order.
    Legal,
    /// They have none.
    Illegal,
    /// More configurations were found than were to be looked at.
    Unknown,
}

/// Whether the next call of no process ends at a place or before it.
fn goes_farther(rows: &Rows, counts: &[u32], place: usize) -> bool
    ensures { ¬ IsTrue result → (history : List (AnyEvent ObjectCall Reply)) → AreRows history (length counts.now) rows.now → IsWithin history counts.now place }
{
    for (process, count) in counts.iter().enumerate() {
        if let Some(end) = rows.ended_at(process, *count as usize) {
            if end.place <= place {
                return false;
            }
        }
    }
    true
}

/// The farthest place to which a configuration goes that was found: all that ends before it is taken there.
pub(crate) fn farthest_of<S>(rows: &Rows, seen: &Seen<S>) -> usize
    ensures { (history : List (AnyEvent ObjectCall Reply)) (processes : ℕ) → AreRows history processes rows.now → AreSized processes (all_counts seen.now)
        → IsFarthest history (all_counts seen.now) result }
{
    let all = seen.as_slice();
    let Some(last) = all.last() else {
        return 0;
    };
    // Where nothing is tried on the way, the last one goes as far as any.
    let mut farthest = limit_of(rows, &last.counts);
    for found in all {
        if !goes_farther(rows, &found.counts, farthest) {
            continue;
        }
        let limit = limit_of(rows, &found.counts);
        if limit > farthest {
            farthest = limit;
        }
    }
    farthest
}

/// Whether the next call of some process ends at this place or behind it.
fn goes_behind(rows: &Rows, counts: &[u32], place: usize) -> bool
    ensures { ¬ IsTrue result → EndsBefore rows.now counts.now place }
{
    for (process, count) in counts.iter().enumerate() {
        if let Some(end) = rows.ended_at(process, *count as usize) {
            if end.place >= place {
                return true;
            }
        }
    }
    false
}

/// Frames for the configurations that were found from which a next call ends at this place or behind it.
pub(crate) fn frames_behind<S>(
    alloc: Global,
    rows: &Rows,
    seen: &Seen<S>,
    place: usize,
) -> Result<Vec<Frame>, NoMemory>
    ensures { (history : List (AnyEvent ObjectCall Reply)) (processes : ℕ) → AreRows history processes rows.now → AreSized processes (all_counts seen.now)
        → IfOk result (λ frames. AreFramed history rows.now (all_counts seen.now) place frames.items) }
{
    let all = seen.as_slice();
    let mut frames = Vec::new(alloc);
    for (at, found) in all.iter().enumerate() {
        if goes_behind(rows, &found.counts, place) {
            frames.push(Frame {
                place: at,
                next: 0,
                id: CallId::default(),
                limit: limit_of(rows, &found.counts),
            })?;
        }
    }
    Ok(frames)
}

/// Goes on with frames of events, where no more than so many configurations are to be looked at: whether they have a legal order.
pub(crate) fn go_on<O: Object>(
    task: &Task<O>,
    seen: &mut Seen<O::State>,
    mut stack: Vec<Frame>,
    processes: usize,
    most: usize,
) -> Result<Front, NoMemory>
    requires rows { AreRows (map event_of task.now.events.now) processes task.now.rows.now }
    requires worded { AreWorded O.meaning O.words_of seen.old }
    requires search { IsSearch (O.effect task.now.object.now) (map event_of task.now.events.now) processes
        (IsLed (O.effect task.now.object.now) (map event_of task.now.events.now) false (start_at processes (O.opening task.now.object.now)))
        (start_at processes (O.opening task.now.object.now)) (all_found O.meaning seen.old) stack.items }
    ensures found { IfOk result (IsFound (O.effect task.now.object.now) (O.opening task.now.object.now) (map event_of task.now.events.now)) }
    ensures grown { IfOk result (λ front. IsGrown seen.old.keys seen.new.keys) }
{
    let mut calls = no_calls(task.alloc)?;
    while let Some(frame) = stack.pop() {
        if seen.len() > most {
            return Ok(Front::Unknown);
        }
        if let Some(_order) = advance(task, seen, &mut stack, frame, &mut calls)? {
            return Ok(Front::Legal);
        }
    }
    Ok(Front::Illegal)
}
