//! The search of one history.

ghost use Rattle.std.specs.Prelude.{◌≡◌, Bool, ◌<◌, ◌≤◌, ◌+◌, ◌++◌, ◌∷◌, ℕ, List, [], map, length, replicate};
ghost use Rattle.std.specs.Prelude.{IfOk, OnOk, MatchOption, IsTrue, option_map, vec_len};
ghost use Rattle.indexmap.specs.IndexSet.{index_set_len};
ghost use Rattle.ob_interface.specs.Call.{ObjectCall, Reply};
ghost use Rattle.wf_history.specs.declared.event.CallId.{CallId};
ghost use Rattle.wf_history.specs.History.{Event};
ghost use Rattle.wf_history.specs.View.{event_of};
ghost use Rattle.wf_order.specs.declared.search.Answer.TheVariants as Answers;
ghost use Rattle.wf_order.specs.MadeCalls.{AreMade};
ghost use Rattle.wf_order.specs.Rows.{AreRows, begun_rows, total};
ghost use Rattle.wf_order.specs.Search.{found_in, all_found, ids_of, AreWorded, IsWorded, IsArrival, IsGrown, IsSearch, IsAnswer, IsWholeSearch, IsLed, work};
ghost use Rattle.wf_order.specs.Steps.{Configuration, IsDone, IsLimit, start_at};

use crate::attempt::{Attempt, chosen};
use crate::made_calls::{MadeCalls, no_calls};
use crate::passing::passed;
use crate::rows::{limit_of, next_limit};
use crate::searched_object::Object;
use crate::seen::{Found, Seen};
use crate::standing::{Way, is_stood_for};
use crate::step::{Here, Task, one_more};
use ob_interface::NoMemory;
use smallvec::SmallVec;
use std::alloc::Global;
use wf_history::CallId;

/// A configuration on the way from the start, by its place: the place from which on calls begin that are still to be tried, the
/// call that was tried last, and the first place at which a call ends that is not taken there.
#[derive(Clone, Copy)]
pub(crate) struct Frame {
    pub place: usize,
    pub next: usize,
    pub id: CallId,
    pub limit: usize,
}

/// What a search comes to.
#[derive(Drop)]
pub(crate) enum Answer {
    /// A legal order.
    Order(Vec<CallId>),
    /// There is none.
    NoOrder,
    /// More configurations were found than were to be looked at.
    TooMany,
}

/// The calls that the frames are at.
fn path_of(alloc: Global, stack: &[Frame]) -> Result<Vec<CallId>, NoMemory>
    ensures { IfOk result (λ path. path.items ≡ ids_of stack.now) }
{
    let mut path = Vec::with_capacity(alloc, stack.len())?;
    for frame in stack {
        path.push(frame.id)?;
    }
    Ok(path)
}

/// The last step leads to a configuration with this limit: the calls of the steps, where all that have ended are taken. Else the
/// configuration is the next one to go on from, unless it was found before.
fn arrive<O: Object>(
    task: &Task<O>,
    seen: &mut Seen<O::State>,
    stack: &mut Vec<Frame>,
    there: Found<O::State>,
    limit: usize,
) -> Result<Option<Vec<CallId>>, NoMemory>
    requires worded { AreWorded O.meaning O.words_of seen.old }
    requires words { IsWorded O.meaning O.words_of there }
    ensures arrival { (history : List (Event ObjectCall Reply)) → AreRows history (length there.counts.items) task.now.rows.now
        → IsLimit history there.counts.items limit
        → IfOk result (λ to. IsArrival (O.effect task.now.object.now) history (found_in O.meaning there)
        (all_found O.meaning seen.old) (all_found O.meaning seen.new) stack.old.items stack.new.items (option_map (λ path. path.items) to)) }
    ensures worded { IfOk result (λ to. AreWorded O.meaning O.words_of seen.new) }
    ensures one_more { IfOk result (λ to. index_set_len seen.new ≤ index_set_len seen.old + 1) }
    ensures grown { IfOk result (λ to. IsGrown seen.old.keys seen.new.keys) }
{
    if limit >= task.rows.events {
        return Ok(Some(path_of(task.alloc, stack)?));
    }
    let place = seen.len();
    if !seen.insert(there)? {
        return Ok(None);
    }
    let id = CallId::default();
    stack.push(Frame {
        place,
        next: 0,
        id,
        limit,
    })?;
    Ok(None)
}

/// Tries a silent call or else the next call of the frame that was on top of the stack: a legal order, if one is found. It stands apart, so that
/// a frame of which nothing is left takes no room for it.
#[inline(never)]
fn advance_from<'a, O: Object>(
    task: &Task<'_, 'a, O>,
    seen: &mut Seen<O::State>,
    stack: &mut Vec<Frame>,
    frame: Frame,
    calls: &mut MadeCalls<'a, O::State>,
) -> Result<Option<Vec<CallId>>, NoMemory>
    requires left { frame.next < task.now.rows.now.events }
    requires rows { (processes : ℕ) × AreRows (map event_of task.now.events.now) processes task.now.rows.now }
    requires place { frame.place < index_set_len seen.old }
    requires worded { AreWorded O.meaning O.words_of seen.old }
    requires made { AreMade O.meaning O.words_of (O.effect task.now.object.now) calls.old }
    ensures made { OnOk result (AreMade O.meaning O.words_of (O.effect task.now.object.now) calls.new) }
    ensures search { (history : List (Event ObjectCall Reply)) (processes : ℕ) (exact : Bool) (start : Configuration O.Meaning) → AreRows history processes task.now.rows.now
        → IsSearch (O.effect task.now.object.now) history processes (IsLed (O.effect task.now.object.now) history exact start) start (all_found O.meaning seen.old) (stack.old.items ++ frame ∷ [])
        → IfOk result (λ to. MatchOption to
        (IsSearch (O.effect task.now.object.now) history processes (IsLed (O.effect task.now.object.now) history exact start) start (all_found O.meaning seen.new) stack.new.items
        × (work processes task.now.rows.now (all_found O.meaning seen.new) stack.new.items < work processes task.now.rows.now (all_found O.meaning seen.old) (stack.old.items ++ frame ∷ [])))
        (λ order. (end : Configuration O.Meaning) × IsLed (O.effect task.now.object.now) history exact start order.items end × IsDone (O.effect task.now.object.now) history end)) }
    ensures worded { IfOk result (λ to. AreWorded O.meaning O.words_of seen.new) }
    ensures one_more { IfOk result (λ to. index_set_len seen.new ≤ index_set_len seen.old + 1) }
    ensures grown { IfOk result (λ to. IsGrown seen.old.keys seen.new.keys) }
{
    // A search is hard where it has come back to a configuration, or has found more than two for each call on its way.
    let is_hard = frame.next > 0 || seen.len() / 2 > stack.len();
    let here = Here {
        found: &seen[frame.place],
        limit: frame.limit,
        hard: is_hard.then_some(&*seen),
    };
    let last = match stack.last() {
        Some(last) if is_hard => Some(last.id.process),
        _ => None,
    };
    let Some(attempt) = chosen(task, &here, frame.next, calls)? else {
        return Ok(None);
    };
    let Attempt {
        next,
        process,
        state,
    } = attempt;
    let (id, mut there) = one_more(task, &here.found.counts, process, state)?;
    stack.push(Frame { next, id, ..frame })?;
    let limit = next_limit(task.events, &there.counts, frame.limit);
    let limit = passed(task, stack, Frame { limit, ..frame }, &mut there, calls)?;
    let way = Way {
        place: frame.place,
        limit,
        process: last,
    };
    if is_stood_for(task, seen, &way, &mut there, calls)? {
        return Ok(None);
    }
    let arrived = arrive(task, seen, stack, there, limit)?;
    Ok(arrived)
}

/// Tries what is left to be tried of the frame that was on top of the stack: a legal order, if one is found.
#[inline(always)]
pub(crate) fn advance<'a, O: Object>(
    task: &Task<'_, 'a, O>,
    seen: &mut Seen<O::State>,
    stack: &mut Vec<Frame>,
    frame: Frame,
    calls: &mut MadeCalls<'a, O::State>,
) -> Result<Option<Vec<CallId>>, NoMemory>
    requires rows { (processes : ℕ) × AreRows (map event_of task.now.events.now) processes task.now.rows.now }
    requires place { frame.place < index_set_len seen.old }
    requires worded { AreWorded O.meaning O.words_of seen.old }
    requires made { AreMade O.meaning O.words_of (O.effect task.now.object.now) calls.old }
    ensures made { OnOk result (AreMade O.meaning O.words_of (O.effect task.now.object.now) calls.new) }
    ensures search { (history : List (Event ObjectCall Reply)) (processes : ℕ) (exact : Bool) (start : Configuration O.Meaning) → AreRows history processes task.now.rows.now
        → IsSearch (O.effect task.now.object.now) history processes (IsLed (O.effect task.now.object.now) history exact start) start (all_found O.meaning seen.old) (stack.old.items ++ frame ∷ [])
        → IfOk result (λ to. MatchOption to
        (IsSearch (O.effect task.now.object.now) history processes (IsLed (O.effect task.now.object.now) history exact start) start (all_found O.meaning seen.new) stack.new.items
        × (work processes task.now.rows.now (all_found O.meaning seen.new) stack.new.items < work processes task.now.rows.now (all_found O.meaning seen.old) (stack.old.items ++ frame ∷ [])))
        (λ order. (end : Configuration O.Meaning) × IsLed (O.effect task.now.object.now) history exact start order.items end × IsDone (O.effect task.now.object.now) history end)) }
    ensures worded { IfOk result (λ to. AreWorded O.meaning O.words_of seen.new) }
    ensures one_more { IfOk result (λ to. index_set_len seen.new ≤ index_set_len seen.old + 1) }
    ensures grown { IfOk result (λ to. IsGrown seen.old.keys seen.new.keys) }
{
    // Of the frame of a call that was passed over nothing is.
    if frame.next >= task.rows.events {
        return Ok(None);
    }
    advance_from(task, seen, stack, frame, calls)
}

/// The configuration in which no call of so many processes is taken.
fn start_of<O: Object>(task: &Task<O>, processes: usize) -> Result<Found<O::State>, NoMemory>
    ensures start { IfOk result (λ start. found_in O.meaning start ≡ start_at processes (O.opening task.now.object.now)) }
    ensures words { IfOk result (λ start. IsWorded O.meaning O.words_of start) }
{
    let alloc = task.alloc;
    let counts = SmallVec::from_elem(alloc, 0, processes)?;
    let state = task.object.open(alloc)?;
    let words = task.object.words(alloc, &state)?;
    Ok(Found {
        counts,
        words,
        state,
    })
}

/// A legal order of a history whose calls stand in these rows, if there is one, where no more than so many configurations
/// are to be looked at. What was found stays in the table.
pub(crate) fn search<O: Object>(
    task: &Task<O>,
    seen: &mut Seen<O::State>,
    processes: usize,
    most: usize,
) -> Result<Answer, NoMemory>
    requires rows { AreRows (map event_of task.now.events.now) processes task.now.rows.now }
    requires calls { total (begun_rows task.now.rows.now) ≤ length task.now.events.now }
    requires empty { index_set_len seen.old ≡ 0 }
    ensures answer { IfOk result (IsAnswer (O.effect task.now.object.now) (O.opening task.now.object.now) (map event_of task.now.events.now) processes most) }
    ensures whole { IfOk result (λ answer. answer ≡ Answers.NoOrder
        → IsWholeSearch (O.effect task.now.object.now) (O.opening task.now.object.now) (map event_of task.now.events.now) processes (all_found O.meaning seen.new)) }
    ensures worded { IfOk result (λ answer. AreWorded O.meaning O.words_of seen.new) }
{
    let mut stack = Vec::new(task.alloc);
    let start = start_of(task, processes)?;
    let limit = limit_of(task.rows, &start.counts);
    if let Some(order) = arrive(task, seen, &mut stack, start, limit)? {
        return Ok(Answer::Order(order));
    }
    let mut calls = no_calls(task.alloc)?;
    while let Some(frame) = stack.pop() {
        if seen.len() > most {
            return Ok(Answer::TooMany);
        }
        if let Some(order) = advance(task, seen, &mut stack, frame, &mut calls)? {
            return Ok(Answer::Order(order));
        }
    }
    Ok(Answer::NoOrder)
}
