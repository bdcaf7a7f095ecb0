//! Steps from a configuration.

ghost use Rattle.std.specs.Prelude.{◌≡◌, ◌<◌, ◌+◌, List, length, get_or, IfOk, IfSome, OnOk, MatchOption, IsTrue, option_map, slice_set};
ghost use Rattle.smallvec.specs.SmallVec.{small_vec_len};
ghost use Rattle.ob_interface.specs.Call.{ObjectCall, Reply};
ghost use Rattle.wf_history.specs.History.{Event as AnyEvent};
ghost use Rattle.wf_history.specs.View.{seen_call, seen_reply};
ghost use Rattle.wf_order.specs.MadeCalls.{AreMade};
ghost use Rattle.wf_order.specs.Search.{found_in, HasNoStep, IsNextStep, IsOfFirst, IsSilentFound, IsMade, IsAt, IsWorded, MayBeTaken};
ghost use Rattle.wf_order.specs.Rows.{call_at};
ghost use Rattle.wf_order.specs.Steps.{one_more};
ghost use Rattle.wf_order.specs.Turns.{IsNextOf};

use crate::hints::{Hints, Wanted};
use crate::kept_rows::Rows;
use crate::made_calls::{MadeCalls, outcome};
use crate::next_call::Next;
use crate::rows::{Begun, Ended};
use crate::searched_object::Object;
use crate::seen::{Counts, Found, Seen};
use ob_interface::{NoMemory, call};
use smallvec::SmallVec;
use std::alloc::Global;
use wf_history::{CallId, Event, SeenCall, SeenReply};
use wf_lookup::compared_replies::{is_same_call, is_same_reply};

/// What is searched: events, with their rows, on an object, and which calls it tells to be silent.
#[derive(Drop)]
pub(crate) struct Task<'r, 'a, O> {
    pub alloc: Global,
    pub events: &'a [Event],
    pub object: &'a O,
    pub rows: &'r Rows<'r, 'a>,
    pub hints: &'r Hints,
}

/// A configuration, with the first place at which a call ends that is not taken there. In a hard search, all that was found.
#[derive(Drop)]
pub(crate) struct Here<'a, S> {
    pub found: &'a Found<S>,
    pub limit: usize,
    pub hard: Option<&'a Seen<S>>,
}

/// What a call made of a state.
#[derive(Drop)]
pub(crate) struct Made<'a, S> {
    pub call: SeenCall<'a>,
    pub state: S,
    pub reply: call::Reply,
}

/// What it comes to that a silent call is looked for.
#[derive(Drop)]
pub(crate) enum Silent<S> {
    /// The next call of this process is one, and leads to this state.
    Step(usize, S),
    /// None may be taken.
    Never,
}

/// Takes the next call of a process, and gives its number.
pub(crate) fn take_next(counts: &mut Counts, process: usize) -> Result<u32, NoMemory>
    requires { process < small_vec_len counts.old }
    ensures number { IfOk result (λ number. number ≡ get_or counts.old.items process 0 + 1) }
    ensures counts { OnOk result (counts.new.items ≡ slice_set counts.old.items process (get_or counts.old.items process 0 + 1)) }
{
    let Some(number) = counts[process].checked_add(1) else {
        return Err(NoMemory);
    };
    if let Some(count) = counts.get_mut(process) {
        *count = number;
    }
    Ok(number)
}

/// Where the next call of a process leads to that makes this state, and which call it is.
pub(crate) fn one_more<O: Object>(
    task: &Task<O>,
    counts: &Counts,
    process: usize,
    state: O::State,
) -> Result<(CallId, Found<O::State>), NoMemory>
    requires { process < small_vec_len counts.now }
    ensures id { IfOk result (λ to. to.0 ≡ call_at process (get_or counts.now.items process 0)) }
    ensures found { IfOk result (λ to. found_in O.meaning to.1 ≡ one_more counts.now.items process (O.meaning state)) }
    ensures words { IfOk result (λ to. IsWorded O.meaning O.words_of to.1) }
{
    let alloc = task.alloc;
    let words = task.object.words(alloc, &state)?;
    let mut counts = SmallVec::from_slice(alloc, counts.as_slice())?;
    let number = take_next(&mut counts, process)?;
    let id = CallId {
        process,
        number: number as u64,
    };
    let found = Found {
        counts,
        words,
        state,
    };
    Ok((id, found))
}

/// The state that a next call leads to, where it may be taken and has the history's reply.
pub(crate) fn step_by<'a, O: Object>(
    task: &Task<'_, 'a, O>,
    here: &Here<O::State>,
    next: &Next<'a>,
    calls: &mut MadeCalls<'a, O::State>,
) -> Result<Option<O::State>, NoMemory>
    requires next { IsNextOf task.now.rows.now here.now.found.now.counts.items next.now }
    requires worded { IsWorded O.meaning O.words_of here.now.found.now }
    requires made { AreMade O.meaning O.words_of (O.effect task.now.object.now) calls.old }
    ensures made { OnOk result (AreMade O.meaning O.words_of (O.effect task.now.object.now) calls.new) }
    ensures stepped { (history : List (AnyEvent ObjectCall Reply)) → IsAt history task.now.rows.now here.now
        → IfOk result (λ stepped. MatchOption stepped (HasNoStep (O.effect task.now.object.now) history (found_in O.meaning here.now.found.now) next.now.process)
        (λ state. IsNextStep (O.effect task.now.object.now) history (found_in O.meaning here.now.found.now) next.now.process (O.meaning state))) }
{
    if next.begun.place >= here.limit {
        return Ok(None);
    }
    let known = match next.ended {
        Some(end) => Some(end.reply),
        None => None,
    };
    outcome(task, here.found, next.begun.call, known, calls)
}

/// What a call makes of a state: what an equal one made of it, where one was made, so that none is made twice.
fn made_by<'a, O: Object>(
    task: &Task<'_, 'a, O>,
    before: &O::State,
    call: SeenCall<'a>,
    made: Option<Made<'a, O::State>>,
) -> Result<Made<'a, O::State>, NoMemory>
    requires { IfSome made (IsMade O.meaning (O.effect task.now.object.now) (O.meaning before.now)) }
    ensures { IfOk result (λ m. IsMade O.meaning (O.effect task.now.object.now) (O.meaning before.now) m × (seen_call m.call ≡ seen_call call.entry)) }
{
    if let Some(made) = made {
        if is_same_call(made.call, call) {
            return Ok(made);
        }
    }
    let (state, reply) = task.object.apply(task.alloc, before, call)?;
    Ok(Made { call, state, reply })
}

/// The next call of a process, and its end, where it has ended and may be taken.
pub(crate) fn ended_call<'a, O: Object>(
    task: &Task<'_, 'a, O>,
    here: &Here<O::State>,
    process: usize,
) -> Option<(Begun<'a>, Ended<'a>)>
    ensures { IfSome result (λ call. MayBeTaken task.now.rows.now here.now.found.now.counts.items here.now.limit process call.0 call.1) }
{
    let limit = here.limit;
    let place = *here.found.counts.get(process)? as usize;
    let end = task.rows.ended_at(process, place)?;
    let begun = task.rows.begun_at(process, place)?;
    if begun.place >= limit {
        return None;
    }
    Some((begun, end))
}

/// Looks for a silent call that may be taken.
pub(crate) fn any_silent_step<'a, O: Object>(
    task: &Task<'_, 'a, O>,
    here: &Here<O::State>,
) -> Result<Silent<O::State>, NoMemory>
    ensures silent { (history : List (AnyEvent ObjectCall Reply)) → IsAt history task.now.rows.now here.now
        → IfOk result (IsSilentFound (O.effect task.now.object.now) history O.meaning (found_in O.meaning here.now.found.now)) }
    ensures within { IfOk result (IsOfFirst (length here.now.found.now.counts.items)) }
{
    let mut made = None;
    if here.limit > task.hints.until {
        return Ok(Silent::Never);
    }
    let counts = here.found.counts.as_slice();
    let mut from = 0;
    for _ in 0..counts.len() {
        let process = task.hints.first(counts, from, Wanted::Quiet(here.limit));
        if process >= counts.len() {
            return Ok(Silent::Never);
        }
        from = process + 1;
        let Some((begun, end)) = ended_call(task, here, process) else {
            continue;
        };
        if !task.object.is_silent(begun.call, end.reply) {
            continue;
        }
        let now = made_by(task, &here.found.state, begun.call, made.take())?;
        if is_same_reply(&now.reply, end.reply) {
            return Ok(Silent::Step(process, now.state));
        }
        made = Some(now);
    }
    Ok(Silent::Never)
}
