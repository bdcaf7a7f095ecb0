//! What is tried next from a configuration.

ghost use Rattle.std.specs.Prelude.{◌≡◌, ◌<◌, ◌≤◌, ◌+◌, ℕ, List, length, IfOk, IfSome, IsTrue, MatchOption, OnOk};
ghost use Rattle.ob_interface.specs.Call.{ObjectCall, Reply};
ghost use Rattle.wf_history.specs.History.{Event};
ghost use Rattle.wf_order.specs.MadeCalls.{AreMade};
ghost use Rattle.wf_order.specs.Search.{found_in, AreAllAnswered, AreAnswered, AreCovered, HasNoStep, IsAt, IsChoice, IsNextStep, IsTry, IsWorded};
ghost use Rattle.wf_order.specs.Steps.{Configuration};
ghost use Rattle.wf_order.specs.Turns.{IsNextOf, ReachFrom};

use crate::behind::is_behind;
use crate::made_calls::{MadeCalls, replies_otherwise, replies_so};
use crate::next_call::{Next, Turn, first_turn, next_of, turns_from};
use crate::searched_object::Object;
use crate::sooner::{Spot, is_sooner};
use crate::step::{Here, Silent, Task, any_silent_step, step_by};
use crate::without::unless_left_out;
use ob_interface::NoMemory;
use smallvec::SmallVec;
use wf_history::SeenReply;

/// A process whose next call is tried, the state that it leads to, and the place behind its begin.
#[derive(Drop)]
pub(crate) struct Attempt<S> {
    pub next: usize,
    pub process: usize,
    pub state: S,
}

/// Whether a next call that is silent has another reply here than in the history.
fn is_unfit<'a, O: Object>(
    task: &Task<'_, 'a, O>,
    here: &Here<O::State>,
    next: &Next<'a>,
    calls: &mut MadeCalls<'a, O::State>,
) -> Result<bool, NoMemory>
    requires next { IsNextOf task.now.rows.now here.now.found.now.counts.items next.now }
    requires worded { IsWorded O.meaning O.words_of here.now.found.now }
    requires made { AreMade O.meaning O.words_of (O.effect task.now.object.now) calls.old }
    ensures made { OnOk result (AreMade O.meaning O.words_of (O.effect task.now.object.now) calls.new) }
    ensures unfit { (history : List (Event ObjectCall Reply)) → IsAt history task.now.rows.now here.now
        → IfOk result (λ unfit. IsTrue unfit → HasNoStep (O.effect task.now.object.now) history (found_in O.meaning here.now.found.now) next.now.process) }
{
    let Some(end) = next.ended else {
        return Ok(false);
    };
    let call = next.begun.call;
    if !task.object.is_silent(call, end.reply) {
        return Ok(false);
    }
    let so = replies_so(task, here.found, call, end.reply, calls)?;
    if so {
        return Ok(false);
    }
    Ok(true)
}

/// Whether a next call ends with values, so that its reply mostly fits in few states.
fn ends_with_values(next: &Next) -> bool {
    let Some(end) = next.ended else {
        return false;
    };
    match end.reply {
        SeenReply::Done(values) => !values.lent().as_slice().is_empty(),
        SeenReply::Trap(_) => false,
    }
}

/// The state that a next call leads to, where it is to be tried. In a hard search it looks closer at open calls.
fn tried<'a, O: Object>(
    task: &Task<'_, 'a, O>,
    here: &Here<O::State>,
    next: &Next<'a>,
    calls: &mut MadeCalls<'a, O::State>,
) -> Result<Option<O::State>, NoMemory>
    requires next { IsNextOf task.now.rows.now here.now.found.now.counts.items next.now }
    requires worded { IsWorded O.meaning O.words_of here.now.found.now }
    requires made { AreMade O.meaning O.words_of (O.effect task.now.object.now) calls.old }
    ensures made { OnOk result (AreMade O.meaning O.words_of (O.effect task.now.object.now) calls.new) }
    ensures tried { (history : List (Event ObjectCall Reply)) (found : List (Configuration O.Meaning)) → IsAt history task.now.rows.now here.now
        → IfOk result (λ o. MatchOption o (AreAnswered (O.effect task.now.object.now) history found (found_in O.meaning here.now.found.now) next.now.process)
        (λ state. IsNextStep (O.effect task.now.object.now) history (found_in O.meaning here.now.found.now) next.now.process (O.meaning state))) }
{
    if is_unfit(task, here, next, calls)? {
        return Ok(None);
    }
    // What never ends, and leaves each state as it is, need not be tried.
    if next.ended.is_none() {
        if task.object.is_reader(next.begun.call) {
            return Ok(None);
        }
    }
    // Where its values mostly don't fit, no equal call is looked for before that is known.
    let fits_rarely = ends_with_values(next);
    if !fits_rarely {
        if is_behind(task, here, next, calls)? {
            return Ok(None);
        }
    }
    let Some(state) = step_by(task, here, next, calls)? else {
        return Ok(None);
    };
    if fits_rarely {
        if is_behind(task, here, next, calls)? {
            return Ok(None);
        }
    }
    // What has ended is never left out.
    if next.ended.is_some() {
        return Ok(Some(state));
    }
    unless_left_out(task, here, next.process, state, calls)
}

/// Whether a next call need not be tried beside another one that is: it is equal and ends later, or is known to have another reply here.
fn is_dropped<O: Object>(
    task: &Task<O>,
    here: &Here<O::State>,
    tried: &Next,
    next: &Next,
    calls: &MadeCalls<O::State>,
) -> bool
    requires next { IsNextOf task.now.rows.now here.now.found.now.counts.items next.now }
    requires worded { IsWorded O.meaning O.words_of here.now.found.now }
    requires made { AreMade O.meaning O.words_of (O.effect task.now.object.now) calls.now }
    ensures { (history : List (Event ObjectCall Reply)) (found : List (Configuration O.Meaning)) → IsAt history task.now.rows.now here.now → IsTrue result
        → AreAnswered (O.effect task.now.object.now) history found (found_in O.meaning here.now.found.now) next.now.process }
{
    let Some(end) = next.ended else {
        return false;
    };
    let process = tried.process;
    let Some(count) = here.found.counts.get(process) else {
        return false;
    };
    let place = *count as usize;
    let taken = here.found.counts.get(next.process).copied().unwrap_or(0);
    // Equal calls with the same reply look alike.
    if let Some(own) = task.hints.at(next.process, taken as usize)
        && let Some(hint) = task.hints.at(process, place)
        && hint.looks == own.looks
    {
        let first = Spot { process, place };
        if is_sooner(task.rows, here.limit, first, next.begun, end) {
            return true;
        }
    }
    // Of a reply without values it is mostly known that it fits.
    if !ends_with_values(next) {
        return false;
    }
    replies_otherwise(task, here.found, next.begun.call, end.reply, calls)
}

/// Where another call is tried: of the turns behind it, the place of the first one that is still to be tried then. Where there is none, the number of
/// events.
fn next_place<O: Object>(
    task: &Task<O>,
    here: &Here<O::State>,
    turns: &[Turn],
    tried: &Next,
    calls: &MadeCalls<O::State>,
) -> usize
    requires turns { ReachFrom task.now.rows.now here.now.found.now.counts.items tried.now.begun.place here.now.limit turns.now }
    requires early { tried.now.begun.place < here.now.limit }
    requires worded { IsWorded O.meaning O.words_of here.now.found.now }
    requires made { AreMade O.meaning O.words_of (O.effect task.now.object.now) calls.now }
    ensures { (history : List (Event ObjectCall Reply)) (found : List (Configuration O.Meaning)) → IsAt history task.now.rows.now here.now
        → AreCovered (O.effect task.now.object.now) history found (found_in O.meaning here.now.found.now) (tried.now.begun.place + 1) result × (tried.now.begun.place < result) }
{
    let mut first = task.rows.events;
    for turn in turns {
        if turn.place <= tried.begun.place || turn.place >= first {
            continue;
        }
        let Some(next) = next_of(task.rows, &here.found.counts, turn.process) else {
            return tried.begun.place + 1;
        };
        if is_dropped(task, here, tried, &next, calls) {
            continue;
        }
        first = turn.place;
    }
    first
}

/// What is tried next, of the calls that begin at a place or behind it.
fn next_attempt<'a, O: Object>(
    task: &Task<'_, 'a, O>,
    here: &Here<O::State>,
    from: usize,
    calls: &mut MadeCalls<'a, O::State>,
) -> Result<Option<Attempt<O::State>>, NoMemory>
    requires worded { IsWorded O.meaning O.words_of here.now.found.now }
    requires made { AreMade O.meaning O.words_of (O.effect task.now.object.now) calls.old }
    ensures made { OnOk result (AreMade O.meaning O.words_of (O.effect task.now.object.now) calls.new) }
    ensures next { (history : List (Event ObjectCall Reply)) (found : List (Configuration O.Meaning)) → IsAt history task.now.rows.now here.now
        → IfOk result (λ o. MatchOption o (AreAllAnswered (O.effect task.now.object.now) history found (found_in O.meaning here.now.found.now) from)
        (λ a. IsTry (O.effect task.now.object.now) history task.now.rows.now found (found_in O.meaning here.now.found.now) from a.next a.process (O.meaning a.state))) }
    ensures within { IfOk result (λ o. IfSome o (λ a. a.process < length here.now.found.now.counts.items)) }
{
    let limit = here.limit;
    let mut turns = SmallVec::new(task.alloc);
    turns_from(&mut turns, task.rows, &here.found.counts, from, limit)?;
    let mut start = from;
    while start < limit {
        let turn = first_turn(turns.as_slice(), start, limit);
        if turn.place >= limit {
            return Ok(None);
        }
        let Some(call) = next_of(task.rows, &here.found.counts, turn.process) else {
            unreachable!()
        };
        match tried(task, here, &call, calls)? {
            Some(state) => {
                return Ok(Some(Attempt {
                    next: next_place(task, here, turns.as_slice(), &call, calls),
                    process: turn.process,
                    state,
                }));
            }
            None => start = turn.place + 1,
        }
    }
    Ok(None)
}

/// What is tried next from a configuration: at first a silent call, where one may be taken, and then nothing else; and else a call that
/// begins at a place or behind it.
pub(crate) fn chosen<'a, O: Object>(
    task: &Task<'_, 'a, O>,
    here: &Here<O::State>,
    from: usize,
    calls: &mut MadeCalls<'a, O::State>,
) -> Result<Option<Attempt<O::State>>, NoMemory>
    requires worded { IsWorded O.meaning O.words_of here.now.found.now }
    requires made { AreMade O.meaning O.words_of (O.effect task.now.object.now) calls.old }
    ensures made { OnOk result (AreMade O.meaning O.words_of (O.effect task.now.object.now) calls.new) }
    ensures chosen { (history : List (Event ObjectCall Reply)) (found : List (Configuration O.Meaning)) → IsAt history task.now.rows.now here.now
        → IfOk result (λ o. MatchOption o (AreAllAnswered (O.effect task.now.object.now) history found (found_in O.meaning here.now.found.now) from)
        (λ a. IsChoice (O.effect task.now.object.now) history task.now.rows.now found (found_in O.meaning here.now.found.now) from here.now.limit a.next a.process (O.meaning a.state))) }
    ensures within { IfOk result (λ o. IfSome o (λ a. a.process < length here.now.found.now.counts.items)) }
{
    if from > 0 {
        return next_attempt(task, here, from, calls);
    }
    match any_silent_step(task, here)? {
        Silent::Step(process, state) => Ok(Some(Attempt {
            next: here.limit,
            process,
            state,
        })),
        Silent::Never => next_attempt(task, here, from, calls),
    }
}
