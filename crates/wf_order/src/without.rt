//! Which open calls need not be tried, since what may come behind them comes without them too.

ghost use Rattle.std.specs.Prelude.{◌≡◌, ◌<◌, ℕ, List, length, IfOk, IsTrue, MatchOption, OnOk};
ghost use Rattle.ob_interface.specs.Call.{ObjectCall, Reply};
ghost use Rattle.wf_history.specs.History.{Event};
ghost use Rattle.wf_order.specs.MadeCalls.{AreMade};
ghost use Rattle.wf_order.specs.Rules.{AreIdle, IsAlike};
ghost use Rattle.wf_order.specs.Search.{found_in, IsAt, IsNextStep, IsWorded};

use crate::made_calls::{MadeCalls, Question, leads_alike, outcome};
use crate::searched_object::Object;
use crate::seen::Found;
use crate::step::{Here, Task, one_more};
use ob_interface::NoMemory;

/// Whether the next call of a process, where it may come behind an open call of another one that leads to this state, leads to the
/// same state without that, or is open too, and leaves the state as it is.
fn is_alike<'a, O: Object>(
    task: &Task<'_, 'a, O>,
    here: &Here<O::State>,
    behind: &Found<O::State>,
    process: usize,
    calls: &mut MadeCalls<'a, O::State>,
) -> Result<bool, NoMemory>
    requires worded { IsWorded O.meaning O.words_of here.now.found.now }
    requires behind { IsWorded O.meaning O.words_of behind.now }
    requires made { AreMade O.meaning O.words_of (O.effect task.now.object.now) calls.old }
    ensures made { OnOk result (AreMade O.meaning O.words_of (O.effect task.now.object.now) calls.new) }
    ensures alike { (history : List (Event ObjectCall Reply)) (by : ℕ) → IsAt history task.now.rows.now here.now
        → IfOk result (λ alike. IsTrue alike → IsAlike (O.effect task.now.object.now) history (found_in O.meaning here.now.found.now) by (O.meaning behind.now.state) process) }
{
    let Some(taken) = here.found.counts.get(process) else {
        return Ok(false);
    };
    let place = *taken as usize;
    let Some(begun) = task.rows.begun_at(process, place) else {
        return Ok(true);
    };
    if begun.place >= here.limit {
        return Ok(true);
    }
    let known = task.rows.reply_at(process, place);
    if known.is_none() {
        if task.object.is_reader(begun.call) {
            return Ok(true);
        }
    }
    let question = Question {
        call: begun.call,
        known,
    };
    if let Some(alike) = leads_alike(task, here.found, behind, question, calls)? {
        return Ok(alike);
    }
    let Some(after) = outcome(task, behind, begun.call, known, calls)? else {
        return Ok(true);
    };
    let Some(other) = outcome(task, here.found, begun.call, known, calls)? else {
        return Ok(false);
    };
    task.object.is_same(task.alloc, &other, &after)
}

/// The same of the next calls of all other processes.
fn are_all_alike<'a, O: Object>(
    task: &Task<'_, 'a, O>,
    here: &Here<O::State>,
    by: usize,
    behind: &Found<O::State>,
    calls: &mut MadeCalls<'a, O::State>,
) -> Result<bool, NoMemory>
    requires worded { IsWorded O.meaning O.words_of here.now.found.now }
    requires behind { IsWorded O.meaning O.words_of behind.now }
    requires made { AreMade O.meaning O.words_of (O.effect task.now.object.now) calls.old }
    ensures made { OnOk result (AreMade O.meaning O.words_of (O.effect task.now.object.now) calls.new) }
    ensures alike { (history : List (Event ObjectCall Reply)) → IsAt history task.now.rows.now here.now
        → IfOk result (λ alike. IsTrue alike → (process : ℕ) → process < length here.now.found.now.counts.items
        → IsAlike (O.effect task.now.object.now) history (found_in O.meaning here.now.found.now) by (O.meaning behind.now.state) process) }
{
    for process in 0..here.found.counts.len() {
        if process == by {
            continue;
        }
        if !is_alike(task, here, behind, process, calls)? {
            return Ok(false);
        }
    }
    Ok(true)
}

/// The state that the next call of a process leads to; nothing where it never ends, leads to a configuration that was not found in a hard search,
/// and need not be tried, since what may come behind it comes without it too. It stands apart, since most calls end.
#[inline(never)]
pub(crate) fn unless_left_out<'a, O: Object>(
    task: &Task<'_, 'a, O>,
    here: &Here<O::State>,
    process: usize,
    state: O::State,
    calls: &mut MadeCalls<'a, O::State>,
) -> Result<Option<O::State>, NoMemory>
    requires step { (history : List (Event ObjectCall Reply)) → IsAt history task.now.rows.now here.now
        → IsNextStep (O.effect task.now.object.now) history (found_in O.meaning here.now.found.now) process (O.meaning state) }
    requires worded { IsWorded O.meaning O.words_of here.now.found.now }
    requires made { AreMade O.meaning O.words_of (O.effect task.now.object.now) calls.old }
    ensures made { OnOk result (AreMade O.meaning O.words_of (O.effect task.now.object.now) calls.new) }
    ensures left_out { (history : List (Event ObjectCall Reply)) → IsAt history task.now.rows.now here.now
        → IfOk result (λ o. MatchOption o (AreIdle (O.effect task.now.object.now) history (found_in O.meaning here.now.found.now) process)
        (λ same. IsNextStep (O.effect task.now.object.now) history (found_in O.meaning here.now.found.now) process (O.meaning same))) }
{
    let Some(seen) = here.hard else {
        return Ok(Some(state));
    };
    let Some(taken) = here.found.counts.get(process) else {
        return Ok(Some(state));
    };
    let place = *taken as usize;
    let None = task.rows.ended_at(process, place) else {
        return Ok(Some(state));
    };
    let (_id, there) = one_more(task, &here.found.counts, process, state)?;
    if seen.contains(&there) {
        return Ok(Some(there.state));
    }
    if are_all_alike(task, here, process, &there, calls)? {
        return Ok(None);
    }
    Ok(Some(there.state))
}
