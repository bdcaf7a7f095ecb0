//! Calls that only read, passed over: such a call comes as soon as it may be taken with its reply, and what lies before it is not kept.

ghost use Rattle.std.specs.Prelude.{ℕ, List, length, map, IfOk, IfSome, OnOk};
ghost use Rattle.ob_interface.specs.Call.{ObjectCall, Reply};
ghost use Rattle.wf_history.specs.History.{Event};
ghost use Rattle.wf_history.specs.View.{event_of};
ghost use Rattle.wf_order.specs.MadeCalls.{AreMade};
ghost use Rattle.wf_order.specs.Rows.{AreRows};
ghost use Rattle.wf_order.specs.Search.{found_in, HasNext, IsAt, IsPassed, IsReadingNext, IsWorded};
ghost use Rattle.wf_order.specs.Steps.{IsLimit};

use crate::hints::Wanted;
use crate::made_calls::{MadeCalls, replies_so};
use crate::rows::next_limit;
use crate::search::Frame;
use crate::searched_object::Object;
use crate::seen::Found;
use crate::step::{Here, Task, ended_call, take_next};
use ob_interface::NoMemory;
use wf_history::CallId;

/// The first process, of this one and those behind it, whose next call only reads, and may be taken with its reply.
fn reader_at<'a, O: Object>(
    task: &Task<'_, 'a, O>,
    here: &Here<O::State>,
    from: usize,
    calls: &mut MadeCalls<'a, O::State>,
) -> Result<Option<usize>, NoMemory>
    requires worded { IsWorded O.meaning O.words_of here.now.found.now }
    requires made { AreMade O.meaning O.words_of (O.effect task.now.object.now) calls.old }
    ensures made { OnOk result (AreMade O.meaning O.words_of (O.effect task.now.object.now) calls.new) }
    ensures next { IfOk result (λ o. IfSome o (HasNext task.now.rows.now here.now.found.now.counts.items)) }
    ensures reads { (history : List (Event ObjectCall Reply)) → IsAt history task.now.rows.now here.now
        → IfOk result (λ o. IfSome o (IsReadingNext (O.effect task.now.object.now) history (found_in O.meaning here.now.found.now))) }
{
    let counts = here.found.counts.as_slice();
    let mut from = from;
    for _ in 0..counts.len() {
        let process = task.hints.first(counts, from, Wanted::Quiet(here.limit));
        if process >= counts.len() {
            return Ok(None);
        }
        from = process + 1;
        let Some((begun, end)) = ended_call(task, here, process) else {
            continue;
        };
        if !task.object.is_reader(begun.call) {
            continue;
        }
        let reads = replies_so(task, here.found, begun.call, end.reply, calls)?;
        if reads {
            return Ok(Some(process));
        }
    }
    Ok(None)
}

/// Moves a configuration on by all calls that only read and may be taken with their replies, and gives the limit behind them. The frame is that of
/// the step that led there, with the limit behind it. For each of those calls there is one more on the stack, from which nothing is to be tried.
pub(crate) fn passed<'a, O: Object>(
    task: &Task<'_, 'a, O>,
    stack: &mut Vec<Frame>,
    frame: Frame,
    there: &mut Found<O::State>,
    calls: &mut MadeCalls<'a, O::State>,
) -> Result<usize, NoMemory>
    requires rows { (processes : ℕ) × AreRows (map event_of task.now.events.now) processes task.now.rows.now }
    requires worded { IsWorded O.meaning O.words_of there.old }
    requires made { AreMade O.meaning O.words_of (O.effect task.now.object.now) calls.old }
    ensures made { OnOk result (AreMade O.meaning O.words_of (O.effect task.now.object.now) calls.new) }
    ensures passed { (history : List (Event ObjectCall Reply)) → AreRows history (length there.old.counts.items) task.now.rows.now → IsLimit history there.old.counts.items frame.limit
        → OnOk result (IsPassed (O.effect task.now.object.now) history frame.place (found_in O.meaning there.old) (found_in O.meaning there.new) stack.old.items stack.new.items) }
    ensures limit { (history : List (Event ObjectCall Reply)) → AreRows history (length there.old.counts.items) task.now.rows.now → IsLimit history there.old.counts.items frame.limit
        → IfOk result (λ to. IsLimit history there.new.counts.items to) }
    ensures worded { OnOk result (IsWorded O.meaning O.words_of there.new) }
{
    let mut from = 0;
    let mut limit = frame.limit;
    while let Some(process) = reader_at(
        task,
        &Here {
            found: &*there,
            limit,
            hard: None,
        },
        from,
        calls,
    )? {
        let number = take_next(&mut there.counts, process)?;
        let id = CallId {
            process,
            number: number as u64,
        };
        stack.push(Frame {
            place: frame.place,
            next: task.rows.events,
            id,
            limit,
        })?;
        let next = next_limit(task.events, &there.counts, limit);
        // Where no more calls may be taken than before, those of the processes before this one were asked.
        from = (next <= limit).then_some(process).unwrap_or(0);
        limit = next;
    }
    Ok(limit)
}
