//! Which configurations need not be gone on from, since one that was found stands for them. Two writes come one behind the other, and nobody reads the
//! first: then it comes as well behind the second, if what may come next doesn't ask which of both was the last one.

ghost use Rattle.std.specs.Prelude.{◌≡◌, ◌<◌, ℕ, List, length, IfOk, IfSome, OnOk, IsTrue, slice_get, slice_set};
ghost use Rattle.ob_interface.specs.Call.{ObjectCall, Reply};
ghost use Rattle.wf_history.specs.History.{Event};
ghost use Rattle.wf_order.specs.MadeCalls.{AreMade};
ghost use Rattle.wf_order.specs.Rows.{AreRows};
ghost use Rattle.wf_order.specs.Rules.{AreSo, IsStoodFor};
ghost use Rattle.wf_order.specs.Search.{found_in, all_found, AreWorded, IsAt, IsBeforePlace, IsWorded};
ghost use Rattle.wf_order.specs.Steps.{Configuration, IsLimit};

use crate::made_calls::{MadeCalls, does_so, replies_so};
use crate::next_call::next_of;
use crate::rows::limit_of;
use crate::searched_object::Object;
use crate::seen::{Counts, Found, Seen};
use crate::step::{Here, Task, one_more, step_by};
use ob_interface::NoMemory;

/// A way to a configuration with this limit: from the one at this place, to which the last step was by a call of this process.
#[derive(Drop)]
pub(crate) struct Way {
    pub place: usize,
    pub limit: usize,
    pub process: Option<usize>,
}

/// So many calls of a process.
fn set_count(counts: &mut Counts, process: usize, count: u32)
    ensures { counts.new.items ≡ slice_set counts.old.items process count }
{
    if let Some(taken) = counts.get_mut(process) {
        *taken = count;
    }
}

/// The configuration that takes one call of a process less, and has the same state, if it stands before a place among what was found. It is looked up
/// with the count changed in place, which is put back.
fn found_before<'s, O: Object>(
    task: &Task<O>,
    seen: &'s Seen<O::State>,
    place: usize,
    there: &mut Found<O::State>,
    process: usize,
) -> Option<&'s Found<O::State>>
    ensures found { IfSome result (λ first. IsBeforePlace seen.now.keys place first.now) }
    ensures same { found_in O.meaning there.new ≡ found_in O.meaning there.old }
    ensures words { IsWorded O.meaning O.words_of there.old → IsWorded O.meaning O.words_of there.new }
{
    let Some(count) = there.counts.get(process) else {
        return None;
    };
    let taken = *count;
    let less = taken.checked_sub(1)?;
    // A call that only reads has come as soon as it might.
    let begun = task.rows.begun_at(process, less as usize)?;
    if task.object.is_reader(begun.call) {
        return None;
    }
    set_count(&mut there.counts, process, less);
    let found = seen.get_full(&*there);
    set_count(&mut there.counts, process, taken);
    let (at, first) = found?;
    if at >= place {
        return None;
    }
    Some(first)
}

/// Whether the next call of a process does on another configuration's state what it does here, if it may come; or it only reads, and has another
/// reply here or does not end.
fn comes_so<'a, O: Object>(
    task: &Task<'_, 'a, O>,
    here: &Here<O::State>,
    before: &Found<O::State>,
    process: usize,
    calls: &mut MadeCalls<'a, O::State>,
) -> Result<bool, NoMemory>
    requires worded { IsWorded O.meaning O.words_of here.now.found.now }
    requires before { IsWorded O.meaning O.words_of before.now }
    requires made { AreMade O.meaning O.words_of (O.effect task.now.object.now) calls.old }
    ensures made { OnOk result (AreMade O.meaning O.words_of (O.effect task.now.object.now) calls.new) }
    ensures so { (history : List (Event ObjectCall Reply)) → IsAt history task.now.rows.now here.now
        → IfOk result (λ so. IsTrue so → AreSo (O.effect task.now.object.now) history (found_in O.meaning here.now.found.now) (O.meaning before.now.state) process) }
{
    let Some(taken) = here.found.counts.get(process) else {
        return Ok(false);
    };
    let place = *taken as usize;
    let Some(begun) = task.rows.begun_at(process, place) else {
        return Ok(true);
    };
    if begun.place >= here.limit {
        return Ok(true);
    }
    if !task.object.is_reader(begun.call) {
        return does_so(task, before, here.found, begun.call, calls);
    }
    let Some(reply) = task.rows.reply_at(process, place) else {
        return Ok(true);
    };
    let so = replies_so(task, here.found, begun.call, reply, calls)?;
    Ok(!so)
}

/// The same of the next calls of all processes.
fn are_all_so<'a, O: Object>(
    task: &Task<'_, 'a, O>,
    here: &Here<O::State>,
    before: &Found<O::State>,
    calls: &mut MadeCalls<'a, O::State>,
) -> Result<bool, NoMemory>
    requires worded { IsWorded O.meaning O.words_of here.now.found.now }
    requires before { IsWorded O.meaning O.words_of before.now }
    requires made { AreMade O.meaning O.words_of (O.effect task.now.object.now) calls.old }
    ensures made { OnOk result (AreMade O.meaning O.words_of (O.effect task.now.object.now) calls.new) }
    ensures so { (history : List (Event ObjectCall Reply)) → IsAt history task.now.rows.now here.now
        → IfOk result (λ so. IsTrue so → (process : ℕ) → process < length here.now.found.now.counts.items
        → AreSo (O.effect task.now.object.now) history (found_in O.meaning here.now.found.now) (O.meaning before.now.state) process) }
{
    for process in 0..here.found.counts.len() {
        if !comes_so(task, here, before, process, calls)? {
            return Ok(false);
        }
    }
    Ok(true)
}

/// A configuration with its limit.
fn here_at<'f, S>(found: &'f Found<S>, limit: usize) -> Here<'f, S>
    ensures { (result.found.now ≡ found.now) × (result.limit ≡ limit) }
{
    Here {
        found,
        limit,
        hard: None,
    }
}

/// Whether a configuration that was found before stands for the one to which a way leads: the call that was the last one before comes behind it.
pub(crate) fn is_stood_for<'a, O: Object>(
    task: &Task<'_, 'a, O>,
    seen: &Seen<O::State>,
    way: &Way,
    there: &mut Found<O::State>,
    calls: &mut MadeCalls<'a, O::State>,
) -> Result<bool, NoMemory>
    requires all_worded { AreWorded O.meaning O.words_of seen.now }
    requires worded { IsWorded O.meaning O.words_of there.old }
    requires made { AreMade O.meaning O.words_of (O.effect task.now.object.now) calls.old }
    ensures made { OnOk result (AreMade O.meaning O.words_of (O.effect task.now.object.now) calls.new) }
    ensures same { OnOk result (found_in O.meaning there.new ≡ found_in O.meaning there.old) }
    ensures worded { OnOk result (IsWorded O.meaning O.words_of there.new) }
    ensures stands { (history : List (Event ObjectCall Reply)) (from : Configuration O.Meaning) → AreRows history (length there.old.counts.items) task.now.rows.now
        → IsLimit history there.old.counts.items way.now.limit → slice_get (all_found O.meaning seen.now) way.now.place ≡ Some from
        → IfOk result (λ stands. IsTrue stands → IsStoodFor (O.effect task.now.object.now) history (all_found O.meaning seen.now) from (found_in O.meaning there.old)) }
{
    let Some(process) = way.process else {
        return Ok(false);
    };
    // No two that were found are the same.
    if way.place >= seen.len() {
        return Ok(false);
    }
    let Some(first) = found_before(task, seen, way.place, there, process) else {
        return Ok(false);
    };
    let Some(next) = next_of(task.rows, &first.counts, process) else {
        return Ok(false);
    };
    let before = here_at(first, limit_of(task.rows, &first.counts));
    let Some(state) = step_by(task, &before, &next, calls)? else {
        return Ok(false);
    };
    let (_id, last) = one_more(task, &first.counts, process, state)?;
    if last.counts.as_slice() != there.counts.as_slice() {
        return Ok(false);
    }
    are_all_so(task, &here_at(&*there, way.limit), &last, calls)
}
