//! Calls that were made, so that few are made twice.

ghost use Rattle.std.specs.Prelude.{◌≡◌, ◌↔◌, ◌<◌, ℕ, Some, None, get_or, replicate, IfOk, IfSome, OnOk, IsTrue, option_copied, option_map};
ghost use Rattle.ob_interface.specs.Call.{ObjectCall};
ghost use Rattle.ob_interface.specs.View.{reply_of};
ghost use Rattle.wf_history.specs.View.{seen_call, seen_reply};
ghost use Rattle.wf_order.specs.MadeCalls.{AreMade, HasMade, IsAsked, IsOtherwise, IsToldAt, StandsAt};
ghost use Rattle.wf_order.specs.Rules.{DoesSo, IsOutcome, IsSameOutcome, RepliesAlike};
ghost use Rattle.wf_order.specs.Search.{IsWorded};

use crate::searched_object::{Object, Words};
use crate::seen::Found;
use crate::step::Task;
use ob_interface::NoMemory;
use ob_interface::call::Reply;
use smallvec::SmallVec;
use std::alloc::{AllocError, Global};
use wf_history::{SeenCall, SeenReply};
use wf_lookup::compared_replies::{are_equal_replies, is_same_call, is_same_reply};
use wf_lookup::numbers::{SPREAD, number_of, number_of_words};

/// How many calls are remembered at most.
const ROWS: usize = 256;

/// So many calls that write are looked up in vain, beyond those that are found, before none is looked up any more.
const VAIN_CALLS: usize = 256;

/// What a call made of the state with these words, and its reply.
#[derive(Drop)]
pub(crate) struct MadeCall<'a, S> {
    pub words: Words,
    pub call: SeenCall<'a>,
    pub state: S,
    pub reply: Reply,
}

/// Calls that were made. Each is found by the row of its state and call, where it stands until another one comes there.
#[derive(Drop)]
pub(crate) struct MadeCalls<'a, S> {
    pub rows: Vec<Option<MadeCall<'a, S>>>,
    /// How many calls that write may still be looked up in vain.
    left: usize,
}

/// The row of a call on the state with these words.
#[inline(always)]
fn row_of(words: &[u64], call: SeenCall) -> usize
    ensures { result < 256 }
{
    let mut number = number_of_words(words)
        .wrapping_mul(31)
        .wrapping_add(call.proc as u64);
    // Mostly there are no arguments.
    if !call.args.is_empty() {
        for scalar in call.args.lent().as_slice() {
            number = number.wrapping_mul(31).wrapping_add(number_of(*scalar));
        }
    }
    (number.wrapping_mul(SPREAD) >> 56) as usize % ROWS
}

/// No call was made.
pub(crate) fn no_calls<'a, S: Drop>(alloc: Global) -> Result<MadeCalls<'a, S>, AllocError>
    ensures { IfOk result (λ calls. calls.rows.items ≡ replicate 256 None) }
{
    let mut rows = Vec::with_capacity(alloc, ROWS)?;
    for _ in 0..ROWS {
        rows.push(None)?;
    }
    Ok(MadeCalls {
        rows,
        left: VAIN_CALLS,
    })
}

/// What stands at a row.
fn made_at<'c, 'a, S>(calls: &'c MadeCalls<'a, S>, row: usize) -> Option<&'c MadeCall<'a, S>>
    ensures { option_copied result ≡ get_or calls.now.rows.items row None }
{
    match calls.rows.get(row) {
        Some(Some(made)) => Some(made),
        _ => None,
    }
}

/// Whether these are the words of a state. Mostly there is one.
#[inline(always)]
fn are_words(words: &[u64], others: &[u64]) -> bool
    ensures { IsTrue result → words.now ≡ others.now }
{
    match (words, others) {
        ([word], [other]) => word == other,
        _ => words == others,
    }
}

/// What stands at a row, if it is this call on the state with these words.
#[inline(always)]
fn found_at<'c, 'a, S>(
    calls: &'c MadeCalls<'a, S>,
    row: usize,
    words: &[u64],
    call: SeenCall,
) -> Option<&'c MadeCall<'a, S>>
    ensures { IfSome result (λ made. StandsAt calls.now row words.now (seen_call call.entry) made.now) }
{
    let made = made_at(calls, row)?;
    if !are_words(made.words.as_slice(), words) {
        return None;
    }
    if !is_same_call(made.call, call) {
        return None;
    }
    Some(made)
}

/// A call on a configuration's state, if it was made and is remembered.
#[inline(always)]
fn remembered<'c, 'a, S>(
    found: &Found<S>,
    call: SeenCall,
    calls: &'c MadeCalls<'a, S>,
) -> Option<&'c MadeCall<'a, S>>
    ensures { IfSome result (λ made. (row : ℕ) × StandsAt calls.now row found.now.words.items (seen_call call.entry) made.now) }
{
    let words = found.words.as_slice();
    found_at(calls, row_of(words, call), words, call)
}

/// The row at which a call on a configuration's state stands, which is made where it wasn't; and whether it was.
fn row_with<'a, O: Object>(
    task: &Task<'_, 'a, O>,
    found: &Found<O::State>,
    call: SeenCall<'a>,
    calls: &mut MadeCalls<'a, O::State>,
) -> Result<(usize, bool), NoMemory>
    requires worded { IsWorded O.meaning O.words_of found.now }
    requires made { AreMade O.meaning O.words_of (O.effect task.now.object.now) calls.old }
    ensures made { OnOk result (AreMade O.meaning O.words_of (O.effect task.now.object.now) calls.new) }
    ensures there { IfOk result (λ r. HasMade O.meaning O.words_of (O.effect task.now.object.now) calls.new r.0 (seen_call call.entry) (O.meaning found.now.state)) }
{
    let words = found.words.as_slice();
    let row = row_of(words, call);
    if let Some(_made) = found_at(calls, row, words, call) {
        return Ok((row, true));
    }
    make_at(task, found, call, row, calls)?;
    Ok((row, false))
}

/// Makes a call on a configuration's state, and has it stand at a row. It stands apart, so that a call that was made takes no room for it.
#[inline(never)]
fn make_at<'a, O: Object>(
    task: &Task<'_, 'a, O>,
    found: &Found<O::State>,
    call: SeenCall<'a>,
    row: usize,
    calls: &mut MadeCalls<'a, O::State>,
) -> Result<(), NoMemory>
    requires within { row < 256 }
    requires worded { IsWorded O.meaning O.words_of found.now }
    requires made { AreMade O.meaning O.words_of (O.effect task.now.object.now) calls.old }
    ensures made { OnOk result (AreMade O.meaning O.words_of (O.effect task.now.object.now) calls.new) }
    ensures there { OnOk result (HasMade O.meaning O.words_of (O.effect task.now.object.now) calls.new row (seen_call call.entry) (O.meaning found.now.state)) }
{
    let (state, reply) = task.object.apply(task.alloc, &found.state, call)?;
    let words = SmallVec::from_slice(task.alloc, found.words.as_slice())?;
    let made = MadeCall {
        words,
        call,
        state,
        reply,
    };
    calls.rows[row] = Some(made);
    Ok(())
}

/// Whether a call has this reply in a configuration's state.
pub(crate) fn replies_so<'a, O: Object>(
    task: &Task<'_, 'a, O>,
    found: &Found<O::State>,
    call: SeenCall<'a>,
    reply: SeenReply,
    calls: &mut MadeCalls<'a, O::State>,
) -> Result<bool, NoMemory>
    requires worded { IsWorded O.meaning O.words_of found.now }
    requires made { AreMade O.meaning O.words_of (O.effect task.now.object.now) calls.old }
    ensures made { OnOk result (AreMade O.meaning O.words_of (O.effect task.now.object.now) calls.new) }
    ensures so { IfOk result (IsAsked (O.effect task.now.object.now) (seen_call call.entry) (O.meaning found.now.state) (seen_reply reply.entry)) }
{
    let (row, _) = row_with(task, found, call, calls)?;
    let Some(made) = made_at(calls, row) else {
        unreachable!()
    };
    Ok(is_same_reply(&made.reply, reply))
}

/// The row of the calls of a procedure on the state with these words, where their reply depends on the state alone.
#[inline(always)]
fn told_row(words: &[u64], proc: usize) -> usize
    ensures { result < 256 }
{
    let number = number_of_words(words)
        .wrapping_mul(31)
        .wrapping_add(proc as u64);
    (number.wrapping_mul(SPREAD) >> 56) as usize % ROWS
}

/// What stands there, if it is a call of the same procedure on a configuration's state.
#[inline(always)]
fn told_at<'c, 'a, S>(
    found: &Found<S>,
    call: SeenCall,
    calls: &'c MadeCalls<'a, S>,
) -> Option<&'c MadeCall<'a, S>>
    ensures { IfSome result (λ made. IsToldAt calls.now found.now.words.items (seen_call call.entry) made.now) }
{
    let words = found.words.as_slice();
    let made = made_at(calls, told_row(words, call.proc))?;
    if !are_words(made.words.as_slice(), words) {
        return None;
    }
    if made.call.proc != call.proc {
        return None;
    }
    Some(made)
}

/// Whether a call is known to have another reply in a configuration's state.
pub(crate) fn replies_otherwise<O: Object>(
    task: &Task<O>,
    found: &Found<O::State>,
    call: SeenCall,
    reply: SeenReply,
    calls: &MadeCalls<O::State>,
) -> bool
    requires worded { IsWorded O.meaning O.words_of found.now }
    requires made { AreMade O.meaning O.words_of (O.effect task.now.object.now) calls.now }
    ensures { IsTrue result → IsOtherwise (O.effect task.now.object.now (seen_call call.entry)) (O.meaning found.now.state) (seen_reply reply.entry) }
{
    if task.object.replies_by_state(call) {
        let Some(made) = told_at(found, call, calls) else {
            return false;
        };
        if is_same_reply(&made.reply, reply) {
            return false;
        }
        return true;
    }
    let Some(made) = remembered(found, call, calls) else {
        return false;
    };
    if is_same_reply(&made.reply, reply) {
        return false;
    }
    true
}

/// What comes of a call whose reply depends on the state alone, where it is the one that is known: what another call of its procedure replied there tells
/// whether it is, and where that is remembered the call is made only if it is.
#[inline(never)]
fn outcome_by_state<'a, O: Object>(
    task: &Task<'_, 'a, O>,
    found: &Found<O::State>,
    call: SeenCall<'a>,
    known: SeenReply,
    calls: &mut MadeCalls<'a, O::State>,
) -> Result<Option<O::State>, NoMemory>
    requires alike { (other : ObjectCall) → other.export ≡ (seen_call call).export
        → RepliesAlike (O.effect task.now.object.now other) (O.effect task.now.object.now (seen_call call)) }
    requires worded { IsWorded O.meaning O.words_of found.now }
    requires made { AreMade O.meaning O.words_of (O.effect task.now.object.now) calls.old }
    ensures made { OnOk result (AreMade O.meaning O.words_of (O.effect task.now.object.now) calls.new) }
    ensures outcome { IfOk result (λ to. IsOutcome (O.effect task.now.object.now (seen_call call.entry)) (O.meaning found.now.state) (Some (seen_reply known.entry)) (option_map O.meaning to)) }
{
    if let Some(made) = told_at(found, call, calls) {
        if !is_same_reply(&made.reply, known) {
            return Ok(None);
        }
        return task
            .object
            .outcome(task.alloc, &found.state, call, Some(known));
    }
    let row = told_row(found.words.as_slice(), call.proc);
    make_at(task, found, call, row, calls)?;
    let Some(made) = made_at(calls, row) else {
        unreachable!()
    };
    if !is_same_reply(&made.reply, known) {
        return Ok(None);
    }
    Ok(Some(task.object.copy(task.alloc, &made.state)?))
}

/// What a call makes of a configuration's state, where its reply is the one that is known, if one is. Where few such calls had been made, none is
/// looked up.
pub(crate) fn outcome<'a, O: Object>(
    task: &Task<'_, 'a, O>,
    found: &Found<O::State>,
    call: SeenCall<'a>,
    known: Option<SeenReply>,
    calls: &mut MadeCalls<'a, O::State>,
) -> Result<Option<O::State>, NoMemory>
    requires worded { IsWorded O.meaning O.words_of found.now }
    requires made { AreMade O.meaning O.words_of (O.effect task.now.object.now) calls.old }
    ensures made { OnOk result (AreMade O.meaning O.words_of (O.effect task.now.object.now) calls.new) }
    ensures outcome { IfOk result (λ to. IsOutcome (O.effect task.now.object.now (seen_call call.entry)) (O.meaning found.now.state) (option_map seen_reply known.entry) (option_map O.meaning to)) }
{
    if calls.left == 0 {
        if let Some(reply) = known
            && task.object.replies_by_state(call)
        {
            return outcome_by_state(task, found, call, reply, calls);
        }
        return task.object.outcome(task.alloc, &found.state, call, known);
    }
    let (row, was_there) = row_with(task, found, call, calls)?;
    calls.left = if was_there {
        calls.left.saturating_add(1)
    } else {
        calls.left.saturating_sub(1)
    };
    let Some(made) = made_at(calls, row) else {
        unreachable!()
    };
    if let Some(reply) = known {
        if !is_same_reply(&made.reply, reply) {
            return Ok(None);
        }
    }
    Ok(Some(task.object.copy(task.alloc, &made.state)?))
}

/// Whether a call is known to do the same on two configurations' states, and to have the same reply.
fn did_so<O: Object>(
    task: &Task<O>,
    here: &Found<O::State>,
    behind: &Found<O::State>,
    call: SeenCall,
    calls: &MadeCalls<O::State>,
) -> Result<Option<bool>, NoMemory>
    requires worded { IsWorded O.meaning O.words_of here.now }
    requires behind { IsWorded O.meaning O.words_of behind.now }
    requires made { AreMade O.meaning O.words_of (O.effect task.now.object.now) calls.now }
    ensures { IfOk result (λ o. IfSome o (λ so. IsTrue so → DoesSo (O.effect task.now.object.now (seen_call call.entry)) (O.meaning here.now.state) (O.meaning behind.now.state))) }
{
    let Some(made) = remembered(here, call, calls) else {
        return Ok(None);
    };
    let Some(other) = remembered(behind, call, calls) else {
        return Ok(None);
    };
    if !are_equal_replies(&made.reply, &other.reply) {
        return Ok(Some(false));
    }
    let same = task.object.is_same(task.alloc, &made.state, &other.state)?;
    Ok(Some(same))
}

/// Whether a call does the same on two configurations' states, and has the same reply.
pub(crate) fn does_so<'a, O: Object>(
    task: &Task<'_, 'a, O>,
    here: &Found<O::State>,
    behind: &Found<O::State>,
    call: SeenCall<'a>,
    calls: &mut MadeCalls<'a, O::State>,
) -> Result<bool, NoMemory>
    requires worded { IsWorded O.meaning O.words_of here.now }
    requires behind { IsWorded O.meaning O.words_of behind.now }
    requires made { AreMade O.meaning O.words_of (O.effect task.now.object.now) calls.old }
    ensures made { OnOk result (AreMade O.meaning O.words_of (O.effect task.now.object.now) calls.new) }
    ensures so { IfOk result (λ so. IsTrue so → DoesSo (O.effect task.now.object.now (seen_call call.entry)) (O.meaning here.now.state) (O.meaning behind.now.state)) }
{
    if let Some(so) = did_so(task, here, behind, call, calls)? {
        return Ok(so);
    }
    let _ = row_with(task, here, call, calls)?;
    let _ = row_with(task, behind, call, calls)?;
    // The second may have come to the row of the first.
    let so = did_so(task, here, behind, call, calls)?;
    Ok(so.unwrap_or(false))
}

/// A call, and its reply, if one is known.
#[derive(Clone, Copy)]
pub(crate) struct Question<'a> {
    pub call: SeenCall<'a>,
    pub known: Option<SeenReply<'a>>,
}

/// Whether a reply is the one that is known, if one is.
fn is_known(reply: &Reply, known: Option<SeenReply>) -> bool
    ensures { IsTrue result ↔ IfSome (option_map seen_reply known.entry) (λ r. r ≡ reply_of reply.now) }
{
    match known {
        Some(other) => is_same_reply(reply, other),
        None => true,
    }
}

/// Whether a call leads from a configuration's state where it leads from another one behind it, wherever it has the reply there that is known, if one is. Nothing
/// where it isn't remembered what it makes of both.
pub(crate) fn leads_alike<O: Object>(
    task: &Task<O>,
    here: &Found<O::State>,
    behind: &Found<O::State>,
    question: Question,
    calls: &MadeCalls<O::State>,
) -> Result<Option<bool>, NoMemory>
    requires worded { IsWorded O.meaning O.words_of here.now }
    requires behind { IsWorded O.meaning O.words_of behind.now }
    requires made { AreMade O.meaning O.words_of (O.effect task.now.object.now) calls.now }
    ensures { IfOk result (λ o. IfSome o (λ alike. IsTrue alike
        → IsSameOutcome (O.effect task.now.object.now (seen_call question.entry.call)) (O.meaning here.now.state) (O.meaning behind.now.state) (option_map seen_reply question.entry.known))) }
{
    let Some(after) = remembered(behind, question.call, calls) else {
        return Ok(None);
    };
    if !is_known(&after.reply, question.known) {
        return Ok(Some(true));
    }
    let Some(other) = remembered(here, question.call, calls) else {
        return Ok(None);
    };
    if !is_known(&other.reply, question.known) {
        return Ok(Some(false));
    }
    let same = task.object.is_same(task.alloc, &other.state, &after.state)?;
    Ok(Some(same))
}
