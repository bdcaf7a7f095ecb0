//! Calls that were made, so that few are made twice.

ghost use Rattle.std.specs.Prelude.{◌≡◌, [], IfOk, IfSome, OnOk, IsTrue};
ghost use Rattle.ob_interface.specs.View.{reply_of};
ghost use Rattle.wf_history.specs.View.{kept_call};
ghost use Rattle.wf_outcomes.specs.RememberedCalls.{AreMade, IsAfter, IsMade, IsRecalled, IsRemembered, IsStated};
ghost use Rattle.wf_outcomes.specs.Outcomes.{Answers};

use crate::seen::{Stated, row_of_words};
use crate::step::{Task, applied};
use ob_interface::NoMemory;
use ob_interface::call::Reply;
use ob_interface::scalar::Scalar;
use smallvec::SmallVec;
use std::alloc::{AllocError, Global};
use std::rc::Rc;
use wf_history::KeptCall;
use wf_order::Object;

/// How many calls are remembered at most, as a power of 2.
const ROW_BITS: u32 = 10;

/// What stands at a row where no call was made.
const NOWHERE: u16 = u16::MAX;

/// An odd number that spreads a row's number over its upper bits.
const SPREAD: u64 = 0x9E37_79B9_7F4A_7C15;

/// What a call made of a state, and its reply.
#[derive(Drop)]
pub struct Made<'a, S> {
    pub(crate) before: Rc<Stated<S>>,
    pub(crate) call: &'a KeptCall,
    pub(crate) after: Rc<Stated<S>>,
    pub(crate) reply: Reply,
}

/// Calls that were made. Each is found by the row of its state and call, where it stands until another one comes there.
#[derive(Drop)]
pub struct Memory<'a, S> {
    /// Of each row, where the call that stands there is among those that were made.
    rows: Vec<u16>,
    pub(crate) made: Vec<Made<'a, S>>,
}

/// No call is remembered.
pub(crate) fn nothing_made<'a, S: Drop>(alloc: Global) -> Result<Memory<'a, S>, NoMemory>
    ensures { IfOk result (λ memory. memory.made.items ≡ []) }
{
    let rows = Vec::from_elem(alloc, NOWHERE, 1_usize << ROW_BITS)?;
    let made = Vec::new(alloc);
    Ok(Memory { rows, made })
}

/// A scalar as a number.
fn number_of(scalar: Scalar) -> u64 {
    match scalar {
        Scalar::Int(number) => number.cast_unsigned() as u64,
        Scalar::Bool(false) => 0,
        Scalar::Bool(true) => 1,
    }
}

/// A row's number with the arguments of a call.
fn with_arguments(row: u64, call: &KeptCall) -> u64 {
    let args = call.args.lent();
    let mut number = row;
    for scalar in args.as_slice() {
        number = number.wrapping_mul(31).wrapping_add(number_of(*scalar));
    }
    number
}

/// The row of a call on a state.
#[inline(always)]
fn row_of<S>(before: &Stated<S>, call: &KeptCall) -> usize {
    let row = before.row.wrapping_mul(64).wrapping_add(call.proc as u64);
    let number = if call.args.is_empty() {
        row
    } else {
        with_arguments(row, call)
    };
    (number.wrapping_mul(SPREAD) >> (64 - ROW_BITS)) as usize
}

/// Whether two calls have the same arguments. Most have none, so that is asked first.
#[inline(always)]
fn has_same_arguments(call: &KeptCall, other: &KeptCall) -> bool
    ensures { IsTrue result → call.now.args.items ≡ other.now.args.items }
{
    if call.args.is_empty() {
        return other.args.is_empty();
    }
    call.args.lent().as_slice() == other.args.lent().as_slice()
}

/// Whether two calls are the same.
#[inline(always)]
fn is_same_call(call: &KeptCall, other: &KeptCall) -> bool
    ensures { IsTrue result → kept_call call.now ≡ kept_call other.now }
{
    call.proc == other.proc && has_same_arguments(call, other)
}

/// Whether two states have the same words. Many have one word alone, so that is asked first.
#[inline(always)]
pub(crate) fn has_same_words<S>(one: &Stated<S>, other: &Stated<S>) -> bool
    ensures { IsTrue result → one.now.words.items ≡ other.now.words.items }
{
    match (one.words.as_slice(), other.words.as_slice()) {
        ([word], [another]) => *word == *another,
        (words, others) => words == others,
    }
}

/// Whether this call was made on a state with the same words.
#[inline(always)]
fn is_made_so<S>(made: &Made<'_, S>, before: &Stated<S>, call: &KeptCall) -> bool
    ensures { IsTrue result → (made.now.before.value.words.items ≡ before.now.words.items) × (kept_call made.now.call.now ≡ kept_call call.now) }
{
    if !has_same_words(made.before.as_ref(), before) {
        return false;
    }
    is_same_call(made.call, call)
}

/// Where the call that stands at a row is among those that were made.
#[inline(always)]
fn place_at<S>(memory: &Memory<'_, S>, row: usize) -> usize {
    match memory.rows.as_slice().get(row) {
        Some(place) => *place as usize,
        None => NOWHERE as usize,
    }
}

/// The call on a state as it was made before, if that is remembered.
#[inline(always)]
fn recalled<'m, 'a, S>(
    memory: &'m Memory<'a, S>,
    before: &Stated<S>,
    call: &KeptCall,
) -> Option<&'m Made<'a, S>>
    ensures { IfSome result (λ made. IsRecalled memory.now.made.items before.now call.now made.now) }
{
    let place = place_at(memory, row_of(before, call));
    let Some(made) = memory.made.as_slice().get(place) else {
        return None;
    };
    if !is_made_so(made, before, call) {
        return None;
    }
    Some(made)
}

/// A call is made on a state.
fn made_now<'a, O: Object>(
    task: &Task<'a, O>,
    before: &Rc<Stated<O::State>>,
    call: &'a KeptCall,
) -> Result<Made<'a, O::State>, NoMemory>
    requires { IsStated O.meaning O.words_of before.now.value }
    ensures made { IfOk result (IsMade O.meaning O.words_of (O.effect task.now.object.now)) }
    ensures before { IfOk result (λ made. made.before.value ≡ before.now.value) }
    ensures call { IfOk result (λ made. made.call.now ≡ call.now) }
{
    let alloc = task.alloc;
    let (state, reply) = applied(alloc, task.object, &before.as_ref().state, call)?;
    let words = task.object.words(alloc, &state)?;
    let row = row_of_words(words.as_slice());
    let after = Rc::new(alloc, Stated { words, row, state })?;
    let before = before.clone()?;
    Ok(Made {
        before,
        call,
        after,
        reply,
    })
}

/// The place that a row stands for from now on.
fn place_row(rows: &mut Vec<u16>, row: usize, place: usize) {
    if let (Some(slot), Ok(place)) = (rows.as_mut_slice().get_mut(row), u16::try_from(place)) {
        *slot = place;
    }
}

/// A call is remembered at a row, in the place of the one that stands there, or behind all.
fn remember<'a, S: Drop>(
    memory: &mut Memory<'a, S>,
    row: usize,
    made: Made<'a, S>,
) -> Result<(), NoMemory>
    ensures { OnOk result (IsRemembered memory.old.made.items memory.new.made.items made.entry) }
{
    let place = place_at(&*memory, row);
    let many = memory.made.len();
    if place < many {
        memory.made[place] = made;
        return Ok(());
    }
    memory.made.push(made)?;
    place_row(&mut memory.rows, row, many);
    Ok(())
}

/// What a call makes of a state. Where it is not remembered, it is made, and remembered now.
pub(crate) fn after<'a, O: Object>(
    task: &Task<'a, O>,
    memory: &mut Memory<'a, O::State>,
    before: &Rc<Stated<O::State>>,
    call: &'a KeptCall,
) -> Result<Rc<Stated<O::State>>, NoMemory>
    requires before { IsStated O.meaning O.words_of before.now.value }
    requires memory { AreMade O.meaning O.words_of (O.effect task.now.object.now) memory.old.made.items }
    ensures memory { OnOk result (AreMade O.meaning O.words_of (O.effect task.now.object.now) memory.new.made.items) }
    ensures after { IfOk result (λ after. IsAfter O.meaning O.words_of (O.effect task.now.object.now) (kept_call call.now) before.now.value after.value) }
{
    if let Some(made) = recalled(&*memory, before.as_ref(), call) {
        let known = made.after.clone()?;
        return Ok(known);
    }
    let made = made_now(task, before, call)?;
    let after = made.after.clone()?;
    remember(memory, row_of(before.as_ref(), call), made)?;
    Ok(after)
}

/// The reply once more.
fn copied(alloc: Global, reply: &Reply) -> Result<Reply, AllocError>
    ensures { IfOk result (λ copy. reply_of copy ≡ reply_of reply.now) }
{
    match reply {
        Reply::Done(values) => Ok(Reply::Done(SmallVec::from_slice(alloc, values.as_slice())?)),
        Reply::Trap(number) => Ok(Reply::Trap(*number)),
    }
}

/// What a call answers on a state, as it is remembered, or as it is made now.
pub(crate) fn reply_to<O: Object>(
    task: &Task<'_, O>,
    memory: &Memory<'_, O::State>,
    before: &Stated<O::State>,
    call: &KeptCall,
) -> Result<Reply, NoMemory>
    requires before { IsStated O.meaning O.words_of before.now }
    requires memory { ∥ AreMade O.meaning O.words_of (O.effect task.now.object.now) memory.now.made.items ∥₁ }
    ensures { IfOk result (λ reply. ∥ Answers (O.effect task.now.object.now) (kept_call call.now) (reply_of reply) (O.meaning before.now.state) ∥₁) }
{
    if let Some(made) = recalled(memory, before, call) {
        let known = copied(task.alloc, &made.reply)?;
        return Ok(known);
    }
    let (_, reply) = applied(task.alloc, task.object, &before.state, call)?;
    Ok(reply)
}
