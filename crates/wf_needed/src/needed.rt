//! Legal orders in which each open call is needed.

ghost use Rattle.std.specs.Prelude.{◌≡◌, ◌≤◌, ◌∷◌, ℕ, length, slice_get, vec_len, IfOk, IsTrue, None, Some};
ghost use Rattle.wf_history.specs.Legal.{IsLegal};
ghost use Rattle.wf_needed.specs.Listed.{EachIsNeeded, IsOpenCall, IsThinner, Replays};
ghost use Rattle.wf_needed.specs.Needed.{IsOpen, LeavesOut, NoneIsNeedless};
ghost use Rattle.wf_needed.specs.declared.listed_calls.Listed as Rust;

use crate::listed_calls::{Listed, listed_all, names_of};
use crate::replay::{after, onward, replays};
use ob_interface::NoMemory;
use std::alloc::Global;
use wf_history::{CallId, History};
use wf_order::Object;

/// How many calls stand up to the last open one, it included.
fn open_until(all: &[Listed]) -> usize
    ensures within { result ≤ length all.now }
    ensures none { (k : ℕ) (c : Rust.Listed) → slice_get all.now k ≡ Some c → result ≤ k → ¬ IsOpenCall c }
{
    let mut until = 0;
    for (place, listed) in all.iter().enumerate() {
        if listed.reply.is_none() {
            until = place + 1;
        }
    }
    until
}

/// Whether a call is open and can be left out: from the state before it the calls behind it have their replies.
fn is_needless<O: Object>(
    alloc: Global,
    object: &O,
    state: &O::State,
    listed: &Listed,
    behind: &[Listed],
) -> Result<bool, NoMemory>
    requires { (last : O.Meaning) × Replays (O.effect object.now) (O.meaning state.now) (listed.now ∷ behind.now) last }
    ensures open { IfOk result (λ can. IsTrue can → IsOpenCall listed.now) }
    ensures replays { IfOk result (λ can. IsTrue can → (last : O.Meaning) × Replays (O.effect object.now) (O.meaning state.now) behind.now last) }
    ensures not { IfOk result (λ can. ¬ IsTrue can → IsOpenCall listed.now → (last : O.Meaning) → ¬ Replays (O.effect object.now) (O.meaning state.now) behind.now last) }
{
    if listed.reply.is_some() {
        return Ok(false);
    }
    let with = after(alloc, object, state, listed)?;
    replays(alloc, object, &with, state, behind)
}

/// One round over the calls of an order: each open call that can be left out where it stands is left out.
fn round<'a, O: Object>(
    alloc: Global,
    object: &O,
    all: &[Listed<'a>],
) -> Result<Vec<Listed<'a>>, NoMemory>
    requires { (last : O.Meaning) × Replays (O.effect object.now) (O.opening object.now) all.now last }
    ensures { IfOk result (λ kept. IsThinner (O.effect object.now) (O.opening object.now) all.now kept.items) }
{
    let until = open_until(all);
    let mut kept = Vec::new(alloc);
    let mut state = object.open(alloc)?;
    for place in 0..until {
        let listed = &all[place];
        if is_needless(alloc, object, &state, listed, &all[place + 1..])? {
            continue;
        }
        state = onward(alloc, object, state, listed)?;
        kept.push(*listed)?;
    }
    kept.extend_from_slice(&all[until..])?;
    Ok(kept)
}

/// Rounds, until one leaves out no call.
fn thinned<'a, O: Object>(
    alloc: Global,
    object: &O,
    all: Vec<Listed<'a>>,
) -> Result<Vec<Listed<'a>>, NoMemory>
    requires { (last : O.Meaning) × Replays (O.effect object.now) (O.opening object.now) all.items last }
    ensures replays { IfOk result (λ kept. (last : O.Meaning) × Replays (O.effect object.now) (O.opening object.now) kept.items last) }
    ensures left_out { IfOk result (λ kept. LeavesOut IsOpenCall all.entry.items kept.items) }
    ensures needed { IfOk result (λ kept. EachIsNeeded (O.effect object.now) (O.opening object.now) kept.items) }
{
    if open_until(all.as_slice()) == 0 {
        return Ok(all);
    }
    let mut before = all;
    let mut kept = round(alloc, object, before.as_slice())?;
    while kept.len() < before.len() {
        before = kept;
        kept = round(alloc, object, before.as_slice())?;
    }
    Ok(kept)
}

/// A legal order without those of its open calls that it does not need. Where n of its calls are open, all are made one after the
/// other (n + 1)² times at most. Mostly only some calls are made for each open call, since the state without it is soon the
/// same as with it, or some reply another one; and in each round those before the last open call.
pub fn needed_order<O: Object>(
    alloc: Global,
    history: &History,
    object: &O,
    order: &[CallId],
) -> Result<Vec<CallId>, NoMemory>
    requires { (last : O.Meaning) × IsLegal (O.effect object.now) (O.opening object.now) history.now order.now last }
    ensures legal { IfOk result (λ needed. (last : O.Meaning) × IsLegal (O.effect object.now) (O.opening object.now) history.now needed.items last) }
    ensures needed { IfOk result (λ needed. NoneIsNeedless (O.effect object.now) (O.opening object.now) history.now needed.items) }
    // Nothing but open calls is left out.
    ensures left_out { IfOk result (λ needed. LeavesOut (IsOpen history.now) order.now needed.items) }
{
    let Some(all) = listed_all(alloc, history.events(), order)? else {
        let whole = order.to_vec(alloc)?;
        return Ok(whole);
    };
    let kept = thinned(alloc, object, all)?;
    names_of(alloc, kept.as_slice())
}
