//! Calls made one after the other, whose replies are compared with those of the history.

ghost use Rattle.std.specs.Prelude.{◌≡◌, IfOk, IfSome, IsTrue, MatchOption};
ghost use Rattle.ob_interface.specs.Call.{Reply as AnyReply};
ghost use Rattle.wf_history.specs.View.{seen_call};
ghost use Rattle.wf_needed.specs.Listed.{Ends, Replays};

use crate::listed_calls::Listed;
use ob_interface::NoMemory;
use std::alloc::Global;
use wf_order::Object;

/// The state that a call leads to.
pub(crate) fn after<O: Object>(
    alloc: Global,
    object: &O,
    state: &O::State,
    listed: &Listed,
) -> Result<O::State, NoMemory>
    ensures { IfOk result (λ to. (reply : AnyReply) × O.effect object.now (seen_call listed.now.call) (O.meaning state.now) (O.meaning to) reply) }
{
    let (to, _) = object.apply(alloc, state, listed.call)?;
    Ok(to)
}

/// The state that a call leads to from a state where its reply is that of the history. A silent one leaves it as it is.
pub(crate) fn onward<O: Object>(
    alloc: Global,
    object: &O,
    state: O::State,
    listed: &Listed,
) -> Result<O::State, NoMemory>
    requires { (after : O.Meaning) × Ends (O.effect object.now) listed.now (O.meaning state) after }
    ensures { IfOk result (λ to. (reply : AnyReply) × O.effect object.now (seen_call listed.now.call) (O.meaning state) (O.meaning to) reply) }
{
    if let Some(reply) = listed.reply {
        if object.is_silent(listed.call, reply) {
            return Ok(state);
        }
    }
    after(alloc, object, &state, listed)
}

/// The state behind the first calls, and the one that they lead to without an open call before them.
#[derive(Drop)]
struct Pair<S> {
    with: S,
    without: S,
}

/// The same behind one call more, where it has its reply without the open call too.
fn both_after<O: Object>(
    alloc: Global,
    object: &O,
    with: &O::State,
    without: &O::State,
    listed: &Listed,
) -> Result<Option<Pair<O::State>>, NoMemory>
    ensures without { IfOk result (λ to. MatchOption to ((after : O.Meaning) → ¬ Ends (O.effect object.now) listed.now (O.meaning without.now) after)
        (λ p. Ends (O.effect object.now) listed.now (O.meaning without.now) (O.meaning p.without))) }
    ensures with { IfOk result (λ to. IfSome to (λ p. (reply : AnyReply) × O.effect object.now (seen_call listed.now.call) (O.meaning with.now) (O.meaning p.with) reply)) }
{
    let Some(without) = object.outcome(alloc, without, listed.call, listed.reply)? else {
        return Ok(None);
    };
    let with = after(alloc, object, with, listed)?;
    Ok(Some(Pair { with, without }))
}

/// Whether calls that are made one after the other have the replies of the history from a state on, where they have them from
/// another one on. They do once both have led to the same state.
pub(crate) fn replays<O: Object>(
    alloc: Global,
    object: &O,
    with: &O::State,
    without: &O::State,
    all: &[Listed],
) -> Result<bool, NoMemory>
    requires { (last : O.Meaning) × Replays (O.effect object.now) (O.meaning with.now) all.now last }
    ensures replays { IfOk result (λ does. IsTrue does → (last : O.Meaning) × Replays (O.effect object.now) (O.meaning without.now) all.now last) }
    ensures not { IfOk result (λ does. ¬ IsTrue does → (last : O.Meaning) → ¬ Replays (O.effect object.now) (O.meaning without.now) all.now last) }
{
    if object.is_same(alloc, with, without)? {
        return Ok(true);
    }
    let Some((first, rest)) = all.split_first() else {
        return Ok(true);
    };
    let Some(mut here) = both_after(alloc, object, with, without, first)? else {
        return Ok(false);
    };
    for listed in rest {
        if object.is_same(alloc, &here.with, &here.without)? {
            return Ok(true);
        }
        let Some(next) = both_after(alloc, object, &here.with, &here.without, listed)? else {
            return Ok(false);
        };
        here = next;
    }
    Ok(true)
}
