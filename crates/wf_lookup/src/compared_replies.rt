//! Calls and replies of a history, to be compared.

ghost use Rattle.std.specs.Prelude.{◌≡◌, ◌↔◌, IsTrue};
ghost use Rattle.ob_interface.specs.View.{reply_of};
ghost use Rattle.wf_history.specs.View.{seen_call, seen_reply};

use ob_interface::call::Reply;
use ob_interface::scalar::Scalar;
use wf_history::kept_scalars::KeptScalars;
use wf_history::{SeenCall, SeenReply};

/// Whether lists of scalars are the same. Mostly both have one.
#[inline(always)]
fn are_equal(items: &[Scalar], others: &[Scalar]) -> bool
    ensures { IsTrue result ↔ (items.now ≡ others.now) }
{
    match (items, others) {
        ([item], [other]) => item == other,
        _ => items == others,
    }
}

/// Whether kept scalars are the same. Mostly there are none.
#[inline(always)]
fn are_same(kept: &KeptScalars, other: &KeptScalars) -> bool
    ensures { IsTrue result → kept.now.items ≡ other.now.items }
{
    if kept.is_empty() {
        return other.is_empty();
    }
    are_same_lent(kept, other)
}

/// The same, where there are some. It stands apart, so that it takes no room where there are none.
#[inline(never)]
fn are_same_lent(kept: &KeptScalars, other: &KeptScalars) -> bool
    ensures { IsTrue result → kept.now.items ≡ other.now.items }
{
    are_equal(kept.lent().as_slice(), other.lent().as_slice())
}

/// Whether a reply is that of the history.
pub fn is_same_reply(reply: &Reply, other: SeenReply) -> bool
    ensures { IsTrue result ↔ (reply_of reply.now ≡ seen_reply other.entry) }
{
    match (reply, other) {
        (Reply::Done(values), SeenReply::Done(others)) => {
            are_equal(values.as_slice(), others.lent().as_slice())
        }
        (Reply::Trap(number), SeenReply::Trap(other)) => *number == other,
        _ => false,
    }
}

/// Whether two replies are the same.
pub fn are_equal_replies(reply: &Reply, other: &Reply) -> bool
    ensures { IsTrue result → reply_of reply.now ≡ reply_of other.now }
{
    match (reply, other) {
        (Reply::Done(values), Reply::Done(others)) => {
            are_equal(values.as_slice(), others.as_slice())
        }
        (Reply::Trap(number), Reply::Trap(other)) => *number == *other,
        _ => false,
    }
}

/// Whether two replies of a history are the same.
#[inline(always)]
pub fn are_same_replies(reply: SeenReply, other: SeenReply) -> bool
    ensures { IsTrue result → seen_reply reply.entry ≡ seen_reply other.entry }
{
    match (reply, other) {
        (SeenReply::Done(values), SeenReply::Done(others)) => are_same(values, others),
        (SeenReply::Trap(number), SeenReply::Trap(other)) => number == other,
        _ => false,
    }
}

/// Whether two calls of a history are the same.
#[inline(always)]
pub fn is_same_call(call: SeenCall, other: SeenCall) -> bool
    ensures { IsTrue result → seen_call call.entry ≡ seen_call other.entry }
{
    call.proc == other.proc && are_same(call.args, other.args)
}
