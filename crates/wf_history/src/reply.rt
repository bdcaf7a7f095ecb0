//! Whether a reply is one that is kept.

ghost use Rattle.std.specs.Prelude.{◌≡◌, ◌↔◌, IsTrue};
ghost use Rattle.ob_interface.specs.View.{reply_of};
ghost use Rattle.wf_history.specs.View.{kept_reply};

use crate::kept::KeptReply;
use ob_interface::call::Reply;

/// Whether a reply is the same as one that is kept.
pub fn same_reply(reply: &Reply, kept: &KeptReply) -> bool
    ensures { IsTrue result ↔ (reply_of reply.now ≡ kept_reply kept.now) }
{
    match (reply, kept) {
        (Reply::Done(values), KeptReply::Done(others)) => {
            values.as_slice() == others.lent().as_slice()
        }
        (Reply::Trap(number), KeptReply::Trap(other)) => number == other,
        _ => false,
    }
}
