//! Calls and replies as events keep them: in place as far as they are common.

use crate::kept_scalars::KeptScalars;
use ob_interface::NoMemory;
use ob_interface::call::{Call, Reply};
use std::alloc::Global;

/// A call of an event. It takes memory of its own only where it has more than 3 arguments.
#[derive(Drop)]
pub struct KeptCall {
    pub proc: usize,
    pub args: KeptScalars,
}

/// A reply of an event. It takes memory of its own only where it has more than 3 values.
#[derive(Drop)]
pub enum KeptReply {
    /// The final values of the VAR parameters, in text order.
    Done(KeptScalars),
    /// The number of a trap.
    Trap(u8),
}

impl KeptCall {
    ghost use Rattle.std.specs.Prelude.{◌≡◌, ◌≤◌, IfOk, IsOk, length};
    ghost use Rattle.ob_interface.specs.View.{call_of};
    ghost use Rattle.wf_history.specs.View.{kept_call};

    /// The call, to be kept.
    #[inline(always)]
    pub fn keep(alloc: Global, call: &Call) -> Result<KeptCall, NoMemory>
        ensures kept { IfOk result (λ k. kept_call k ≡ call_of call.now) }
        ensures in_place { length call.now.args.items ≤ 3 → IsOk result }
    {
        Ok(KeptCall {
            proc: call.proc,
            args: KeptScalars::from_slice(alloc, call.args.as_slice())?,
        })
    }
}

impl KeptReply {
    ghost use Rattle.std.specs.Prelude.{◌≡◌, IfOk};
    ghost use Rattle.ob_interface.specs.View.{reply_of};
    ghost use Rattle.wf_history.specs.View.{kept_reply};

    /// The reply, to be kept.
    #[inline(always)]
    pub fn keep(alloc: Global, reply: &Reply) -> Result<KeptReply, NoMemory>
        ensures { IfOk result (λ k. kept_reply k ≡ reply_of reply.now) }
    {
        match reply {
            Reply::Done(values) => Ok(KeptReply::Done(KeptScalars::from_slice(
                alloc,
                values.as_slice(),
            )?)),
            Reply::Trap(number) => Ok(KeptReply::Trap(*number)),
        }
    }
}
