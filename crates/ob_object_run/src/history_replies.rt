//! Calls and replies of a history, of an object, and of the interpreter.

ghost use Rattle.std.specs.Prelude.{◌≡◌, ◌↔◌, IfOk, IsTrue};
ghost use Rattle.ob_interface.specs.View.{reply_of};
ghost use Rattle.ob_mean.specs.View as Interpreter;
ghost use Rattle.wf_history.specs.View.{seen_call, seen_reply};

use ob_interface::call::Reply;
use ob_mean::call as interpreter;
use smallvec::SmallVec;
use std::alloc::{AllocError, Global};
use wf_history::{SeenCall, SeenReply};

/// The call, for the interpreter.
pub fn call_in(alloc: Global, call: SeenCall) -> Result<interpreter::Call, AllocError>
    ensures { IfOk result (λ c. Interpreter.call_of c ≡ seen_call call.entry) }
{
    Ok(interpreter::Call {
        export: call.proc,
        arguments: Vec::from_slice(alloc, call.args.lent().as_slice())?,
    })
}

/// The interpreter's reply, as an object gives it.
pub fn object_reply(alloc: Global, reply: &interpreter::Reply) -> Result<Reply, AllocError>
    ensures { IfOk result (λ given. reply_of given ≡ Interpreter.reply_of reply.now) }
{
    match reply {
        interpreter::Reply::Answers(values) => {
            Ok(Reply::Done(SmallVec::from_slice(alloc, values.as_slice())?))
        }
        interpreter::Reply::Trapped(number) => Ok(Reply::Trap(*number)),
    }
}

/// Whether an object's reply is that of the history.
pub fn is_same_reply(reply: &Reply, other: SeenReply) -> bool
    ensures { IsTrue result ↔ (reply_of reply.now ≡ seen_reply other.entry) }
{
    match (reply, other) {
        (Reply::Done(values), SeenReply::Done(others)) => {
            values.as_slice() == others.lent().as_slice()
        }
        (Reply::Trap(number), SeenReply::Trap(other)) => *number == other,
        _ => false,
    }
}
