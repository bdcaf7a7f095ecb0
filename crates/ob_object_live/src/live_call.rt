//! One call and what is told of it.

ghost use Rattle.std.specs.Prelude.{◌≡◌, ◌++◌, IfOk, OnOk, codes, map, string_bytes};
ghost use Rattle.ob_interface.specs.View.{signature_of};
ghost use Rattle.ob_mean.specs.View.{call_of, reply_of};
ghost use Rattle.ob_object_live.specs.Living.{applied_text, call_text};
ghost use Rattle.ob_text_words.specs.ReplyLines.{reply_line};
ghost use Rattle.ob_text_record.specs.RecordText.{begin_text, id_text};
ghost use Rattle.ob_text_words.specs.ScriptCalls.{object_call, script_call_of};

use ob_interface::export::Export;
use ob_mean::call::{Call, Reply};
use ob_text_record::{export_name, push_id, push_scalars};
use ob_text_words::reply_lines::{push_done_line, push_trap_line};
use ob_text_words::script_call::ScriptCall;
use std::alloc::{AllocError, Global};
use wf_history::CallId;

/// What a script's call asks of the object.
pub(crate) fn call_asked(alloc: Global, call: &ScriptCall) -> Result<Call, AllocError>
    ensures { IfOk result (λ made. call_of made ≡ object_call (script_call_of call.now)) }
{
    Ok(Call {
        export: call.proc,
        arguments: Vec::from_slice(alloc, call.args.as_slice())?,
    })
}

/// Appends the lines by which a record tells a call that was made alone: that it began, that it took effect, and its end with the reply.
pub(crate) fn push_call(
    text: &mut String,
    exports: &[Export],
    id: CallId,
    call: &ScriptCall,
    reply: &Reply,
) -> Result<(), AllocError>
    ensures { OnOk result (string_bytes text.new
        ≡ string_bytes text.old ++ call_text (map signature_of exports.now) id (object_call (script_call_of call.now)) (reply_of reply.now)) }
{
    push_begin(text, exports, id, call)?;
    push_applied(text, id)?;
    push_reply(text, id, reply)
}

/// Appends the line of a call that begins.
fn push_begin(
    text: &mut String,
    exports: &[Export],
    id: CallId,
    call: &ScriptCall,
) -> Result<(), AllocError>
    ensures { OnOk result (string_bytes text.new
        ≡ string_bytes text.old ++ begin_text (map signature_of exports.now) id (object_call (script_call_of call.now))) }
{
    text.push_str("B ")?;
    push_id(text, id)?;
    text.push_str(" ")?;
    text.push_str(export_name(exports, call.proc))?;
    push_scalars(text, call.args.as_slice())?;
    text.push_str("\n")
}

/// Appends the line of a call that takes effect.
fn push_applied(text: &mut String, id: CallId) -> Result<(), AllocError>
    ensures { OnOk result (string_bytes text.new ≡ string_bytes text.old ++ applied_text id) }
{
    text.push_str("A ")?;
    push_id(text, id)?;
    text.push_str("\n")
}

/// Appends the line of a call that ends.
pub(crate) fn push_reply(text: &mut String, id: CallId, reply: &Reply) -> Result<(), AllocError>
    ensures { OnOk result (string_bytes text.new ≡ string_bytes text.old ++ reply_line id.process id.number (reply_of reply.now)) }
{
    match reply {
        Reply::Answers(values) => push_done_line(text, id.process, id.number, values.as_slice()),
        Reply::Trapped(trap) => push_trap_line(text, id.process, id.number, *trap),
    }
}

/// Appends the name of a call, with a space before it.
pub(crate) fn push_next(text: &mut String, id: CallId) -> Result<(), AllocError>
    ensures { OnOk result (string_bytes text.new ≡ string_bytes text.old ++ (codes " " ++ id_text id)) }
{
    text.push_str(" ")?;
    push_id(text, id)
}
