//! The lines of events.

ghost use Rattle.std.specs.Prelude.{◌≡◌, ◌++◌, OnErr, OnOk, map, slice_get, string_bytes};
ghost use Rattle.std.specs.List.{flat_map};
ghost use Rattle.ob_interface.specs.View.{signature_of};
ghost use Rattle.ob_text_words.specs.ReplyLines.{reply_line};
ghost use Rattle.ob_text_record.specs.RecordText.{begin_text, event_text, id_text, ids_text, name_of, scalars_text};
ghost use Rattle.wf_history.specs.View.{event_of, seen_call, seen_reply};
ghost use Rattle.ob_text_words.specs.Appending.{GoesOn};

use ob_interface::export::Export;
use ob_interface::scalar::Scalar;
use ob_text_words::numbers::push_count;
use ob_text_words::reply_lines::{push_done_line, push_trap_line};
use ob_text_words::scalar_words::push_value;
use std::alloc::AllocError;
use wf_history::{CallId, Event, SeenCall, SeenEvent, SeenReply};

/// Appends a line for each event.
pub(crate) fn push_events(
    text: &mut String,
    exports: &[Export],
    events: &[Event],
) -> Result<(), AllocError>
    ensures ok { OnOk result (string_bytes text.new ≡ string_bytes text.old ++ flat_map (event_text (map signature_of exports.now)) (map event_of events.now)) }
    ensures left { OnErr result (GoesOn (string_bytes text.old) (string_bytes text.new)) }
{
    for event in events {
        push_event(text, exports, event)?;
    }
    Ok(())
}

fn push_event(text: &mut String, exports: &[Export], event: &Event) -> Result<(), AllocError>
    ensures ok { OnOk result (string_bytes text.new ≡ string_bytes text.old ++ event_text (map signature_of exports.now) (event_of event.now)) }
    ensures left { OnErr result (GoesOn (string_bytes text.old) (string_bytes text.new)) }
{
    match event.seen() {
        SeenEvent::Begin(id, call) => push_begin(text, exports, id, call),
        SeenEvent::Applied(ids) => {
            text.push_str("A")?;
            push_ids(text, ids)?;
            text.push_str("\n")
        }
        SeenEvent::End(id, reply) => push_end(text, id, reply),
    }
}

/// Appends the line of a call that has ended.
fn push_end(text: &mut String, id: CallId, reply: SeenReply) -> Result<(), AllocError>
    ensures ok { OnOk result (string_bytes text.new ≡ string_bytes text.old ++ reply_line id.process id.number (seen_reply reply.entry)) }
    ensures left { OnErr result (GoesOn (string_bytes text.old) (string_bytes text.new)) }
{
    match reply {
        SeenReply::Done(values) => push_done_line(
            text,
            id.process,
            id.number,
            values.lent().as_slice(),
        ),
        SeenReply::Trap(trap) => push_trap_line(text, id.process, id.number, trap),
    }
}

fn push_begin(
    text: &mut String,
    exports: &[Export],
    id: CallId,
    call: SeenCall,
) -> Result<(), AllocError>
    ensures ok { OnOk result (string_bytes text.new ≡ string_bytes text.old ++ begin_text (map signature_of exports.now) id (seen_call call.entry)) }
    ensures left { OnErr result (GoesOn (string_bytes text.old) (string_bytes text.new)) }
{
    text.push_str("B ")?;
    push_id(text, id)?;
    text.push_str(" ")?;
    text.push_str(export_name(exports, call.proc))?;
    push_scalars(text, call.args.lent().as_slice())?;
    text.push_str("\n")
}

/// The name of an export.
pub fn export_name(exports: &[Export], number: usize) -> &str
    ensures { result.now ≡ name_of (slice_get (map signature_of exports.now) number) }
{
    match exports.get(number) {
        Some(export) => export.name.as_str(),
        None => "",
    }
}

/// Appends values, each with a space before it.
pub fn push_scalars(text: &mut String, values: &[Scalar]) -> Result<(), AllocError>
    ensures ok { OnOk result (string_bytes text.new ≡ string_bytes text.old ++ scalars_text values.now) }
    ensures left { OnErr result (GoesOn (string_bytes text.old) (string_bytes text.new)) }
{
    for value in values {
        text.push_str(" ")?;
        push_value(text, *value)?;
    }
    Ok(())
}

/// Appends the ids of calls, each with a space before it.
pub(crate) fn push_ids(text: &mut String, ids: &[CallId]) -> Result<(), AllocError>
    ensures ok { OnOk result (string_bytes text.new ≡ string_bytes text.old ++ ids_text ids.now) }
    ensures left { OnErr result (GoesOn (string_bytes text.old) (string_bytes text.new)) }
{
    for id in ids {
        text.push_str(" ")?;
        push_id(text, *id)?;
    }
    Ok(())
}

/// Appends the id of a call, as `0.2` for the second call of process 0.
#[inline(always)]
pub fn push_id(text: &mut String, id: CallId) -> Result<(), AllocError>
    ensures ok { OnOk result (string_bytes text.new ≡ string_bytes text.old ++ id_text id) }
    ensures left { OnErr result (GoesOn (string_bytes text.old) (string_bytes text.new)) }
{
    push_count(text, id.process as u64)?;
    text.push_str(".")?;
    push_count(text, id.number)
}
