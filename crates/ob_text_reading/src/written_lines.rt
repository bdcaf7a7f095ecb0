//! Lines as runs write them, read in one walk: the end of a line is not looked for before its words.

ghost use Rattle.std.specs.Prelude.{◌≡◌, ◌↔◌, ◌<◌, codes, map, OnErr, OnOk, IfOk, IsTrue};
ghost use Rattle.ob_interface.specs.View.{signature_of};
ghost use Rattle.ob_text_reading.specs.LineReading.{LeadsOn, TakesBegin, TakesEnd, TakesLine, TakesOrLeaves};

use crate::line::export_at;
use crate::process_calls::Calls;
use ob_interface::NoMemory;
use ob_interface::export::Export;
use ob_text_values_reading::text_beginning::{behind_ids, front_of, front_word};
use ob_text_values_reading::written_values::front_values;
use ob_text_words::export_names::export_named;
use std::alloc::Global;
use wf_history::{CallId, KeptCall, KeptReply};

/// Takes up the line that a text begins with, where it is one of an event or of applied calls as runs write them, and gives
/// the text behind it. `None` says nothing of the line, and nothing is taken up.
pub(crate) fn take_written<'a>(
    alloc: Global,
    exports: &[Export],
    calls: &mut Calls,
    text: &'a [u8],
) -> Result<Option<&'a [u8]>, NoMemory>
    ensures processes { OnOk result (calls.new.processes ≡ calls.old.processes) }
    ensures taken { IfOk result (TakesOrLeaves calls.old.events calls.new.events
        (TakesLine (LeadsOn calls.old.processes (map signature_of exports.now) calls.old.events) text.now)) }
{
    let processes = calls.processes();
    let Some((kind, id, behind)) = front_of(processes, text) else {
        return Ok(None);
    };
    let Some((ender, rest)) = behind.split_first() else {
        return Ok(None);
    };
    match (kind, *ender) {
        (b'A', b'\n') => Ok(Some(rest)),
        (b'A', b' ') => Ok(behind_ids(processes, rest)),
        (b'B', b' ') => take_begin(alloc, exports, calls, id, rest),
        (b'E', b' ') => take_end(alloc, exports, calls, id, rest),
        _ => Ok(None),
    }
}

/// Takes up what the first line of a text says of a call that begins; the text is what stands behind its name. `None` says nothing, and
/// nothing is taken up.
#[inline(always)]
pub(crate) fn take_begin<'a>(
    alloc: Global,
    exports: &[Export],
    calls: &mut Calls,
    id: CallId,
    text: &'a [u8],
) -> Result<Option<&'a [u8]>, NoMemory>
    requires { id.process < calls.old.processes }
    ensures processes { calls.new.processes ≡ calls.old.processes }
    ensures taken { IfOk result (TakesOrLeaves calls.old.events calls.new.events (TakesBegin (map signature_of exports.now) calls.old.events id text.now)) }
    ensures kept { OnErr result (calls.new.events ≡ calls.old.events) }
{
    let Some((name, behind)) = front_word(text) else {
        return Ok(None);
    };
    if !calls.may_begin(id) {
        return Ok(None);
    }
    let Some((proc, export)) = export_named(exports, name) else {
        return Ok(None);
    };
    let Some((args, rest)) = front_values(alloc, &export.formals, false, behind)? else {
        return Ok(None);
    };
    calls.begin(id, KeptCall { proc, args })?;
    Ok(Some(rest))
}

/// The same of a call that ends with values; the text is what stands behind its name.
#[inline(always)]
pub(crate) fn take_end<'a>(
    alloc: Global,
    exports: &[Export],
    calls: &mut Calls,
    id: CallId,
    text: &'a [u8],
) -> Result<Option<&'a [u8]>, NoMemory>
    requires { id.process < calls.old.processes }
    ensures processes { calls.new.processes ≡ calls.old.processes }
    ensures taken { IfOk result (TakesOrLeaves calls.old.events calls.new.events (TakesEnd (map signature_of exports.now) calls.old.events id text.now)) }
    ensures kept { OnErr result (calls.new.events ≡ calls.old.events) }
{
    let Some((kind, behind)) = front_word(text) else {
        return Ok(None);
    };
    if !is_done(kind) {
        return Ok(None);
    }
    let Some(proc) = calls.export_to_end(id) else {
        return Ok(None);
    };
    let Some(export) = export_at(exports, proc) else {
        return Ok(None);
    };
    let Some((values, rest)) = front_values(alloc, &export.formals, true, behind)? else {
        return Ok(None);
    };
    calls.end(id, KeptReply::Done(values))?;
    Ok(Some(rest))
}

/// Whether a word tells that values are said.
#[inline(always)]
fn is_done(word: &[u8]) -> bool
    ensures { IsTrue result ↔ (word.now ≡ codes "done") }
{
    matches!(word, b"done")
}
