//! The events that lines tell.

ghost use Rattle.std.specs.Prelude.{◌∷◌, codes, map, IfOk};
ghost use Rattle.ob_interface.specs.View.{signature_of};
ghost use Rattle.ob_text_reading.specs.HistoryLines.{IsNamedEvent};
ghost use Rattle.ob_text_reading.specs.Names.{events_of};
ghost use Rattle.ob_text_reading.specs.Reading.{event_said};
ghost use Rattle.ob_text_words.specs.Finding.{FindsAs};
ghost use Rattle.ob_text_words.specs.Words.{words};

use crate::line::{read_reply, values_in};
use crate::named_processes::NamedCalls;
use ob_interface::NoMemory;
use ob_interface::call::Call;
use ob_interface::export::Export;
use ob_text_values_reading::line_words::next_word;
use ob_text_values_reading::taken_names::take_id;
use ob_text_words::export_names::export_named;
use std::alloc::Global;
use wf_history::{CallId, KeptCall, KeptReply};

/// A process is a number below this: of nine digits at most.
pub(crate) const PROCESS_NUMBERS: usize = 1_000_000_000;

/// The event of a line.
#[derive(Drop)]
pub(crate) enum Said {
    /// A call begins.
    Begin(CallId, KeptCall),
    /// A call ends.
    End(CallId, KeptReply),
}

/// The event that a line tells behind those so far; `None` where it tells none that may stand there. Words that say values are
/// put in place of those that the list has.
pub(crate) fn read_event<'a>(
    alloc: Global,
    exports: &[Export],
    calls: &NamedCalls,
    line: &'a [u8],
    list: &mut Vec<&'a [u8]>,
) -> Result<Option<Said>, NoMemory>
    ensures { IfOk result (FindsAs event_said (IsNamedEvent (map signature_of exports.now) (events_of calls.now) (words line.now))) }
{
    let Some((first, rest)) = next_word(line) else {
        return Ok(None);
    };
    match first {
        b"B" => read_begin(alloc, exports, calls, rest, list),
        b"E" => read_end(alloc, exports, calls, rest, list),
        _ => Ok(None),
    }
}

/// The call behind a `B`.
fn read_begin<'a>(
    alloc: Global,
    exports: &[Export],
    calls: &NamedCalls,
    line: &'a [u8],
    list: &mut Vec<&'a [u8]>,
) -> Result<Option<Said>, NoMemory>
    ensures { IfOk result (FindsAs event_said (IsNamedEvent (map signature_of exports.now) (events_of calls.now) (codes "B" ∷ words line.now))) }
{
    let Some((id, behind)) = take_id(PROCESS_NUMBERS, line) else {
        return Ok(None);
    };
    let Some((name, rest)) = next_word(behind) else {
        return Ok(None);
    };
    if !calls.may_begin(id) {
        return Ok(None);
    }
    let Some((proc, export)) = export_named(exports, name) else {
        return Ok(None);
    };
    let Some(args) = values_in(alloc, &export.formals, false, rest, list)? else {
        return Ok(None);
    };
    let kept = KeptCall::keep(alloc, &Call { proc, args })?;
    Ok(Some(Said::Begin(id, kept)))
}

/// The reply behind an `E`.
fn read_end<'a>(
    alloc: Global,
    exports: &[Export],
    calls: &NamedCalls,
    line: &'a [u8],
    list: &mut Vec<&'a [u8]>,
) -> Result<Option<Said>, NoMemory>
    ensures { IfOk result (FindsAs event_said (IsNamedEvent (map signature_of exports.now) (events_of calls.now) (codes "E" ∷ words line.now))) }
{
    let Some((id, rest)) = take_id(PROCESS_NUMBERS, line) else {
        return Ok(None);
    };
    let Some(proc) = calls.export_to_end(id) else {
        return Ok(None);
    };
    let Some(reply) = read_reply(alloc, exports, proc, rest, list)? else {
        return Ok(None);
    };
    let kept = KeptReply::keep(alloc, &reply)?;
    Ok(Some(Said::End(id, kept)))
}
