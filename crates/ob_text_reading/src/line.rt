//! What a line behind the head says.

ghost use Rattle.std.specs.Prelude.{◌≡◌, ◌∷◌, List, codes, map, option_map, slice_get, IfOk, MatchOption};
ghost use Rattle.ob_interface.specs.View.{reply_of, signature_of};
ghost use Rattle.ob_text_words.specs.Values.{AreValues, types_of};
ghost use Rattle.ob_text_reading.specs.LineReading.{FindsEvent, FindsLine, IsAppliedRead, IsOrderRead};
ghost use Rattle.ob_text_reading.specs.Traps.{FindsTrap};
ghost use Rattle.ob_text_reading.specs.RecordLines.{AreIds, IsReply};
ghost use Rattle.ob_text_words.specs.Finding.{FindsAs};
ghost use Rattle.ob_text_words.specs.Words.{words};
ghost use Rattle.wf_history.specs.declared.event.CallId as Names;

use crate::process_calls::Calls;
use ob_interface::NoMemory;
use ob_interface::call::{Call, Reply};
use ob_interface::export::{Export, Formal};
use ob_interface::scalar::Scalar;
use ob_text_values_reading::id::{are_ids, read_ids};
use ob_text_values_reading::line_words::next_word;
use ob_text_values_reading::said_number::read_only_number;
use ob_text_values_reading::taken_names::take_id;
use ob_text_words::export_names::export_named;
use ob_text_words::parameter_words::read_values;
use ob_text_words::words::put_words;
use smallvec::SmallVec;
use std::alloc::{AllocError, Global};
use wf_history::{CallId, KeptCall, KeptReply};

/// The greatest number of a trap.
const LAST_TRAP: u64 = 5;

/// What a line says.
#[derive(Drop)]
pub(crate) enum Line {
    /// A call begins.
    Begin(CallId, KeptCall),
    /// A call ends.
    End(CallId, KeptReply),
    /// Calls took effect.
    Applied,
    /// The order of all calls that took effect.
    Order(Vec<CallId>),
}

/// What a line says behind the events so far; `None` where it may not stand there. Words that say values are put in place of
/// those that the list has. It stands apart, since most lines are read as runs write them.
#[inline(never)]
pub(crate) fn read_line<'a>(
    alloc: Global,
    exports: &[Export],
    calls: &Calls,
    line: &'a [u8],
    list: &mut Vec<&'a [u8]>,
) -> Result<Option<Line>, NoMemory>
    ensures { IfOk result (FindsLine calls.now.processes (map signature_of exports.now) calls.now.events (words line.now)) }
{
    let Some((first, rest)) = next_word(line) else {
        return Ok(None);
    };
    match first {
        b"B" => read_begin(alloc, exports, calls, rest, list),
        b"E" => read_end(alloc, exports, calls, rest, list),
        b"A" => read_applied(calls.processes(), rest),
        b"O" => read_order(alloc, calls.processes(), rest),
        _ => Ok(None),
    }
}

/// What stands behind an `A`.
fn read_applied(processes: usize, line: &[u8]) -> Result<Option<Line>, NoMemory>
    ensures { IfOk result (λ read. MatchOption read
        ((ids : List Names.CallId) → AreIds processes (words line.now) ids → ⊥)
        (IsAppliedRead processes (words line.now))) }
{
    Ok(are_ids(processes, line).then_some(Line::Applied))
}

/// The order behind an `O`.
fn read_order(alloc: Global, processes: usize, line: &[u8]) -> Result<Option<Line>, NoMemory>
    ensures { IfOk result (λ read. MatchOption read
        ((ids : List Names.CallId) → AreIds processes (words line.now) ids → ⊥)
        (IsOrderRead processes (words line.now))) }
{
    let Some(order) = read_ids(alloc, processes, line)? else {
        return Ok(None);
    };
    Ok(Some(Line::Order(order)))
}

/// The call behind a `B`.
fn read_begin<'a>(
    alloc: Global,
    exports: &[Export],
    calls: &Calls,
    line: &'a [u8],
    list: &mut Vec<&'a [u8]>,
) -> Result<Option<Line>, NoMemory>
    ensures { IfOk result (FindsEvent calls.now.processes (map signature_of exports.now) calls.now.events (codes "B" ∷ words line.now)) }
{
    let Some((id, behind)) = take_id(calls.processes(), line) else {
        return Ok(None);
    };
    let Some((name, rest)) = next_word(behind) else {
        return Ok(None);
    };
    if !calls.may_begin(id) {
        return Ok(None);
    }
    let Some((proc, export)) = export_named(exports, name) else {
        return Ok(None);
    };
    let Some(args) = values_in(alloc, &export.formals, false, rest, list)? else {
        return Ok(None);
    };
    let kept = KeptCall::keep(alloc, &Call { proc, args })?;
    Ok(Some(Line::Begin(id, kept)))
}

/// The reply behind an `E`.
fn read_end<'a>(
    alloc: Global,
    exports: &[Export],
    calls: &Calls,
    line: &'a [u8],
    list: &mut Vec<&'a [u8]>,
) -> Result<Option<Line>, NoMemory>
    ensures { IfOk result (FindsEvent calls.now.processes (map signature_of exports.now) calls.now.events (codes "E" ∷ words line.now)) }
{
    let Some((id, rest)) = take_id(calls.processes(), line) else {
        return Ok(None);
    };
    let Some(proc) = calls.export_to_end(id) else {
        return Ok(None);
    };
    let Some(reply) = read_reply(alloc, exports, proc, rest, list)? else {
        return Ok(None);
    };
    let kept = KeptReply::keep(alloc, &reply)?;
    Ok(Some(Line::End(id, kept)))
}

/// The reply of an export's call: `done` and the values of its VAR parameters, or `trap` and a number.
pub fn read_reply<'a>(
    alloc: Global,
    exports: &[Export],
    proc: usize,
    line: &'a [u8],
    list: &mut Vec<&'a [u8]>,
) -> Result<Option<Reply>, AllocError>
    ensures { IfOk result (FindsAs reply_of (IsReply (map signature_of exports.now) proc (words line.now))) }
{
    let Some((kind, rest)) = next_word(line) else {
        return Ok(None);
    };
    match kind {
        b"done" => read_done(alloc, exports, proc, rest, list),
        b"trap" => {
            put_words(list, rest)?;
            Ok(read_trap(list))
        }
        _ => Ok(None),
    }
}

/// What stands behind `done`: the values of the VAR parameters.
fn read_done<'a>(
    alloc: Global,
    exports: &[Export],
    proc: usize,
    line: &'a [u8],
    list: &mut Vec<&'a [u8]>,
) -> Result<Option<Reply>, AllocError>
    ensures { IfOk result (FindsAs reply_of (IsReply (map signature_of exports.now) proc (codes "done" ∷ words line.now))) }
{
    let Some(export) = export_at(exports, proc) else {
        return Ok(None);
    };
    let Some(values) = values_in(alloc, &export.formals, true, line, list)? else {
        return Ok(None);
    };
    Ok(Some(Reply::Done(values)))
}

/// The values that a line says for the parameters of one mode, VAR or not; `None` where they don't fit. Its words are put in
/// place of those that the list has.
pub fn values_in<'a>(
    alloc: Global,
    formals: &[Formal],
    is_var: bool,
    line: &'a [u8],
    list: &mut Vec<&'a [u8]>,
) -> Result<Option<SmallVec<Scalar, 8>>, AllocError>
    ensures { IfOk result (FindsAs (λ values. values.items) (AreValues (types_of is_var formals.now) (words line.now))) }
{
    put_words(list, line)?;
    read_values(alloc, formals, is_var, list)
}

/// The export of a number.
pub fn export_at(exports: &[Export], number: usize) -> Option<&Export>
    ensures { option_map (λ e. signature_of e.now) result ≡ slice_get (map signature_of exports.now) number }
{
    exports.get(number)
}

/// A trap, whose number is all that is said.
fn read_trap(words: &[&[u8]]) -> Option<Reply>
    ensures { FindsTrap (map (λ w. w.now) words.now) result }
{
    let trap = read_only_number(words, 1, LAST_TRAP)?;
    Some(Reply::Trap(trap as u8))
}
