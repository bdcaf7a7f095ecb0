//! What is wrong with the order of a record, in a sentence.

ghost use Rattle.std.specs.Prelude.{◌≡◌, ◌++◌, IfOk, OnOk, option_map, string_bytes};
ghost use Rattle.ob_explain_sentences.specs.Remarks.{remark_of};
ghost use Rattle.ob_explained_records.specs.OrderRemarks.{IsCallSentence, IsEndLine, IsEndRemark, IsOrderLineRemark, IsOrderRemark, IsOtherReplyRemark};
ghost use Rattle.ob_explained_records.specs.OrderRemarks.{IsTooEarlyRemark, IsUnknownRemark, early_text, line_text, told_at};

use crate::order_place::{place_in_order, place_of_end};
use crate::reply_sentence::other_reply_text;
use ob_explain_sentences::remark::Remark;
use ob_explained_lines::record_line::{Wanted, first_line};
use ob_object_calls::{call_made, call_overtaken};
use ob_object_run::OrderFault;
use ob_text_record::push_id;
use ob_text_words::numbers::push_number;
use std::alloc::{AllocError, Global};
use wf_history::CallId;

/// The remark on a fault of the order of a record of a module's object; `None` for want of memory, and where the record has no line that
/// shows it.
pub fn order_remark(
    alloc: Global,
    object: &[u8],
    text: &[u8],
    fault: OrderFault,
) -> Result<Option<Remark>, AllocError>
    ensures { IfOk result (λ remark. IsOrderRemark object.now text.now fault (option_map remark_of remark)) }
{
    match fault {
        OrderFault::Missing(id) => end_remark(
            alloc,
            text,
            id,
            " ended, and is missing in the order",
        ),
        OrderFault::Unknown(id) => unknown_remark(alloc, text, id),
        OrderFault::TooEarly(id) => too_early_remark(alloc, object, text, id),
        OrderFault::OtherReply(id) => other_reply_remark(alloc, object, text, id),
        OrderFault::NoMemory => Ok(None),
    }
}

/// The remark on a call that stands before one that had ended when it began.
fn too_early_remark(
    alloc: Global,
    object: &[u8],
    text: &[u8],
    id: CallId,
) -> Result<Option<Remark>, AllocError>
    ensures { IfOk result (λ remark. IsTooEarlyRemark object.now text.now id (option_map remark_of remark)) }
{
    let Ok(other) = call_overtaken(alloc, object, text, id) else {
        return Err(AllocError);
    };
    let line = end_line(alloc, text, other)?;
    let what = early_text(alloc, other, line)?;
    order_line_remark(alloc, text, id, false, what.as_str())
}

/// The line of a call's end, where there are both.
fn end_line(alloc: Global, text: &[u8], id: Option<CallId>) -> Result<Option<usize>, AllocError>
    ensures { IfOk result (IsEndLine text.now id) }
{
    match id {
        Some(id) => first_line(alloc, text, Wanted::End(id)),
        None => Ok(None),
    }
}

/// That a call stands too early, and before which one, where it is known.
fn early_text(
    alloc: Global,
    other: Option<CallId>,
    line: Option<usize>,
) -> Result<String, AllocError>
    ensures { IfOk result (λ what. string_bytes what ≡ early_text other line) }
{
    match other {
        Some(other) => {
            let mut what = String::from_str(alloc, " stands in the order before ")?;
            push_id(&mut what, other)?;
            what.push_str(", which ended")?;
            push_line(&mut what, " in line ", line)?;
            what.push_str(", before it began")?;
            Ok(what)
        }
        None => String::from_str(
            alloc,
            " stands in the order before a call that had ended when it began",
        ),
    }
}

/// The remark on a call that has another reply in the record than by the module.
fn other_reply_remark(
    alloc: Global,
    object: &[u8],
    text: &[u8],
    id: CallId,
) -> Result<Option<Remark>, AllocError>
    ensures { IfOk result (λ remark. IsOtherReplyRemark object.now text.now id (option_map remark_of remark)) }
{
    let Ok(made) = call_made(alloc, object, text, id) else {
        return Err(AllocError);
    };
    let what = other_reply_text(alloc, made)?;
    end_remark(alloc, text, id, what.as_str())
}

/// The remark on a call that can't stand in the order where it stands.
fn unknown_remark(alloc: Global, text: &[u8], id: CallId) -> Result<Option<Remark>, AllocError>
    ensures { IfOk result (λ remark. IsUnknownRemark text.now id (option_map remark_of remark)) }
{
    match first_line(alloc, text, Wanted::Begin(id))? {
        Some(_) => order_line_remark(
            alloc,
            text,
            id,
            true,
            " stands in the order before, and a call stands there once",
        ),
        None => order_line_remark(
            alloc,
            text,
            id,
            false,
            " never began, so it can't stand in the order",
        ),
    }
}

/// A remark at a call's name in the line of its end.
fn end_remark(
    alloc: Global,
    text: &[u8],
    id: CallId,
    what: &str,
) -> Result<Option<Remark>, AllocError>
    ensures { IfOk result (λ remark. IsEndRemark text.now id what.now (option_map remark_of remark)) }
{
    let place = place_of_end(alloc, text, id)?;
    let sentence = call_sentence(alloc, text, id, what)?;
    Ok(told_at(place, sentence))
}

/// A remark at a call's name in the order, or where it stands there again.
fn order_line_remark(
    alloc: Global,
    text: &[u8],
    id: CallId,
    again: bool,
    what: &str,
) -> Result<Option<Remark>, AllocError>
    ensures { IfOk result (λ remark. IsOrderLineRemark text.now id again what.now (option_map remark_of remark)) }
{
    let place = place_in_order(alloc, text, id, again)?;
    let sentence = call_sentence(alloc, text, id, what)?;
    Ok(told_at(place, sentence))
}

/// What is said of a call, with its lines.
fn call_sentence(alloc: Global, text: &[u8], id: CallId, what: &str) -> Result<String, AllocError>
    ensures { IfOk result (λ sentence. IsCallSentence text.now id what.now (string_bytes sentence)) }
{
    let begin = first_line(alloc, text, Wanted::Begin(id))?;
    let end = first_line(alloc, text, Wanted::End(id))?;
    let mut sentence = String::from_str(alloc, "call ")?;
    push_id(&mut sentence, id)?;
    sentence.push_str(what)?;
    push_line(&mut sentence, "; it begins in line ", begin)?;
    push_line(&mut sentence, ", and ends in line ", end)?;
    Ok(sentence)
}

/// Appends the number of a line behind some words, where there is that line.
fn push_line(sentence: &mut String, words: &str, line: Option<usize>) -> Result<(), AllocError>
    ensures { OnOk result (string_bytes sentence.new ≡ string_bytes sentence.old ++ line_text words.now line) }
{
    match line {
        Some(number) => {
            sentence.push_str(words)?;
            push_number(sentence, number)
        }
        None => Ok(()),
    }
}

/// A remark at a place, where there is one.
fn told_at(place: Option<usize>, sentence: String) -> Option<Remark>
    ensures { option_map remark_of result ≡ told_at place (string_bytes sentence) }
{
    match place {
        Some(place) => Some(Remark {
            place,
            sentence,
            hint: None,
        }),
        None => None,
    }
}
