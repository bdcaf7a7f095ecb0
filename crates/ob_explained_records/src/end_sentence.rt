//! What is said of a call that can't have ended as it did. Only that what is shown is true is promised, by `evidence_of_text`.

use ob_interface::call::Reply;
use ob_interface::scalar::Scalar;
use ob_object_search::{Evidence, Search, SearchFault, evidence_of_text};
use ob_text_record::push_id;
use ob_text_words::numbers::push_number;
use ob_text_words::scalar_words::push_value;
use std::alloc::{AllocError, Global};
use wf_history::CallId;

/// How many calls of an order are listed at most.
const MOST_LISTED: usize = 8;

/// That a call can't have ended so, with what there is of the events before its end.
pub(crate) fn end_sentence(
    alloc: Global,
    object: &[u8],
    text: &[u8],
    id: CallId,
    search: &Search,
) -> Result<String, AllocError> {
    let mut sentence = String::from_str(alloc, "call ")?;
    push_id(&mut sentence, id)?;
    sentence.push_str(" can't have ended so: up to here the history has no legal order")?;
    match evidence_of_text(alloc, object, text, id, search) {
        Ok(Some(evidence)) => {
            push_order(&mut sentence, evidence.order.as_slice())?;
            push_open(&mut sentence, id, evidence.open_calls.as_slice())?;
            push_replies(&mut sentence, id, evidence.replies.as_slice())?;
        }
        Err(SearchFault::NoMemory) => return Err(AllocError),
        _ => {}
    }
    Ok(sentence)
}

/// Appends the last calls of an order.
fn push_order(text: &mut String, order: &[CallId]) -> Result<(), AllocError> {
    if order.is_empty() {
        return text.push_str("\nup to the event before, no call need have been made");
    }
    text.push_str("\nup to the event before it has one, as O")?;
    let left = order.len().saturating_sub(MOST_LISTED);
    if left > 0 {
        text.push_str(" ..")?;
    }
    push_ids(text, &order[left..])?;
    if left > 0 {
        text.push_str(", with ")?;
        push_number(text, left)?;
        text.push_str(" more before these")?;
    }
    Ok(())
}

/// Appends the other calls that were open.
fn push_open(text: &mut String, id: CallId, ids: &[CallId]) -> Result<(), AllocError> {
    if ids.len() <= 1 {
        return text.push_str("\nno other call was open there");
    }
    text.push_str("\nopen there:")?;
    for other in ids {
        if *other != id {
            text.push_str(" ")?;
            push_id(text, *other)?;
        }
    }
    Ok(())
}

/// Appends the replies that the call could have had.
fn push_replies(text: &mut String, id: CallId, replies: &[Reply]) -> Result<(), AllocError> {
    if replies.is_empty() {
        return text.push_str("\nno reply was found with which it could have ended there");
    }
    text.push_str("\ncall ")?;
    push_id(text, id)?;
    text.push_str(" could have ended with")?;
    for (index, reply) in replies.iter().enumerate() {
        if index > 0 {
            text.push_str(", or with")?;
        }
        push_reply(text, reply)?;
    }
    Ok(())
}

/// Appends a reply, as it stands behind the id of a call.
fn push_reply(text: &mut String, reply: &Reply) -> Result<(), AllocError> {
    match reply {
        Reply::Done(values) => push_values(text, values.as_slice()),
        Reply::Trap(trap) => {
            text.push_str(" trap ")?;
            push_number(text, *trap)
        }
    }
}

/// Appends what stands behind the id of a call that is done.
fn push_values(text: &mut String, values: &[Scalar]) -> Result<(), AllocError> {
    text.push_str(" done")?;
    for value in values {
        text.push_str(" ")?;
        push_value(text, *value)?;
    }
    Ok(())
}

/// Appends the ids of calls, each with a space before it.
fn push_ids(text: &mut String, ids: &[CallId]) -> Result<(), AllocError> {
    for id in ids {
        text.push_str(" ")?;
        push_id(text, *id)?;
    }
    Ok(())
}
