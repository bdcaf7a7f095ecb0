//! What is said of a call that comes to another reply than its record says.

ghost use Rattle.std.specs.Prelude.{◌≡◌, ◌++◌, codes, IfOk, OnOk, option_map, string_bytes};
ghost use Rattle.std.specs.List.{flat_map};
ghost use Rattle.ob_explained_records.specs.MadeTexts.{before_text, last_calls, last_ids, made_text, other_reply_text};
ghost use Rattle.ob_mean.specs.View.{reply_of};
ghost use Rattle.ob_object_calls.specs.View.{made_of};
ghost use Rattle.ob_text_words.specs.ReplyLines.{reply_text};
ghost use Rattle.ob_text_record.specs.RecordText.{ids_text};
ghost use Rattle.ob_text_words.specs.ScalarTexts.{scalar_text};

use ob_interface::scalar::Scalar;
use ob_mean::call::Reply;
use ob_object_calls::MadeCall;
use ob_text_record::push_id;
use ob_text_words::numbers::push_number;
use ob_text_words::scalar_words::push_value;
use std::alloc::{AllocError, Global};
use wf_history::CallId;

/// How many calls are listed at most.
const MOST_LISTED: usize = 8;

/// That a call has another reply, and which, where it is known.
pub(crate) fn other_reply_text(alloc: Global, made: Option<MadeCall>) -> Result<String, AllocError>
    ensures { IfOk result (λ what. string_bytes what ≡ other_reply_text (option_map made_of made)) }
{
    match made {
        Some(made) => made_text(alloc, &made),
        None => String::from_str(
            alloc,
            " has another reply when the calls are made one at a time in the order",
        ),
    }
}

/// What the record says of a call, and what it comes to.
fn made_text(alloc: Global, made: &MadeCall) -> Result<String, AllocError>
    ensures { IfOk result (λ what. string_bytes what ≡ made_text (made_of made.now)) }
{
    let mut what = String::from_str(alloc, " says")?;
    push_reply(&mut what, &made.told)?;
    what.push_str("; made one at a time in the order,")?;
    push_before(&mut what, made.before.as_slice())?;
    what.push_str(", it is")?;
    push_reply(&mut what, &made.meant)?;
    Ok(what)
}

/// Appends the calls that stand before one in an order.
fn push_before(text: &mut String, ids: &[CallId]) -> Result<(), AllocError>
    ensures { OnOk result (string_bytes text.new ≡ string_bytes text.old ++ before_text ids.now) }
{
    if ids.is_empty() {
        text.push_str(" as the first")
    } else {
        text.push_str(" after")?;
        push_last(text, ids)
    }
}

/// Appends the last ones of some calls, and two dots for those before them.
fn push_last(text: &mut String, ids: &[CallId]) -> Result<(), AllocError>
    ensures { OnOk result (string_bytes text.new ≡ string_bytes text.old ++ last_calls ids.now) }
{
    if ids.len() > MOST_LISTED {
        text.push_str(" ..")?;
        push_ids(text, last_ids(ids))
    } else {
        push_ids(text, ids)
    }
}

/// The last ones of some calls.
fn last_ids(ids: &[CallId]) -> &[CallId]
    ensures { result.now ≡ last_ids ids.now }
{
    let left = ids.len().saturating_sub(MOST_LISTED);
    &ids[left..]
}

/// Appends the ids of calls, each with a space before it.
fn push_ids(text: &mut String, ids: &[CallId]) -> Result<(), AllocError>
    ensures { OnOk result (string_bytes text.new ≡ string_bytes text.old ++ ids_text ids.now) }
{
    for id in ids {
        text.push_str(" ")?;
        push_id(text, *id)?;
    }
    Ok(())
}

/// Appends a reply, as it stands behind the id of a call.
fn push_reply(text: &mut String, reply: &Reply) -> Result<(), AllocError>
    ensures { OnOk result (string_bytes text.new ≡ string_bytes text.old ++ reply_text (reply_of reply.now)) }
{
    match reply {
        Reply::Answers(values) => push_values(text, values.as_slice()),
        Reply::Trapped(trap) => {
            text.push_str(" trap ")?;
            push_number(text, *trap)
        }
    }
}

/// Appends what stands behind the id of a call that is done.
fn push_values(text: &mut String, values: &[Scalar]) -> Result<(), AllocError>
    ensures { OnOk result (string_bytes text.new ≡ string_bytes text.old ++ (codes " done" ++ flat_map (λ v. codes " " ++ scalar_text v) values.now)) }
{
    text.push_str(" done")?;
    for value in values {
        text.push_str(" ")?;
        push_value(text, *value)?;
    }
    Ok(())
}
