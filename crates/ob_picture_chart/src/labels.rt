//! The words at a call.

ghost use Rattle.std.specs.Prelude.{◌≡◌, ◌++◌, OnOk, length, map, string_bytes};
ghost use Rattle.ob_interface.specs.View.{signature_of};
ghost use Rattle.ob_picture_chart.specs.Labels.{answer_words, call_words, front, head_words, id_words, name_words, reply_words, short, short_again, short_call, value_words};
ghost use Rattle.wf_history.specs.View.{seen_call, seen_reply};

use ob_interface::export::Export;
use ob_interface::scalar::Scalar;
use ob_text_words::numbers::push_number;
use ob_text_words::scalar_words::push_value;
use std::alloc::{AllocError, Global};
use wf_history::{CallId, SeenCall, SeenReply};

/// The id of a call, as `0.2` for the second call of process 0.
#[tactic(auto, unfolding(crate::specs::Labels::id_words))]
pub fn push_id(text: &mut String, id: CallId) -> Result<(), AllocError>
    ensures { OnOk result (string_bytes text.new ≡ string_bytes text.old ++ id_words id) }
{
    push_number(text, id.process)?;
    text.push_str(".")?;
    push_number(text, id.number)
}

/// The name of a call's export.
#[tactic(auto, unfolding(crate::specs::Labels::name_words))]
fn name_of<'a>(exports: &'a [Export], call: SeenCall) -> &'a str
    ensures { result.now ≡ name_words (map signature_of exports.now) (seen_call call.entry) }
{
    match exports.get(call.proc) {
        Some(export) => export.name.as_str(),
        None => "",
    }
}

/// Values, each with a space before it.
#[tactic(auto, unfolding(crate::specs::Labels::value_words))]
fn push_values(text: &mut String, values: &[Scalar]) -> Result<(), AllocError>
    ensures { OnOk result (string_bytes text.new ≡ string_bytes text.old ++ value_words values.now) }
{
    for value in values {
        text.push_str(" ")?;
        push_value(text, *value)?;
    }
    Ok(())
}

/// The id and the name of a call.
#[tactic(auto, unfolding(crate::specs::Labels::head_words))]
fn push_head(
    text: &mut String,
    exports: &[Export],
    id: CallId,
    call: SeenCall,
) -> Result<(), AllocError>
    ensures { OnOk result (string_bytes text.new ≡ string_bytes text.old ++ head_words (map signature_of exports.now) id (seen_call call.entry)) }
{
    push_id(text, id)?;
    text.push_str(" ")?;
    text.push_str(name_of(exports, call))
}

/// A call: its id, its name and its arguments.
#[tactic(auto, unfolding(crate::specs::Labels::call_words))]
pub fn push_call(
    text: &mut String,
    exports: &[Export],
    id: CallId,
    call: SeenCall,
) -> Result<(), AllocError>
    ensures { OnOk result (string_bytes text.new ≡ string_bytes text.old ++ call_words (map signature_of exports.now) id (seen_call call.entry)) }
{
    push_head(text, exports, id, call)?;
    push_values(text, call.args.lent().as_slice())
}

/// A reply: its values, or its trap.
#[tactic(auto, unfolding(crate::specs::Labels::reply_words))]
pub fn push_reply(text: &mut String, reply: SeenReply) -> Result<(), AllocError>
    ensures { OnOk result (string_bytes text.new ≡ string_bytes text.old ++ reply_words (seen_reply reply.entry)) }
{
    match reply {
        SeenReply::Done(values) => {
            text.push_str("done")?;
            push_values(text, values.lent().as_slice())
        }
        SeenReply::Trap(trap) => {
            text.push_str("trap ")?;
            push_number(text, trap)
        }
    }
}

/// A reply by its values alone, where it has some.
#[tactic(auto, unfolding(crate::specs::Labels::answer_words))]
pub(crate) fn push_answer_words(text: &mut String, reply: SeenReply) -> Result<(), AllocError>
    ensures { OnOk result (string_bytes text.new ≡ string_bytes text.old ++ answer_words (seen_reply reply.entry)) }
{
    match reply {
        SeenReply::Done(values) if values.is_empty() => text.push_str("done"),
        SeenReply::Done(values) => {
            text.push_str("=")?;
            push_values(text, values.lent().as_slice())
        }
        SeenReply::Trap(trap) => {
            text.push_str("trap ")?;
            push_number(text, trap)
        }
    }
}

/// A reply in the room for so many letters.
pub fn push_short_answer(
    alloc: Global,
    text: &mut String,
    reply: SeenReply,
    room: u128,
) -> Result<(), AllocError>
    ensures { OnOk result (string_bytes text.new ≡ string_bytes text.old ++ short room (answer_words (seen_reply reply.entry))) }
{
    let mut whole = String::new(alloc);
    push_answer_words(&mut whole, reply)?;
    push_short(text, whole.as_str(), room)
}

/// A call that stands there again: where there is no room for all, its arguments are left away.
#[tactic(auto, unfolding(crate::specs::Labels::short_again))]
pub fn push_short_again(
    alloc: Global,
    text: &mut String,
    exports: &[Export],
    id: CallId,
    call: SeenCall,
    room: u128,
) -> Result<(), AllocError>
    ensures { OnOk result (string_bytes text.new ≡ string_bytes text.old ++ short_again room (map signature_of exports.now) id (seen_call call.entry)) }
{
    let mut whole = String::new(alloc);
    push_call(&mut whole, exports, id, call)?;
    if whole.as_str().len() as u128 <= room {
        return text.push_str(whole.as_str());
    }
    let mut head = String::new(alloc);
    push_head(&mut head, exports, id, call)?;
    push_short(text, head.as_str(), room)
}

/// A call in the room for so many letters: its name is shortened, or, if that isn't enough, all.
#[tactic(auto, unfolding(crate::specs::Labels::short_call, crate::specs::Labels::name_room))]
pub fn push_short_call(
    alloc: Global,
    text: &mut String,
    exports: &[Export],
    id: CallId,
    call: SeenCall,
    room: u128,
) -> Result<(), AllocError>
    ensures { OnOk result (string_bytes text.new ≡ string_bytes text.old ++ short_call room (map signature_of exports.now) id (seen_call call.entry)) }
{
    let mut whole = String::new(alloc);
    push_call(&mut whole, exports, id, call)?;
    let name = name_of(exports, call);
    let length = whole.as_str().len() as u128;
    let name_room = (name.len() as u128).saturating_sub(length.saturating_sub(room));
    if length <= room || name_room < 4 {
        return push_short(text, whole.as_str(), room);
    }
    push_id(text, id)?;
    text.push_str(" ")?;
    push_short(text, name, name_room)?;
    push_values(text, call.args.lent().as_slice())
}

/// A text in the room for so many letters: where it has more, dots stand for its end.
#[tactic(auto, unfolding(crate::specs::Labels::short))]
fn push_short(text: &mut String, whole: &str, room: u128) -> Result<(), AllocError>
    ensures { OnOk result (string_bytes text.new ≡ string_bytes text.old ++ short room whole.now) }
{
    if whole.len() as u128 <= room {
        return text.push_str(whole);
    }
    text.push_str(front(whole, room.saturating_sub(1) as usize))?;
    text.push_str("\u{2026}")
}

/// The first letters of a text, where a letter of ASCII stands behind them.
#[tactic(auto, unfolding(crate::specs::Labels::front))]
fn front(whole: &str, count: usize) -> &str
    ensures { result.now ≡ front count whole.now }
{
    match whole.as_bytes().get(count) {
        Some(letter) if *letter < 128 => &whole[..count],
        _ => whole,
    }
}
