//! Reply lines: what is printed of the replies to calls.

ghost use Rattle.std.specs.Prelude.{◌≡◌, ◌++◌, codes, decimal, OnErr, OnOk, string_bytes};
ghost use Rattle.std.specs.List.{flat_map};
ghost use Rattle.ob_interface.specs.Call.{Answers, Trapped};
ghost use Rattle.ob_interface.specs.View.{reply_of};
ghost use Rattle.ob_text_words.specs.ReplyLines.{reply_line};
ghost use Rattle.ob_text_words.specs.ScalarTexts.{scalar_text};
ghost use Rattle.ob_text_words.specs.Appending.{GoesOn};

use crate::numbers::{push_count, push_number};
use crate::scalar_words::push_value;
use ob_interface::call::Reply;
use ob_interface::scalar::Scalar;
use std::alloc::AllocError;

/// Appends the line of a reply to a process's call of a number.
pub fn push_reply_line(
    text: &mut String,
    process: usize,
    number: u64,
    reply: &Reply,
) -> Result<(), AllocError>
    ensures ok { OnOk result (string_bytes text.new ≡ string_bytes text.old ++ reply_line process number (reply_of reply.now)) }
    ensures left { OnErr result (GoesOn (string_bytes text.old) (string_bytes text.new)) }
{
    match reply {
        Reply::Done(values) => push_done_line(text, process, number, values),
        Reply::Trap(trap) => push_trap_line(text, process, number, *trap),
    }
}

/// Appends the line of a process's call of a number that is done, with its values.
pub fn push_done_line(
    text: &mut String,
    process: usize,
    number: u64,
    values: &[Scalar],
) -> Result<(), AllocError>
    ensures ok { OnOk result (string_bytes text.new ≡ string_bytes text.old ++ reply_line process number (Answers values.now)) }
    ensures left { OnErr result (GoesOn (string_bytes text.old) (string_bytes text.new)) }
{
    push_ended(text, process, number)?;
    push_values(text, values)?;
    text.push_str("\n")
}

/// Appends the line of a process's call of a number that traps.
pub fn push_trap_line(
    text: &mut String,
    process: usize,
    number: u64,
    trap: u8,
) -> Result<(), AllocError>
    ensures ok { OnOk result (string_bytes text.new ≡ string_bytes text.old ++ reply_line process number (Trapped trap)) }
    ensures left { OnErr result (GoesOn (string_bytes text.old) (string_bytes text.new)) }
{
    push_ended(text, process, number)?;
    push_trap(text, trap)?;
    text.push_str("\n")
}

/// Appends what says which call has ended.
#[inline]
fn push_ended(text: &mut String, process: usize, number: u64) -> Result<(), AllocError>
    ensures ok { OnOk result (string_bytes text.new ≡ string_bytes text.old ++ (codes "E " ++ decimal process ++ codes "." ++ decimal number)) }
    ensures left { OnErr result (GoesOn (string_bytes text.old) (string_bytes text.new)) }
{
    text.push_str("E ")?;
    push_count(text, process as u64)?;
    text.push_str(".")?;
    push_count(text, number)
}

/// Appends what stands behind the id of a call that traps.
fn push_trap(text: &mut String, trap: u8) -> Result<(), AllocError>
    ensures ok { OnOk result (string_bytes text.new ≡ string_bytes text.old ++ (codes " trap " ++ decimal trap)) }
    ensures left { OnErr result (GoesOn (string_bytes text.old) (string_bytes text.new)) }
{
    text.push_str(" trap ")?;
    push_number(text, trap)
}

/// Appends what stands behind the id of a call that is done.
fn push_values(text: &mut String, values: &[Scalar]) -> Result<(), AllocError>
    ensures ok { OnOk result (string_bytes text.new ≡ string_bytes text.old ++ (codes " done" ++ flat_map (λ v. codes " " ++ scalar_text v) values.now)) }
    ensures left { OnErr result (GoesOn (string_bytes text.old) (string_bytes text.new)) }
{
    text.push_str(" done")?;
    for value in values {
        text.push_str(" ")?;
        push_value(text, *value)?;
    }
    Ok(())
}
