//! The lines of calls that ended.

ghost use Rattle.std.specs.Prelude.{◌≡◌, ◌++◌, IfOk, OnErr, OnOk, string_bytes};
ghost use Rattle.ob_object_perform.specs.Spent.{steps_line, steps_text};
ghost use Rattle.ob_text_words.specs.Appending.{GoesOn};

use ob_text_record::push_id;
use ob_text_words::numbers::push_number;
use std::alloc::{AllocError, Global};
use wf_play::EndedCall;

/// A line for each call that ended, with its own steps.
pub(crate) fn steps_text(alloc: Global, ended: &[EndedCall]) -> Result<String, AllocError>
    ensures { IfOk result (λ text. string_bytes text ≡ steps_text ended.now) }
{
    let mut text = String::new(alloc);
    push_lines(&mut text, ended)?;
    Ok(text)
}

/// Appends a line for each call.
fn push_lines(text: &mut String, ended: &[EndedCall]) -> Result<(), AllocError>
    ensures ok { OnOk result (string_bytes text.new ≡ string_bytes text.old ++ steps_text ended.now) }
    ensures left { OnErr result (GoesOn (string_bytes text.old) (string_bytes text.new)) }
{
    for call in ended {
        push_line(text, *call)?;
    }
    Ok(())
}

/// Appends the line of a call, as `0.1 37` and a line feed.
fn push_line(text: &mut String, call: EndedCall) -> Result<(), AllocError>
    ensures ok { OnOk result (string_bytes text.new ≡ string_bytes text.old ++ steps_line call) }
    ensures left { OnErr result (GoesOn (string_bytes text.old) (string_bytes text.new)) }
{
    push_id(text, call.id)?;
    text.push_str(" ")?;
    push_number(text, call.steps)?;
    text.push_str("\n")
}
