//! Lines that outcomes have.

ghost use Rattle.std.specs.Prelude.{◌≡◌, ◌++◌, OnOk, string_bytes};
ghost use Rattle.ob_text_record.specs.RecordText.{ids_text, order_text};

use ob_text_record::push_id;
use std::alloc::AllocError;
use wf_history::CallId;

/// Appends the line of an order.
pub fn push_order(text: &mut String, order: &[CallId]) -> Result<(), AllocError>
    ensures { OnOk result (string_bytes text.new ≡ string_bytes text.old ++ order_text order.now) }
{
    text.push_str("O")?;
    push_ids(text, order)?;
    text.push_str("\n")
}

/// Appends the names of calls, each with a space before it.
pub fn push_ids(text: &mut String, ids: &[CallId]) -> Result<(), AllocError>
    ensures { OnOk result (string_bytes text.new ≡ string_bytes text.old ++ ids_text ids.now) }
{
    for id in ids {
        text.push_str(" ")?;
        push_id(text, *id)?;
    }
    Ok(())
}
