//! Orders of calls as they are printed.

ghost use Rattle.std.specs.Prelude.{◌≡◌, ◌++◌, IfOk, OnOk, string_bytes};
ghost use Rattle.std.specs.List.{flat_map};
ghost use Rattle.ob_text_record.specs.RecordText.{ids_text, order_text};

use ob_object_search::Part;
use ob_text_record::push_id;
use std::alloc::{AllocError, Global};
use wf_history::CallId;

/// The line of an order, as records have it.
pub(crate) fn order_line(alloc: Global, order: &[CallId]) -> Result<String, AllocError>
    ensures { IfOk result (λ line. string_bytes line ≡ order_text order.now) }
{
    let mut line = String::new(alloc);
    push_order(&mut line, order)?;
    Ok(line)
}

/// The lines of the orders of parts.
pub(crate) fn part_lines(alloc: Global, parts: &[Part]) -> Result<String, AllocError>
    ensures { IfOk result (λ lines. string_bytes lines ≡ flat_map (λ part. order_text part.order.items) parts.now) }
{
    let mut lines = String::new(alloc);
    for part in parts {
        push_order(&mut lines, part.order.as_slice())?;
    }
    Ok(lines)
}

/// Appends the line of an order.
fn push_order(lines: &mut String, order: &[CallId]) -> Result<(), AllocError>
    ensures { OnOk result (string_bytes lines.new ≡ string_bytes lines.old ++ order_text order.now) }
{
    lines.push_str("O")?;
    push_ids(lines, order)?;
    lines.push_str("\n")
}

/// Appends the ids of calls, each with a space before it.
fn push_ids(line: &mut String, ids: &[CallId]) -> Result<(), AllocError>
    ensures { OnOk result (string_bytes line.new ≡ string_bytes line.old ++ ids_text ids.now) }
{
    for id in ids {
        line.push_str(" ")?;
        push_id(line, *id)?;
    }
    Ok(())
}
