//! The line of a fault of a record from whose values an object is to begin.

ghost use Rattle.std.specs.Prelude.{◌≡◌, IfOk, string_bytes};
ghost use Rattle.ob_fault_lines.specs.ValuesFaultLines.{values_fault_line};

use crate::script_faults::push_line_number;
use ob_text_values_reading::ValuesFault;
use std::alloc::{AllocError, Global};

/// The line that tells why a record tells no values, without a line feed.
pub fn values_fault_line(alloc: Global, fault: ValuesFault) -> Result<String, AllocError>
    ensures { IfOk result (λ line. string_bytes line ≡ values_fault_line fault) }
{
    let mut line = String::new(alloc);
    match fault {
        ValuesFault::Form(number) => push_line_number(&mut line, "F1", number)?,
        ValuesFault::NoMemory => line.push_str("NoMemory")?,
    }
    Ok(line)
}
