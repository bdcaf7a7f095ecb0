//! The line of a fault of a search for legal orders of the parts of a history.

ghost use Rattle.std.specs.Prelude.{◌≡◌, ◌++◌, IfOk, OnOk, string_bytes};
ghost use Rattle.ob_fault_lines.specs.PartsFaultLines.{of_part, parts_fault_line};

use crate::module_faults::{push_open_fault, push_text_fault};
use crate::script_faults::push_line_number;
use crate::verify_faults::push_call;
use ob_interface::scalar::Scalar;
use ob_object_search::PartsFault;
use ob_text_words::scalar_words::push_value;
use std::alloc::{AllocError, Global};
use wf_history::CallId;

/// The line that tells why no legal orders of the parts of a history are printed, without a line feed.
pub fn parts_fault_line(alloc: Global, fault: PartsFault) -> Result<String, AllocError>
    ensures { IfOk result (λ line. string_bytes line ≡ parts_fault_line fault) }
{
    let mut line = String::new(alloc);
    match fault {
        PartsFault::Text(fault) => push_text_fault(&mut line, fault)?,
        PartsFault::Form(number) => push_line_number(&mut line, "F1", number)?,
        PartsFault::Open(fault) => push_open_fault(&mut line, fault)?,
        PartsFault::Short(id) => push_call(&mut line, "X4", id)?,
        PartsFault::Illegal(id, value) => push_part(&mut line, id, value)?,
        PartsFault::TooMany => line.push_str("X2")?,
        PartsFault::NoMemory => line.push_str("NoMemory")?,
    }
    Ok(line)
}

/// Appends X1 of a call of the part that has a value.
fn push_part(line: &mut String, id: CallId, value: Scalar) -> Result<(), AllocError>
    ensures { OnOk result (string_bytes line.new ≡ string_bytes line.old ++ of_part id value) }
{
    push_call(line, "X1", id)?;
    line.push_str(" by ")?;
    push_value(line, value)
}
