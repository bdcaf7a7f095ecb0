//! The line of a fault of a search for a legal order.

ghost use Rattle.std.specs.Prelude.{◌≡◌, IfOk, string_bytes};
ghost use Rattle.ob_fault_lines.specs.SearchFaultLines.{search_fault_line};

use crate::module_faults::{push_open_fault, push_text_fault};
use crate::script_faults::push_line_number;
use crate::verify_faults::push_call;
use ob_object_search::SearchFault;
use std::alloc::{AllocError, Global};

/// The line that tells why no legal order of a history is printed, without a line feed.
pub fn search_fault_line(alloc: Global, fault: SearchFault) -> Result<String, AllocError>
    ensures { IfOk result (λ line. string_bytes line ≡ search_fault_line fault) }
{
    let mut line = String::new(alloc);
    match fault {
        SearchFault::Text(fault) => push_text_fault(&mut line, fault)?,
        SearchFault::Form(number) => push_line_number(&mut line, "F1", number)?,
        SearchFault::Open(fault) => push_open_fault(&mut line, fault)?,
        SearchFault::Illegal(id) => push_call(&mut line, "X1", id)?,
        SearchFault::TooMany => line.push_str("X2")?,
        SearchFault::NoMemory => line.push_str("NoMemory")?,
    }
    Ok(line)
}
