//! The line of a fault of a record.

ghost use Rattle.std.specs.Prelude.{◌≡◌, ◌++◌, IfOk, OnOk, string_bytes};
ghost use Rattle.ob_fault_lines.specs.VerifyFaultLines.{of_call, order_line, verify_fault_line};

use crate::module_faults::{push_open_fault, push_text_fault};
use crate::script_faults::push_line_number;
use ob_object_calls::VerifyFault;
use ob_object_run::OrderFault;
use ob_text_record::push_id;
use std::alloc::{AllocError, Global};
use wf_history::CallId;

/// The line that tells why a record isn't verified, without a line feed.
pub fn verify_fault_line(alloc: Global, fault: VerifyFault) -> Result<String, AllocError>
    ensures { IfOk result (λ line. string_bytes line ≡ verify_fault_line fault) }
{
    let mut line = String::new(alloc);
    match fault {
        VerifyFault::Text(fault) => push_text_fault(&mut line, fault)?,
        VerifyFault::Form(number) => push_line_number(&mut line, "F1", number)?,
        VerifyFault::Open(fault) => push_open_fault(&mut line, fault)?,
        VerifyFault::Order(fault) => push_order_fault(&mut line, fault)?,
        VerifyFault::NoMemory => line.push_str("NoMemory")?,
    }
    Ok(line)
}

fn push_order_fault(line: &mut String, fault: OrderFault) -> Result<(), AllocError>
    ensures { OnOk result (string_bytes line.new ≡ string_bytes line.old ++ order_line fault) }
{
    match fault {
        OrderFault::Missing(id) => push_call(line, "H1", id),
        OrderFault::Unknown(id) => push_call(line, "H2", id),
        OrderFault::TooEarly(id) => push_call(line, "H3", id),
        OrderFault::OtherReply(id) => push_call(line, "H4", id),
        OrderFault::NoMemory => line.push_str("NoMemory"),
    }
}

/// Appends a fault of a call.
pub fn push_call(line: &mut String, fault: &str, id: CallId) -> Result<(), AllocError>
    ensures { OnOk result (string_bytes line.new ≡ string_bytes line.old ++ of_call fault.now id) }
{
    line.push_str(fault)?;
    line.push_str(" ")?;
    push_id(line, id)
}
