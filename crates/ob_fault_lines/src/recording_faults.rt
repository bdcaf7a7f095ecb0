//! The line of a fault of the record of a history with a legal order.

ghost use Rattle.std.specs.Prelude.{◌≡◌, IfOk, string_bytes};
ghost use Rattle.ob_fault_lines.specs.RecordingFaultLines.{recording_fault_line};

use crate::search_faults::search_fault_line;
use ob_object_search::RecordingFault;
use std::alloc::{AllocError, Global};

/// The line that tells why no record of a history with a legal order is printed, without a line feed.
pub fn recording_fault_line(alloc: Global, fault: RecordingFault) -> Result<String, AllocError>
    ensures { IfOk result (λ line. string_bytes line ≡ recording_fault_line fault) }
{
    match fault {
        RecordingFault::Search(fault) => search_fault_line(alloc, fault),
        RecordingFault::Processes => String::from_str(alloc, "N1"),
    }
}
