//! The line of a fault of the picture of a history.

ghost use Rattle.std.specs.Prelude.{◌≡◌, IfOk, string_bytes};
ghost use Rattle.ob_fault_lines.specs.HistoryFaultLines.{draw_history_fault_line};

use crate::draw_faults::picture_fault_line;
use crate::search_faults::search_fault_line;
use ob_object_draw::DrawHistoryFault;
use std::alloc::{AllocError, Global};

/// The line that tells why no picture of a history is printed, without a line feed.
pub fn draw_history_fault_line(alloc: Global, fault: DrawHistoryFault) -> Result<String, AllocError>
    ensures { IfOk result (λ line. string_bytes line ≡ draw_history_fault_line fault) }
{
    match fault {
        DrawHistoryFault::Search(fault) => search_fault_line(alloc, fault),
        DrawHistoryFault::Processes => String::from_str(alloc, "N1"),
        DrawHistoryFault::Calls(fault) => picture_fault_line(alloc, fault),
    }
}
