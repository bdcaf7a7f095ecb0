//! The line of a fault of workers.

ghost use Rattle.std.specs.Prelude.{◌≡◌, ◌++◌, IfOk, OnOk, string_bytes};
ghost use Rattle.ob_fault_lines.specs.ServeFaultLines.{close_line, of_process, serve_fault_line, serve_line};
ghost use Rattle.ob_object_compile.specs.View.{beginning_of};

use crate::run_faults::push_run_fault;
use ob_desk_floor::CloseFault;
use ob_desk_serve::{ServeFault, ServeTextFault};
use ob_object_compile::Beginning;
use ob_text_words::numbers::push_number;
use std::alloc::{AllocError, Global};

/// The line of a fault of workers on an object that is to begin so, without a line feed.
pub fn serve_fault_line(
    alloc: Global,
    beginning: Beginning<'_>,
    fault: ServeTextFault,
) -> Result<String, AllocError>
    ensures { IfOk result (λ line. string_bytes line ≡ serve_fault_line (beginning_of beginning.entry) fault) }
{
    let mut line = String::new(alloc);
    match fault {
        ServeTextFault::Texts(fault) => push_run_fault(&mut line, beginning, fault)?,
        ServeTextFault::Serve(fault) => push_serve_fault(&mut line, fault)?,
        ServeTextFault::NoMemory => line.push_str("NoMemory")?,
    }
    Ok(line)
}

fn push_serve_fault(line: &mut String, fault: ServeFault) -> Result<(), AllocError>
    ensures { OnOk result (string_bytes line.new ≡ string_bytes line.old ++ serve_line fault) }
{
    match fault {
        ServeFault::NotStarted(process) => push_process(line, "V3", process),
        ServeFault::NoMemory => line.push_str("NoMemory"),
        ServeFault::Refused(process) => push_process(line, "V1", process),
        ServeFault::Lost(process) => push_process(line, "V2", process),
        ServeFault::Close(fault) => push_close_fault(line, fault),
    }
}

fn push_close_fault(line: &mut String, fault: CloseFault) -> Result<(), AllocError>
    ensures { OnOk result (string_bytes line.new ≡ string_bytes line.old ++ close_line fault) }
{
    match fault {
        CloseFault::Stranger(process) => push_process(line, "K1", process),
        CloseFault::Uneven(process) => push_process(line, "K2", process),
        CloseFault::OtherFloor => line.push_str("K5"),
        CloseFault::Disagrees(process) => push_process(line, "K3", process),
    }
}

/// Appends a fault of a process.
fn push_process(line: &mut String, fault: &str, process: usize) -> Result<(), AllocError>
    ensures { OnOk result (string_bytes line.new ≡ string_bytes line.old ++ of_process fault.now process) }
{
    line.push_str(fault)?;
    line.push_str(" process ")?;
    push_number(line, process)
}
