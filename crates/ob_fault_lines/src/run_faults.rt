//! The line of a fault of a run by a schedule.

ghost use Rattle.std.specs.Prelude.{◌≡◌, ◌++◌, IfOk, OnOk, string_bytes};
ghost use Rattle.ob_fault_lines.specs.RunFaultLines.{at_item, run_fault_line, schedule_line};
ghost use Rattle.ob_object_compile.specs.View.{beginning_of};

use crate::compile_faults::push_compile_fault;
use crate::script_faults::push_script_fault;
use ob_object_compile::Beginning;
use ob_object_perform::PerformFault;
use ob_text_words::ScheduleFault;
use ob_text_words::numbers::push_number;
use std::alloc::{AllocError, Global};

/// The line of a fault of a run on an object that is to begin so, without a line feed.
pub fn run_fault_line(
    alloc: Global,
    beginning: Beginning<'_>,
    fault: PerformFault,
) -> Result<String, AllocError>
    ensures { IfOk result (λ line. string_bytes line ≡ run_fault_line (beginning_of beginning.entry) fault) }
{
    let mut line = String::new(alloc);
    push_run_fault(&mut line, beginning, fault)?;
    Ok(line)
}

/// Appends the line of such a fault, without a line feed.
pub(crate) fn push_run_fault(
    line: &mut String,
    beginning: Beginning<'_>,
    fault: PerformFault,
) -> Result<(), AllocError>
    ensures { OnOk result (string_bytes line.new ≡ string_bytes line.old ++ run_fault_line (beginning_of beginning.entry) fault) }
{
    match fault {
        PerformFault::Compile(fault) => push_compile_fault(line, beginning, fault),
        PerformFault::Script(fault) => push_script_fault(line, fault),
        PerformFault::Schedule(fault) => push_schedule_fault(line, fault),
        PerformFault::TooLong(item) => push_item(line, "Q3", item),
        PerformFault::NoMemory => line.push_str("NoMemory"),
    }
}

fn push_schedule_fault(line: &mut String, fault: ScheduleFault) -> Result<(), AllocError>
    ensures { OnOk result (string_bytes line.new ≡ string_bytes line.old ++ schedule_line fault) }
{
    match fault {
        ScheduleFault::Form(item) => push_item(line, "Q1", item),
        ScheduleFault::Process(item) => push_item(line, "Q2", item),
        ScheduleFault::NoMemory => line.push_str("NoMemory"),
    }
}

/// Appends a fault at an item of the schedule.
fn push_item(line: &mut String, fault: &str, item: usize) -> Result<(), AllocError>
    ensures { OnOk result (string_bytes line.new ≡ string_bytes line.old ++ at_item fault.now item) }
{
    line.push_str(fault)?;
    line.push_str(" item ")?;
    push_number(line, item)
}
