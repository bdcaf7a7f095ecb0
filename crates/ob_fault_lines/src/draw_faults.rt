//! The lines of faults of pictures.

ghost use Rattle.std.specs.Prelude.{◌≡◌, ◌++◌, IfOk, OnOk, codes, decimal, string_bytes};
ghost use Rattle.ob_fault_lines.specs.DrawFaultLines.{draw_fault_line, draw_record_fault_line, picture_line};
ghost use Rattle.ob_object_compile.specs.View.{beginning_of};

use crate::module_faults::{push_open_fault, push_text_fault};
use crate::run_faults::run_fault_line;
use crate::script_faults::push_line_number;
use ob_object_compile::Beginning;
use ob_object_draw::DrawRecordFault;
use ob_object_perform::DrawFault;
use ob_picture_chart::PictureFault;
use ob_text_words::numbers::push_number;
use std::alloc::{AllocError, Global};

/// The line of a fault of the picture of a run on an object that is to begin so, without a line feed.
pub fn draw_fault_line(
    alloc: Global,
    beginning: Beginning<'_>,
    fault: DrawFault,
) -> Result<String, AllocError>
    ensures { IfOk result (λ line. string_bytes line ≡ draw_fault_line (beginning_of beginning.entry) fault) }
{
    match fault {
        DrawFault::Run(fault) => run_fault_line(alloc, beginning, fault),
        DrawFault::Calls(fault) => picture_fault_line(alloc, fault),
    }
}

/// The line of a fault of the calls of a picture, without a line feed.
pub fn picture_fault_line(alloc: Global, fault: PictureFault) -> Result<String, AllocError>
    ensures { IfOk result (λ line. string_bytes line ≡ picture_line fault) }
{
    let mut line = String::new(alloc);
    push_picture_fault(&mut line, fault)?;
    Ok(line)
}

/// The line of a fault of a record's picture, without a line feed.
pub fn draw_record_fault_line(alloc: Global, fault: DrawRecordFault) -> Result<String, AllocError>
    ensures { IfOk result (λ line. string_bytes line ≡ draw_record_fault_line fault) }
{
    let mut line = String::new(alloc);
    match fault {
        DrawRecordFault::Text(fault) => push_text_fault(&mut line, fault)?,
        DrawRecordFault::Form(number) => push_line_number(&mut line, "F1", number)?,
        DrawRecordFault::Open(fault) => push_open_fault(&mut line, fault)?,
        DrawRecordFault::Calls(fault) => push_picture_fault(&mut line, fault)?,
        DrawRecordFault::NoMemory => line.push_str("NoMemory")?,
    }
    Ok(line)
}

fn push_picture_fault(line: &mut String, fault: PictureFault) -> Result<(), AllocError>
    ensures { OnOk result (string_bytes line.new ≡ string_bytes line.old ++ picture_line fault) }
{
    match fault {
        PictureFault::NoCalls(count) => push_calls(line, "I1 of ", count),
        PictureFault::TooMany(count) => push_calls(line, "I2 ", count),
        PictureFault::NoMemory => line.push_str("NoMemory"),
    }
}

/// Appends a fault of so many calls.
fn push_calls(line: &mut String, fault: &str, count: usize) -> Result<(), AllocError>
    ensures { OnOk result (string_bytes line.new ≡ string_bytes line.old ++ fault.now ++ decimal count ++ codes " calls") }
{
    line.push_str(fault)?;
    push_number(line, count)?;
    line.push_str(" calls")
}
