//! The lines of the faults of a module's text and of the object that is asked for of it.

ghost use Rattle.std.specs.Prelude.{◌≡◌, ◌++◌, IfOk, OnErr, OnOk, string_bytes};
ghost use Rattle.ob_carry.specs.View.{entries_of};
ghost use Rattle.ob_fault_lines.specs.CompileFaultLines.{carry_line, compile_line, name_at, name_in, of_value};
ghost use Rattle.ob_object_compile.specs.View.{beginning_of};
ghost use Rattle.ob_text_words.specs.Appending.{GoesOn};

use crate::module_faults::{push_open_fault, push_text_fault};
use ob_carry::carrying::CarryFault;
use ob_carry::fields_by_name::NamedField;
use ob_object_compile::{Beginning, CompileFault};
use std::alloc::{AllocError, Global};

/// The line of a fault of a module's text or of the object that is to begin so, without a line feed.
pub fn compile_fault_line(
    alloc: Global,
    beginning: Beginning<'_>,
    fault: CompileFault,
) -> Result<String, AllocError>
    ensures { IfOk result (λ line. string_bytes line ≡ compile_line (beginning_of beginning.entry) fault) }
{
    let mut line = String::new(alloc);
    push_compile_fault(&mut line, beginning, fault)?;
    Ok(line)
}

/// Appends the line of such a fault, without a line feed.
pub fn push_compile_fault(
    line: &mut String,
    beginning: Beginning<'_>,
    fault: CompileFault,
) -> Result<(), AllocError>
    ensures ok { OnOk result (string_bytes line.new ≡ string_bytes line.old ++ compile_line (beginning_of beginning.entry) fault) }
    ensures left { OnErr result (GoesOn (string_bytes line.old) (string_bytes line.new)) }
{
    match fault {
        CompileFault::Processes => line.push_str("N1"),
        CompileFault::Budget => line.push_str("N3"),
        CompileFault::Text(fault) => push_text_fault(line, fault),
        CompileFault::TooLong => line.push_str("G1"),
        CompileFault::Open(fault) => push_open_fault(line, fault),
        CompileFault::Carry(fault) => push_carry_fault(line, beginning, fault),
        CompileFault::NoMemory => line.push_str("NoMemory"),
    }
}

/// Appends the line of a fault of values that are carried over.
fn push_carry_fault(
    line: &mut String,
    beginning: Beginning<'_>,
    fault: CarryFault,
) -> Result<(), AllocError>
    ensures ok { OnOk result (string_bytes line.new ≡ string_bytes line.old ++ carry_line (beginning_of beginning.entry) fault) }
    ensures left { OnErr result (GoesOn (string_bytes line.old) (string_bytes line.new)) }
{
    match fault {
        CarryFault::Unknown(position) => push_value(line, "M1", beginning, position),
        CarryFault::Unfit(position) => push_value(line, "M2", beginning, position),
        CarryFault::NoMemory => line.push_str("NoMemory"),
    }
}

/// Appends a fault of the value at a position.
fn push_value(
    line: &mut String,
    fault: &str,
    beginning: Beginning<'_>,
    position: usize,
) -> Result<(), AllocError>
    ensures ok { OnOk result (string_bytes line.new ≡ string_bytes line.old ++ of_value fault.now (beginning_of beginning.entry) position) }
    ensures left { OnErr result (GoesOn (string_bytes line.old) (string_bytes line.new)) }
{
    line.push_str(fault)?;
    line.push_str(" ")?;
    line.push_str(name_at(beginning, position))
}

/// The name of the value at a position; nothing where there is none.
fn name_at<'a>(beginning: Beginning<'a>, position: usize) -> &'a str
    ensures { result.now ≡ name_at (beginning_of beginning.entry) position }
{
    match beginning {
        Beginning::Body => "",
        Beginning::Carried(values) => name_in(values, position),
    }
}

/// The name of the value at a position of a list; nothing where there is none.
fn name_in(values: &[NamedField], position: usize) -> &str
    ensures { result.now ≡ name_in (entries_of values.now) position }
{
    match values.get(position) {
        Some(field) => field.name.as_str(),
        None => "",
    }
}
