//! The lines of a script's faults.

ghost use Rattle.std.specs.Prelude.{◌≡◌, ◌++◌, OnErr, OnOk, string_bytes};
ghost use Rattle.ob_fault_lines.specs.ScriptFaultLines.{at_line, script_line};
ghost use Rattle.ob_text_words.specs.Appending.{GoesOn};

use ob_text_scripts::ScriptFault;
use ob_text_words::numbers::push_number;
use std::alloc::AllocError;

/// Appends the line of a fault of a script, without a line feed.
pub fn push_script_fault(line: &mut String, fault: ScriptFault) -> Result<(), AllocError>
    ensures ok { OnOk result (string_bytes line.new ≡ string_bytes line.old ++ script_line fault) }
    ensures left { OnErr result (GoesOn (string_bytes line.old) (string_bytes line.new)) }
{
    match fault {
        ScriptFault::Form(number) => push_line_number(line, "L1", number),
        ScriptFault::Procedure(number) => push_line_number(line, "L2", number),
        ScriptFault::Arguments(number) => push_line_number(line, "L3", number),
        ScriptFault::Process(number) => push_line_number(line, "L4", number),
        ScriptFault::NoMemory => line.push_str("NoMemory"),
    }
}

/// Appends a fault at a line of the script.
pub fn push_line_number(line: &mut String, fault: &str, number: usize) -> Result<(), AllocError>
    ensures ok { OnOk result (string_bytes line.new ≡ string_bytes line.old ++ at_line fault.now number) }
    ensures left { OnErr result (GoesOn (string_bytes line.old) (string_bytes line.new)) }
{
    line.push_str(fault)?;
    line.push_str(" line ")?;
    push_number(line, number)
}
