//! The line of a fault of calls made one after the other.

ghost use Rattle.std.specs.Prelude.{◌≡◌, IfOk, string_bytes};
ghost use Rattle.ob_fault_lines.specs.SequentialFaultLines.{seq_fault_line};
ghost use Rattle.ob_object_compile.specs.View.{beginning_of};

use crate::compile_faults::push_compile_fault;
use crate::script_faults::push_script_fault;
use ob_object_calls::SeqTextFault;
use ob_object_compile::Beginning;
use std::alloc::{AllocError, Global};

/// The line of a fault of a sequential run on an object that is to begin so, without a line feed.
pub fn seq_fault_line(
    alloc: Global,
    beginning: Beginning<'_>,
    fault: SeqTextFault,
) -> Result<String, AllocError>
    ensures { IfOk result (λ line. string_bytes line ≡ seq_fault_line (beginning_of beginning.entry) fault) }
{
    let mut line = String::new(alloc);
    match fault {
        SeqTextFault::Compile(fault) => push_compile_fault(&mut line, beginning, fault)?,
        SeqTextFault::Script(fault) => push_script_fault(&mut line, fault)?,
        SeqTextFault::NoMemory => line.push_str("NoMemory")?,
    }
    Ok(line)
}
