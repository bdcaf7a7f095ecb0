//! The line of a fault of outcomes.

ghost use Rattle.std.specs.Prelude.{◌≡◌, IfOk, string_bytes};
ghost use Rattle.ob_answer_searches.specs.OutcomesFaultLines.{not_always_line, outcomes_fault_line};
ghost use Rattle.ob_object_compile.specs.View.{beginning_of};

use ob_fault_lines::sequential_faults::seq_fault_line;
use ob_object_compile::Beginning;
use ob_object_outcomes::{OutcomesFault, push_ids};
use std::alloc::{AllocError, Global};
use wf_history::CallId;

/// The line that tells why no outcomes are printed of an object that is to begin so, without a line feed.
pub fn outcomes_fault_line(
    alloc: Global,
    beginning: Beginning<'_>,
    fault: &OutcomesFault,
) -> Result<String, AllocError>
    ensures { IfOk result (λ line. string_bytes line ≡ outcomes_fault_line (beginning_of beginning.entry) fault.now) }
{
    match fault {
        OutcomesFault::Texts(fault) => seq_fault_line(alloc, beginning, *fault),
        OutcomesFault::NoQuestion => String::from_str(alloc, "X5"),
        OutcomesFault::TooMany => String::from_str(alloc, "X2"),
        OutcomesFault::NotAlways(path) => not_always_line(alloc, path),
        OutcomesFault::NoMemory => String::from_str(alloc, "NoMemory"),
    }
}

/// The line that names the calls behind which an export does not answer TRUE.
pub(crate) fn not_always_line(alloc: Global, path: &[CallId]) -> Result<String, AllocError>
    ensures { IfOk result (λ line. string_bytes line ≡ not_always_line path.now) }
{
    let mut line = String::from_str(alloc, "X3")?;
    push_ids(&mut line, path)?;
    Ok(line)
}
