//! What is shown of a fault of a run.

ghost use Rattle.std.specs.Prelude.{IfOk, option_map, string_bytes};
ghost use Rattle.ob_explained.specs.ExplainedRuns.{ExplainsRun, IsRunScriptExplanation};
ghost use Rattle.ob_explained.specs.Sources.{source_of};

use crate::named_texts::{Source, shown};
use crate::object_explanation;
use crate::run_remark::{long_item_remark, run_script_remark, schedule_remark};
use ob_object_perform::PerformFault;
use ob_text_scripts::ScriptFault;
use std::alloc::{AllocError, Global};

/// What is shown of a fault of the run of these scripts and this schedule on a module's object, which n processes share and whose
/// calls have a budget of turns each; `None` where the fault has no place in their texts and is none of these numbers.
pub fn run_explanation(
    alloc: Global,
    object: Source<'_>,
    scripts: Source<'_>,
    schedule: Source<'_>,
    n: usize,
    budget: u64,
    fault: PerformFault,
) -> Result<Option<String>, AllocError>
    ensures { IfOk result (ExplainsRun object.entry scripts.entry schedule.entry n budget fault) }
{
    match fault {
        PerformFault::Compile(fault) => {
            object_explanation(alloc, object.name, object.text, n, budget, fault)
        }
        PerformFault::Script(fault) => {
            run_script_explanation(alloc, object.text, scripts, n, fault)
        }
        PerformFault::Schedule(fault) => {
            let remark = schedule_remark(alloc, n, schedule.text, fault)?;
            shown(alloc, schedule, remark)
        }
        PerformFault::TooLong(item) => {
            let remark = long_item_remark(alloc, schedule.text, item)?;
            shown(alloc, schedule, remark)
        }
        PerformFault::NoMemory => Ok(None),
    }
}

/// What is shown of a fault of the scripts of n processes, for the exports of a module's text; `None` for want of memory.
fn run_script_explanation(
    alloc: Global,
    text: &[u8],
    scripts: Source<'_>,
    n: usize,
    fault: ScriptFault,
) -> Result<Option<String>, AllocError>
    ensures { IfOk result (λ shown. IsRunScriptExplanation n text.now (source_of scripts.entry) fault (option_map string_bytes shown)) }
{
    let remark = run_script_remark(alloc, n, text, scripts.text, fault)?;
    shown(alloc, scripts, remark)
}
