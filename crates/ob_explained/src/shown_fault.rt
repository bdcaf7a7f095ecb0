//! What is shown of a fault that has a place in a text.

ghost use Rattle.std.specs.Prelude.{◌≡◌, IfOk, option_map, string_bytes};
ghost use Rattle.ob_explain_sentences.specs.Explanations.{explanation};
ghost use Rattle.ob_explain_sentences.specs.Remarks.{remark_of};
ghost use Rattle.ob_explained.specs.Explained.{IsCallsExplanation, IsModuleExplanation, IsObjectExplanation, IsPlacedExplanation, IsTextExplanation};

use crate::call_remark::calls_remark;
use crate::number_fault::{
    budget_explanation, long_code_explanation, long_text_explanation, processes_explanation,
};
use crate::opening_traps::open_explanation;
use ob_check::TextFault;
use ob_explain_sentences::explanation::explanation;
use ob_explain_sentences::remark::Remark;
use ob_object_calls::SeqTextFault;
use ob_object_compile::CompileFault;
use ob_scan::ScanFault;
use ob_slips::{text_remark, told_behind};
use std::alloc::{AllocError, Global};

/// The processes that make the calls of a script one at a time.
const ONE_PROCESS: usize = 1;

/// What is shown of a fault of a module, whose text has this name; `None` for a number of the command line and for want of memory.
pub fn module_explanation(
    alloc: Global,
    name: &str,
    text: &[u8],
    fault: CompileFault,
) -> Result<Option<String>, AllocError>
    ensures { IfOk result (λ shown. IsModuleExplanation name.now text.now fault (option_map string_bytes shown)) }
{
    match fault {
        CompileFault::Text(fault) => text_explanation(alloc, name, text, fault),
        CompileFault::TooLong => Ok(Some(long_code_explanation(alloc)?)),
        CompileFault::Open(fault) => open_explanation(alloc, name, text, fault),
        _ => Ok(None),
    }
}

/// The same of a module that so many processes share, each of whose calls has a budget of turns; of a number that may not be it
/// is told which it may.
pub fn object_explanation(
    alloc: Global,
    name: &str,
    text: &[u8],
    processes: usize,
    budget: u64,
    fault: CompileFault,
) -> Result<Option<String>, AllocError>
    ensures { IfOk result (λ shown. IsObjectExplanation name.now text.now processes budget fault (option_map string_bytes shown)) }
{
    match fault {
        CompileFault::Processes => Ok(Some(processes_explanation(alloc, processes)?)),
        CompileFault::Budget => Ok(Some(budget_explanation(alloc, budget)?)),
        _ => module_explanation(alloc, name, text, fault),
    }
}

/// What is shown of a fault of a module and a script, whose texts have these names and whose calls have a budget of turns each;
/// `None` where the fault has no place in them and is none of the budget.
pub fn calls_explanation(
    alloc: Global,
    module_name: &str,
    text: &[u8],
    script_name: &str,
    script: &[u8],
    budget: u64,
    fault: SeqTextFault,
) -> Result<Option<String>, AllocError>
    ensures { IfOk result (λ shown. IsCallsExplanation module_name.now text.now script_name.now script.now budget fault (option_map string_bytes shown)) }
{
    match fault {
        SeqTextFault::Compile(fault) => {
            object_explanation(alloc, module_name, text, ONE_PROCESS, budget, fault)
        }
        SeqTextFault::Script(fault) => {
            shown(
                alloc,
                script_name,
                script,
                calls_remark(alloc, text, script, fault)?,
            )
        }
        SeqTextFault::NoMemory => Ok(None),
    }
}

/// What is shown of a fault of a module's text of this name; `None` for want of memory.
fn text_explanation(
    alloc: Global,
    name: &str,
    text: &[u8],
    fault: TextFault,
) -> Result<Option<String>, AllocError>
    ensures { IfOk result (λ shown. IsTextExplanation name.now text.now fault (option_map string_bytes shown)) }
{
    match fault {
        TextFault::Scan(ScanFault::TooLong) => Ok(Some(long_text_explanation(alloc)?)),
        fault => placed_explanation(alloc, name, text, fault),
    }
}

/// The same at its place, and what is told behind it where it comes of a slip.
fn placed_explanation(
    alloc: Global,
    name: &str,
    text: &[u8],
    fault: TextFault,
) -> Result<Option<String>, AllocError>
    ensures { IfOk result (λ shown. IsPlacedExplanation name.now text.now fault (option_map string_bytes shown)) }
{
    match text_remark(alloc, text, fault)? {
        Some(remark) => {
            let mut shown = explanation(alloc, name, text, &remark)?;
            let behind = told_behind(alloc, name, text, fault)?;
            shown.push_str(behind.as_str())?;
            Ok(Some(shown))
        }
        None => Ok(None),
    }
}

/// What a remark on a text of this name comes to.
fn shown(
    alloc: Global,
    name: &str,
    text: &[u8],
    remark: Option<Remark>,
) -> Result<Option<String>, AllocError>
    ensures { IfOk result (λ shown. option_map string_bytes shown ≡ option_map (explanation name.now text.now) (option_map remark_of remark)) }
{
    match remark {
        Some(remark) => Ok(Some(explanation(alloc, name, text, &remark)?)),
        None => Ok(None),
    }
}
