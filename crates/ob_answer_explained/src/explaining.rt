//! The answers of `explain` on a module, and on calls. Of a module's text they have the beginning: a module of more bytes is too long.

ghost use Rattle.std.specs.Prelude.{◌≡◌, false, IfOk, option_map, string_bytes};
ghost use Rattle.ob_answer_explained.specs.Explains.{IsCallsExplained, IsCallsFaultShown, IsCallsTold, IsModuleExplained, IsModuleFaultShown};
ghost use Rattle.ob_answer_explained.specs.Explains.{carry_fault_in, carry_fault_of_calls};
ghost use Rattle.ob_answer_files.specs.Reads.{OfWhole};
ghost use Rattle.ob_answer_explained.specs.CommandTexts.{calls_of_text, calls_texts_of};
ghost use Rattle.ob_object_compile.specs.Compilation as Compiles;
ghost use Rattle.ob_object_calls.specs.SequentialRun.{is_want_of_memory};

use crate::asked_texts::Calls;
use crate::shown_faults::{carry_shown, shown_name, shown_or};
use ob_answer_files::answered::Answer;
use ob_carry::carrying::CarryFault;
use ob_explained::{calls_explanation, module_explanation};
use ob_fault_lines::compile_faults::compile_fault_line;
use ob_fault_lines::sequential_faults::seq_fault_line;
use ob_interface::NoMemory;
use ob_object_calls::{SeqTextFault, check_text, seq_asked};
use ob_object_compile::{Beginning, CompileFault};
use std::alloc::{AllocError, Global};

/// The answer to the name and the beginning of a module's text.
pub fn explain_module(alloc: Global, name: &str, module: &[u8]) -> Result<Answer, NoMemory>
    ensures { IfOk result (OfWhole «module».now (λ whole. IsModuleExplained name.now whole)) }
{
    match check_text(alloc, module) {
        Ok(()) => Ok(Answer::printed(alloc, String::from_str(alloc, "ok\n")?)),
        Err(fault) => module_wrong(alloc, name, module, fault),
    }
}

/// The answer to a fault of a module by itself.
fn module_wrong(
    alloc: Global,
    name: &str,
    module: &[u8],
    fault: CompileFault,
) -> Result<Answer, NoMemory>
    ensures fault { IfOk result (λ a. IsModuleFaultShown name.now «module».now fault a) }
    ensures memory { IfOk result (λ _. Compiles.is_want_of_memory fault ≡ false) }
{
    if let CompileFault::NoMemory = fault {
        return Err(NoMemory);
    }
    let shown = shown_name(alloc, name)?;
    let told = module_explanation(alloc, &shown, module, fault)?;
    let line = compile_fault_line(alloc, Beginning::Body, fault)?;
    Ok(shown_or(alloc, told, line)?)
}

/// The answer to calls.
pub fn explain_calls(alloc: Global, calls: Calls<'_>) -> Result<Answer, NoMemory>
    ensures { IfOk result (OfWhole calls.entry.asked.text.now (λ whole. IsCallsExplained (calls_of_text (calls_texts_of calls.entry) whole))) }
{
    match seq_asked(alloc, calls.asked, calls.script) {
        Ok(_lines) => Ok(Answer::printed(alloc, String::from_str(alloc, "ok\n")?)),
        Err(fault) => calls_wrong(alloc, calls, fault),
    }
}

/// The answer to a fault of calls.
pub(crate) fn calls_wrong(
    alloc: Global,
    calls: Calls<'_>,
    fault: SeqTextFault,
) -> Result<Answer, NoMemory>
    ensures fault { IfOk result (λ a. IsCallsFaultShown (calls_texts_of calls.entry) fault a) }
    ensures memory { IfOk result (λ _. is_want_of_memory fault ≡ false) }
{
    if let SeqTextFault::NoMemory = fault {
        return Err(NoMemory);
    }
    let told = calls_told(alloc, calls, fault)?;
    let line = seq_fault_line(alloc, calls.asked.beginning, fault)?;
    Ok(shown_or(alloc, told, line)?)
}

/// What is shown of a fault of calls.
fn calls_told(
    alloc: Global,
    calls: Calls<'_>,
    fault: SeqTextFault,
) -> Result<Option<String>, AllocError>
    ensures { IfOk result (λ told. IsCallsTold (calls_texts_of calls.entry) fault (option_map string_bytes told)) }
{
    let command = calls.command;
    if let Some(fault) = carry_fault_of_calls(fault) {
        return carry_shown(alloc, command.from_name, calls.record_text, fault);
    }
    let module_shown = shown_name(alloc, command.module_name)?;
    let script_shown = shown_name(alloc, command.script_name)?;
    calls_explanation(
        alloc,
        &module_shown,
        calls.asked.text,
        &script_shown,
        calls.script,
        calls.asked.budget,
        fault,
    )
}

/// A fault of calls that is one of values that are carried over.
fn carry_fault_of_calls(fault: SeqTextFault) -> Option<CarryFault>
    ensures { result ≡ carry_fault_of_calls fault }
{
    match fault {
        SeqTextFault::Compile(fault) => carry_fault_in(fault),
        _ => None,
    }
}

/// The same of a fault of an object.
pub(crate) fn carry_fault_in(fault: CompileFault) -> Option<CarryFault>
    ensures { result ≡ carry_fault_in fault }
{
    match fault {
        CompileFault::Carry(fault) => Some(fault),
        _ => None,
    }
}
