//! The answers of `explain` on runs and records. Of a module's text they have the beginning: a module of more bytes is too long.

ghost use Rattle.std.specs.Prelude.{◌≡◌, ◌≢◌, false, IfOk, option_map, string_bytes};
ghost use Rattle.ob_answer_explained.specs.Explains.{IsRecordExplained, IsRecordFaultShown, IsRunExplained, IsRunFaultShown, IsRunTold, carry_fault_of_run};
ghost use Rattle.ob_answer_files.specs.Reads.{OfWhole};
ghost use Rattle.ob_answer_explained.specs.CommandTexts.{run_of_text, run_texts_of};
ghost use Rattle.ob_object_perform.specs.Performance as Performs;

use crate::asked_texts::Run;
use crate::explaining::carry_fault_in;
use crate::shown_faults::{carry_shown, shown_name, shown_or};
use ob_answer_files::answered::Answer;
use ob_carry::carrying::CarryFault;
use ob_explained::{Source, run_explanation};
use ob_explained_records::record_explanation;
use ob_fault_lines::run_faults::run_fault_line;
use ob_fault_lines::verify_faults::verify_fault_line;
use ob_interface::NoMemory;
use ob_object_calls::{VerifyFault, verify_text};
use ob_object_perform::{PerformFault, performed};
use std::alloc::{AllocError, Global};

/// The answer to a run.
pub fn explain_run(alloc: Global, run: Run<'_>) -> Result<Answer, NoMemory>
    ensures { IfOk result (OfWhole run.entry.texts.asked.text.now (λ whole. IsRunExplained (run_of_text (run_texts_of run.entry) whole))) }
{
    match performed(alloc, run.texts) {
        Ok((_checked, _record)) => Ok(Answer::printed(alloc, String::from_str(alloc, "ok\n")?)),
        Err(fault) => run_wrong(alloc, run, fault),
    }
}

/// The answer to a fault of a run.
pub fn run_wrong(alloc: Global, run: Run<'_>, fault: PerformFault) -> Result<Answer, NoMemory>
    ensures fault { IfOk result (λ a. IsRunFaultShown (run_texts_of run.entry) fault a) }
    ensures memory { IfOk result (λ _. Performs.is_want_of_memory fault ≡ false) }
{
    if let PerformFault::NoMemory = fault {
        return Err(NoMemory);
    }
    let told = run_told(alloc, run, fault)?;
    let line = run_fault_line(alloc, run.texts.asked.beginning, fault)?;
    Ok(shown_or(alloc, told, line)?)
}

/// What is shown of a fault of a run.
fn run_told(alloc: Global, run: Run<'_>, fault: PerformFault) -> Result<Option<String>, AllocError>
    ensures { IfOk result (λ told. IsRunTold (run_texts_of run.entry) fault (option_map string_bytes told)) }
{
    if let Some(fault) = carry_fault_of_run(fault) {
        return carry_shown(alloc, run.command.calls.from_name, run.record_text, fault);
    }
    let module_shown = shown_name(alloc, run.command.calls.module_name)?;
    let script_shown = shown_name(alloc, run.command.calls.script_name)?;
    let schedule_shown = shown_name(alloc, run.command.schedule_name)?;
    let asked = run.texts.asked;
    let object = Source {
        name: &module_shown,
        text: asked.text,
    };
    let scripts = Source {
        name: &script_shown,
        text: run.texts.scripts,
    };
    let items = Source {
        name: &schedule_shown,
        text: run.texts.schedule,
    };
    run_explanation(
        alloc,
        object,
        scripts,
        items,
        asked.processes,
        asked.budget,
        fault,
    )
}

/// A fault of a run that is one of values that are carried over.
fn carry_fault_of_run(fault: PerformFault) -> Option<CarryFault>
    ensures { result ≡ carry_fault_of_run fault }
{
    match fault {
        PerformFault::Compile(fault) => carry_fault_in(fault),
        _ => None,
    }
}

/// The answer to the name and the beginning of a module's text, and to the name and the text of a record.
pub fn explain_record(
    alloc: Global,
    module_name: &str,
    module: &[u8],
    record_name: &str,
    record: &[u8],
) -> Result<Answer, NoMemory>
    ensures { IfOk result (OfWhole «module».now (λ whole. IsRecordExplained module_name.now whole record_name.now «record».now)) }
{
    match verify_text(alloc, module, record) {
        Ok(()) => Ok(Answer::printed(alloc, String::from_str(alloc, "ok\n")?)),
        Err(fault) => record_wrong(alloc, module_name, module, record_name, record, fault),
    }
}

/// The answer to a fault of a record.
pub(crate) fn record_wrong(
    alloc: Global,
    module_name: &str,
    module: &[u8],
    record_name: &str,
    record: &[u8],
    fault: VerifyFault,
) -> Result<Answer, NoMemory>
    ensures fault { IfOk result (λ a. IsRecordFaultShown module_name.now «module».now record_name.now «record».now fault a) }
    ensures memory { IfOk result (λ _. fault ≢ VerifyFault.NoMemory) }
{
    if let VerifyFault::NoMemory = fault {
        return Err(NoMemory);
    }
    let module_shown = shown_name(alloc, module_name)?;
    let record_shown = shown_name(alloc, record_name)?;
    let object = Source {
        name: &module_shown,
        text: module,
    };
    let file = Source {
        name: &record_shown,
        text: record,
    };
    let told = record_explanation(alloc, object, file, fault)?;
    let line = verify_fault_line(alloc, fault)?;
    Ok(shown_or(alloc, told, line)?)
}
