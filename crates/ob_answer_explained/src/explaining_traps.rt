//! The answers of `explain` on traps. Of a module's text it has the beginning: a module of more bytes is too long.

ghost use Rattle.std.specs.Prelude.{IfOk};
ghost use Rattle.ob_answer_explained.specs.Explains.{AreRecordTrapsExplained, AreTrapsExplained, TellsRecordTraps};
ghost use Rattle.ob_answer_files.specs.Reads.{OfWhole};
ghost use Rattle.ob_answer_explained.specs.CommandTexts.{calls_of_text, calls_texts_of};

use crate::asked_texts::Calls;
use crate::explaining::calls_wrong;
use crate::explaining_runs::record_wrong;
use crate::shown_faults::shown_name;
use ob_answer_files::answered::Answer;
use ob_explained::Source;
use ob_explained_traps::{record_traps_text, traps_text};
use ob_interface::NoMemory;
use ob_object_calls::verify_text;
use std::alloc::Global;

/// The answer to calls.
pub fn explain_traps(alloc: Global, calls: Calls<'_>) -> Result<Answer, NoMemory>
    ensures { IfOk result (OfWhole calls.entry.asked.text.now (λ whole. AreTrapsExplained (calls_of_text (calls_texts_of calls.entry) whole))) }
{
    let module_shown = shown_name(alloc, calls.command.module_name)?;
    let script_shown = shown_name(alloc, calls.command.script_name)?;
    let script = Source {
        name: &script_shown,
        text: calls.script,
    };
    match traps_text(alloc, &module_shown, calls.asked, script) {
        Ok(text) => Ok(Answer::printed(alloc, text)),
        Err(fault) => calls_wrong(alloc, calls, fault),
    }
}

/// The answer to the name and the beginning of a module's text, and to the name and the text of a record.
pub fn explain_record_traps(
    alloc: Global,
    module_name: &str,
    module: &[u8],
    record_name: &str,
    record: &[u8],
) -> Result<Answer, NoMemory>
    ensures { IfOk result (OfWhole «module».now (λ whole. AreRecordTrapsExplained module_name.now whole record_name.now «record».now)) }
{
    match verify_text(alloc, module, record) {
        Ok(()) => record_traps(alloc, module_name, module, record),
        Err(fault) => record_wrong(alloc, module_name, module, record_name, record, fault),
    }
}

/// What is told of a record whose order is legal.
fn record_traps(
    alloc: Global,
    module_name: &str,
    module: &[u8],
    record: &[u8],
) -> Result<Answer, NoMemory>
    ensures { IfOk result (TellsRecordTraps module_name.now «module».now «record».now) }
{
    let shown = shown_name(alloc, module_name)?;
    let object = Source {
        name: &shown,
        text: module,
    };
    match record_traps_text(alloc, object, record) {
        Ok(text) => Ok(Answer::printed(alloc, text)),
        Err(_) => Err(NoMemory),
    }
}
