//! The answers to `explain`, of the names of a module, and of a record or of a history.

ghost use Rattle.std.specs.Prelude.{ℕ, IfOk};
ghost use Rattle.ob_answer.specs.Answers.{IsObeyed};
ghost use Rattle.ob_answer_files.specs.Printed.{IsPrinted};
ghost use Rattle.ob_command.specs.CommandLine.{Explain, ExplainHistory, ExplainRecord, ExplainRecordTraps};
ghost use Rattle.ob_fault_pages.specs.Pages.{page_text};

use ob_answer_explained::explaining::explain_module;
use ob_answer_explained::explaining_runs::explain_record;
use ob_answer_explained::explaining_traps::explain_record_traps;
use ob_answer_files::answered::Answer;
use ob_answer_files::file_reading::{MODULE_BYTES, TwoFiles, read_two, unreadable};
use ob_answer_files::files::{FileFault, Files};
use ob_answer_searches::history_explained::{HistoryFiles, explain_history};
use ob_fault_pages::page::page_text;
use ob_interface::NoMemory;
use std::alloc::Global;
use std::random::RandomSource;

/// The answer to `explain`, of the name of a module, of which no call is made.
pub(crate) fn obey_explain_module<F: Files>(
    alloc: Global,
    module_name: &str,
    files: &mut F,
) -> Result<Answer, NoMemory>
    ensures { IfOk result (λ a. (budget : ℕ) → IsObeyed F.reads (Explain module_name.now budget) files.old a files.new) }
{
    match files.read_beginning(module_name, MODULE_BYTES) {
        Ok(module) => explain_module(alloc, module_name, module.as_slice()),
        Err(FileFault::Unreadable) => Ok(unreadable(alloc, module_name)?),
        Err(FileFault::NoMemory) => Err(NoMemory),
    }
}

/// The answer to `explain` of a fault's name: its page.
pub(crate) fn answer_fault(alloc: Global, name: &str) -> Result<Answer, NoMemory>
    ensures { IfOk result (λ a. IsPrinted a (page_text name.now)) }
{
    let text = String::from_str(alloc, page_text(name))?;
    Ok(Answer::printed(alloc, text))
}

/// The answer to `explain` on a record, of the names of its files.
pub(crate) fn obey_explain_record<F: Files>(
    alloc: Global,
    module_name: &str,
    record_name: &str,
    files: &mut F,
) -> Result<Answer, NoMemory>
    ensures { IfOk result (λ a. IsObeyed F.reads (ExplainRecord module_name.now record_name.now) files.old a files.new) }
{
    match read_two(alloc, module_name, record_name, files)? {
        TwoFiles::Read { module, second } => explain_record(
            alloc,
            module_name,
            module.as_slice(),
            record_name,
            second.as_slice(),
        ),
        TwoFiles::Unread(answer) => Ok(answer),
    }
}

/// The answer to `explain` on the traps of a record, of the names of its files.
pub(crate) fn obey_explain_record_traps<F: Files>(
    alloc: Global,
    module_name: &str,
    record_name: &str,
    files: &mut F,
) -> Result<Answer, NoMemory>
    ensures { IfOk result (λ a. IsObeyed F.reads (ExplainRecordTraps module_name.now record_name.now) files.old a files.new) }
{
    match read_two(alloc, module_name, record_name, files)? {
        TwoFiles::Read { module, second } => explain_record_traps(
            alloc,
            module_name,
            module.as_slice(),
            record_name,
            second.as_slice(),
        ),
        TwoFiles::Unread(answer) => Ok(answer),
    }
}

/// The answer to `explain` on a history, of the names of its files.
pub(crate) fn obey_explain_history<R: RandomSource, F: Files>(
    rt: &R,
    alloc: Global,
    module_name: &str,
    history_name: &str,
    files: &mut F,
) -> Result<Answer, NoMemory>
    ensures { IfOk result (λ a. IsObeyed F.reads (ExplainHistory module_name.now history_name.now) files.old a files.new) }
{
    match read_two(alloc, module_name, history_name, files)? {
        TwoFiles::Read { module, second } => {
            let read = HistoryFiles {
                module_name,
                text: module.as_slice(),
                history_name,
                history: second.as_slice(),
            };
            explain_history(rt, alloc, read)
        }
        TwoFiles::Unread(answer) => Ok(answer),
    }
}
