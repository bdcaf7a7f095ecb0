//! The answer to `live`: its files are read, and then lines are answered as they come.

ghost use Rattle.std.specs.Prelude.{◌≡◌, ◌≢◌, ◌++◌, IfOk, codes, false};
ghost use Rattle.ob_answer.specs.LiveAnswers.{AreLiveRead, IsLiveAnswer, IsLiveAnswerTo, IsLiveObeyed, IsMadeOfLive, IsModuleRead};
ghost use Rattle.ob_answer_explained.specs.CommandTexts.{of_text};
ghost use Rattle.ob_answer_files.specs.Printed.{IsRefused};
ghost use Rattle.ob_answer_files.specs.Reads.{OfWhole};
ghost use Rattle.ob_command.specs.Commands.{calls_request_of};
ghost use Rattle.ob_fault_lines.specs.CompileFaultLines.{compile_line};
ghost use Rattle.ob_object_compile.specs.Compilation as Compiles;
ghost use Rattle.ob_object_compile.specs.View.{asked_of, beginning_of};

use crate::answer::{INPUT_TWICE, are_inputs_of_calls};
use ob_answer_explained::asked_texts::{bytes_or_none, calls_with};
use ob_answer_explained::record_opening::values_in;
use ob_answer_explained::shown_faults::values_wrong;
use ob_answer_files::answered::{Answer, refused};
use ob_answer_files::file_reading::{
    CallsBytes, CallsFiles, MODULE_BYTES, TwoFiles, read_two, unreadable,
};
use ob_answer_files::files::{FileFault, Files};
use ob_command::command::CallsCommand;
use ob_fault_lines::compile_faults::compile_fault_line;
use ob_interface::NoMemory;
use ob_object_compile::{Asked, Beginning, CompileFault};
use ob_object_live::{Conversation, TalkFault, live_object, live_talk};
use std::alloc::Global;

/// The answer to `live`. Its files are read before any line is heard. What is told of lines is told at once, so that nothing of that is left
/// to print. Where one of its files is standard input too, its words are a mistake, and nothing is read.
pub fn answer_live<F: Files, C: Conversation>(
    alloc: Global,
    calls: CallsCommand<'_>,
    files: &mut F,
    conversation: &mut C,
) -> Result<Answer, TalkFault>
    ensures answered { IfOk result (λ a. IsLiveAnswerTo F.reads C.hears C.tells conversation.old conversation.new
        (calls_request_of calls.entry) files.old a files.new) }

    // Where something is wrong with the words or the files, no line is heard, and nothing is told.
    ensures untouched { IfOk result (λ a. a.status ≢ 0 → conversation.new ≡ conversation.old) }
{
    if are_inputs_of_calls(calls) {
        return Ok(Answer::refused(alloc, 2, String::from_str(alloc, INPUT_TWICE)?));
    }
    obey_live(alloc, calls, files, conversation)
}

/// The answer to words that are no mistake.
fn obey_live<F: Files, C: Conversation>(
    alloc: Global,
    calls: CallsCommand<'_>,
    files: &mut F,
    conversation: &mut C,
) -> Result<Answer, TalkFault>
    ensures obeyed { IfOk result (λ a. IsLiveObeyed F.reads C.hears C.tells conversation.old conversation.new
        (calls_request_of calls.entry) files.old a files.new) }
    ensures untouched { IfOk result (λ a. a.status ≢ 0 → conversation.new ≡ conversation.old) }
{
    match read_live(alloc, calls, files)? {
        CallsFiles::Read(bytes) => answer_read(alloc, calls, &bytes, conversation),
        CallsFiles::Unread(answer) => Ok(answer),
    }
}

/// The answer to `live`, of the bytes of its files.
fn answer_read<C: Conversation>(
    alloc: Global,
    calls: CallsCommand<'_>,
    bytes: &CallsBytes,
    conversation: &mut C,
) -> Result<Answer, TalkFault>
    ensures made { IfOk result (OfWhole bytes.now.text.items
        (IsMadeOfLive C.hears C.tells conversation.old conversation.new calls.entry bytes.now)) }
    ensures untouched { IfOk result (λ a. a.status ≢ 0 → conversation.new ≡ conversation.old) }
{
    match values_in(alloc, &bytes.from) {
        Ok(values) => {
            let begun = calls_with(calls, bytes, &values);
            answer_begun(alloc, begun.asked, conversation)
        }
        Err(fault) => {
            let record_text = bytes_or_none(&bytes.from);
            Ok(values_wrong(alloc, false, calls.from_name, record_text, fault)?)
        }
    }
}

/// The answer to `live`, of the object that is asked for.
fn answer_begun<C: Conversation>(
    alloc: Global,
    asked: Asked<'_>,
    conversation: &mut C,
) -> Result<Answer, TalkFault>
    ensures made { IfOk result (OfWhole asked.entry.text.now (λ whole.
        IsLiveAnswer C.hears C.tells conversation.old conversation.new (of_text (asked_of asked.entry) whole))) }
    ensures untouched { IfOk result (λ a. a.status ≢ 0 → conversation.new ≡ conversation.old) }
{
    match live_object(alloc, asked) {
        Ok(live) => {
            live_talk(alloc, live, conversation)?;
            Ok(Answer::printed(alloc, String::new(alloc)))
        }
        Err(fault) => Ok(object_refused(alloc, asked.beginning, fault)?),
    }
}

/// The answer to a fault of an object that is to begin so.
fn object_refused(
    alloc: Global,
    beginning: Beginning<'_>,
    fault: CompileFault,
) -> Result<Answer, NoMemory>
    ensures fault { IfOk result (λ a. IsRefused a 1 (compile_line (beginning_of beginning.entry) fault ++ codes "\n")) }
    ensures memory { IfOk result (λ _. Compiles.is_want_of_memory fault ≡ false) }
{
    match fault {
        CompileFault::NoMemory => Err(NoMemory),
        fault => Ok(refused(alloc, compile_fault_line(alloc, beginning, fault)?)?),
    }
}

/// The files of `live`: that of a module, and that of the record with whose values its object begins, where one is named. There is no script.
fn read_live<F: Files>(
    alloc: Global,
    calls: CallsCommand<'_>,
    files: &mut F,
) -> Result<CallsFiles, NoMemory>
    ensures { IfOk result (λ read. AreLiveRead F.reads (calls_request_of calls.entry) files.old read files.new) }
{
    let Some(from_name) = calls.from_name else {
        return read_module(alloc, calls.module_name, files);
    };
    match read_two(alloc, calls.module_name, from_name, files)? {
        TwoFiles::Read { module, second } => Ok(CallsFiles::Read(CallsBytes {
            text: module,
            script: Vec::new(alloc),
            from: Some(second),
        })),
        TwoFiles::Unread(answer) => Ok(CallsFiles::Unread(answer)),
    }
}

/// The file of a module alone.
fn read_module<F: Files>(
    alloc: Global,
    module_name: &str,
    files: &mut F,
) -> Result<CallsFiles, NoMemory>
    ensures { IfOk result (λ read. IsModuleRead F.reads module_name.now files.old read files.new) }
{
    match files.read_beginning(module_name, MODULE_BYTES) {
        Ok(module) => Ok(CallsFiles::Read(CallsBytes {
            text: module,
            script: Vec::new(alloc),
            from: None,
        })),
        Err(FileFault::Unreadable) => Ok(CallsFiles::Unread(unreadable(alloc, module_name)?)),
        Err(FileFault::NoMemory) => Err(NoMemory),
    }
}
