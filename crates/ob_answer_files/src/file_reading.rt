//! The files that the words of a command name, read in their order. Of a module no more is read than shows that it is too long.

ghost use Rattle.std.specs.Prelude.{IfOk, option_map};
ghost use Rattle.ob_answer_files.specs.Printed.{IsUnreadable};
ghost use Rattle.ob_answer_files.specs.Reads.{AreCallsRead, AreThreeRead, AreTwoRead, IsRecordRead, IsRunRead};
ghost use Rattle.ob_command.specs.Commands.{calls_request_of, run_request_of};

use crate::answered::Answer;
use crate::files::{FileFault, Files};
use crate::shown_name::push_name;
use ob_command::command::{CallsCommand, RunCommand};
use ob_interface::NoMemory;
use ob_scan::scanner::LONGEST_TEXT;
use std::alloc::{AllocError, Global};

/// How many bytes of a module are read: with one more than it may have it is known to be too long.
pub const MODULE_BYTES: usize = LONGEST_TEXT + 1;

/// What the files of a module and of a second text hold, or the answer where one can't be read.
#[derive(Drop)]
pub enum TwoFiles {
    Read { module: Vec<u8>, second: Vec<u8> },
    Unread(Answer),
}

/// What the files of a module and of two more texts hold, or the answer where one can't be read.
#[derive(Drop)]
pub enum ThreeFiles {
    Read {
        module: Vec<u8>,
        second: Vec<u8>,
        third: Vec<u8>,
    },
    Unread(Answer),
}

/// What the file of a record holds, where one is named, or the answer where it can't be read.
#[derive(Drop)]
pub enum RecordFile {
    Read(Option<Vec<u8>>),
    Unread(Answer),
}

/// What the files of calls hold: the beginning of a module's text, the text of a script, and that of the record with whose values
/// the object begins, where one is named.
#[derive(Drop)]
pub struct CallsBytes {
    pub text: Vec<u8>,
    pub script: Vec<u8>,
    pub from: Option<Vec<u8>>,
}

/// The same, or the answer where one can't be read.
#[derive(Drop)]
pub enum CallsFiles {
    Read(CallsBytes),
    Unread(Answer),
}

/// What the files of a run hold: those of its calls, and that of its schedule.
#[derive(Drop)]
pub struct RunBytes {
    pub text: Vec<u8>,
    pub script: Vec<u8>,
    pub schedule: Vec<u8>,
    pub from: Option<Vec<u8>>,
}

/// The same, or the answer where one can't be read.
#[derive(Drop)]
pub enum RunFiles {
    Read(RunBytes),
    Unread(Answer),
}

/// The files of a module and of a second text.
pub fn read_two<F: Files>(
    alloc: Global,
    module_name: &str,
    second_name: &str,
    files: &mut F,
) -> Result<TwoFiles, NoMemory>
    ensures { IfOk result (λ read. AreTwoRead F.reads module_name.now second_name.now files.old read files.new) }
{
    let module = match files.read_beginning(module_name, MODULE_BYTES) {
        Ok(bytes) => bytes,
        Err(FileFault::Unreadable) => return Ok(TwoFiles::Unread(unreadable(alloc, module_name)?)),
        Err(FileFault::NoMemory) => return Err(NoMemory),
    };
    match files.read(second_name) {
        Ok(second) => Ok(TwoFiles::Read { module, second }),
        Err(FileFault::Unreadable) => Ok(TwoFiles::Unread(unreadable(alloc, second_name)?)),
        Err(FileFault::NoMemory) => Err(NoMemory),
    }
}

/// The files of a module and of two more texts.
pub fn read_three<F: Files>(
    alloc: Global,
    module_name: &str,
    second_name: &str,
    third_name: &str,
    files: &mut F,
) -> Result<ThreeFiles, NoMemory>
    ensures { IfOk result (λ read. AreThreeRead F.reads module_name.now second_name.now third_name.now files.old read files.new) }
{
    match read_two(alloc, module_name, second_name, files)? {
        TwoFiles::Unread(answer) => Ok(ThreeFiles::Unread(answer)),
        TwoFiles::Read { module, second } => match files.read(third_name) {
            Ok(third) => Ok(ThreeFiles::Read {
                module,
                second,
                third,
            }),
            Err(FileFault::Unreadable) => Ok(ThreeFiles::Unread(unreadable(alloc, third_name)?)),
            Err(FileFault::NoMemory) => Err(NoMemory),
        },
    }
}

/// The file of a record, where one is named.
fn read_record<F: Files>(
    alloc: Global,
    name: Option<&str>,
    files: &mut F,
) -> Result<RecordFile, NoMemory>
    ensures { IfOk result (λ read. IsRecordRead F.reads (option_map (λ name. name.now) name.entry) files.old read files.new) }
{
    match name {
        None => Ok(RecordFile::Read(None)),
        Some(name) => match files.read(name) {
            Ok(bytes) => Ok(RecordFile::Read(Some(bytes))),
            Err(FileFault::Unreadable) => Ok(RecordFile::Unread(unreadable(alloc, name)?)),
            Err(FileFault::NoMemory) => Err(NoMemory),
        },
    }
}

/// The files of calls, that of the record behind the others.
pub fn read_calls<F: Files>(
    alloc: Global,
    calls: CallsCommand<'_>,
    files: &mut F,
) -> Result<CallsFiles, NoMemory>
    ensures { IfOk result (λ read. AreCallsRead F.reads (calls_request_of calls.entry) files.old read files.new) }
{
    match read_two(alloc, calls.module_name, calls.script_name, files)? {
        TwoFiles::Unread(answer) => Ok(CallsFiles::Unread(answer)),
        TwoFiles::Read { module, second } => match read_record(alloc, calls.from_name, files)? {
            RecordFile::Unread(answer) => Ok(CallsFiles::Unread(answer)),
            RecordFile::Read(from) => Ok(CallsFiles::Read(CallsBytes {
                text: module,
                script: second,
                from,
            })),
        },
    }
}

/// The files of a run, that of the record behind the others.
pub fn read_run<F: Files>(
    alloc: Global,
    run: RunCommand<'_>,
    files: &mut F,
) -> Result<RunFiles, NoMemory>
    ensures { IfOk result (λ read. IsRunRead F.reads (run_request_of run.entry) files.old read files.new) }
{
    let calls = run.calls;
    match read_three(
        alloc,
        calls.module_name,
        calls.script_name,
        run.schedule_name,
        files,
    )? {
        ThreeFiles::Unread(answer) => Ok(RunFiles::Unread(answer)),
        ThreeFiles::Read {
            module,
            second,
            third,
        } => match read_record(alloc, calls.from_name, files)? {
            RecordFile::Unread(answer) => Ok(RunFiles::Unread(answer)),
            RecordFile::Read(from) => Ok(RunFiles::Read(RunBytes {
                text: module,
                script: second,
                schedule: third,
                from,
            })),
        },
    }
}

/// The answer where a file can't be read.
pub fn unreadable(alloc: Global, name: &str) -> Result<Answer, AllocError>
    ensures { IfOk result (λ a. IsUnreadable a name.now) }
{
    let mut line = String::new(alloc);
    line.push_str("cannot read ")?;
    push_name(&mut line, name)?;
    line.push_str("\n")?;
    Ok(Answer::refused(alloc, 3, line))
}
