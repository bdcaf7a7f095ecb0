//! The answers to `run` with a schedule that is made: of chance, or gone on with until each call has ended.

ghost use Rattle.std.specs.Prelude.{◌≡◌, IfOk};
ghost use Rattle.ob_answer.specs.Answers.{IsChanceObeyed, IsChanceOfCalls, IsChanceSchedule, IsFinishedObeyed, IsFinishedOfRun, product_of};
ghost use Rattle.ob_answer_files.specs.Reads.{OfWhole};
ghost use Rattle.ob_command.specs.Commands.{chance_request_of, run_request_of};

use crate::command_answers::answer_run;
use crate::printed_forms::Product;
use ob_answer_files::answered::Answer;
use ob_answer_files::file_reading::{
    CallsBytes, CallsFiles, RunBytes, RunFiles, read_calls, read_run,
};
use ob_answer_files::files::Files;
use ob_command::command::{ChanceCommand, RunCommand, RunProduct};
use ob_interface::NoMemory;
use ob_text_scripts::chance::schedule_by_chance;
use ob_text_scripts::finish::finished_schedule;
use std::alloc::{AllocError, Global};

/// The name of the file of a schedule that is of no file.
const NO_NAME: &str = "";

/// The answer to a run that goes on from the schedule of a file until each call has ended.
pub(crate) fn obey_finished<F: Files>(
    alloc: Global,
    product: RunProduct,
    run: RunCommand<'_>,
    files: &mut F,
) -> Result<Answer, NoMemory>
    ensures { IfOk result (λ a. IsFinishedObeyed F.reads product (run_request_of run.entry) files.old a files.new) }
{
    match read_run(alloc, run, files)? {
        RunFiles::Read(bytes) => answer_finished(alloc, product, run, bytes),
        RunFiles::Unread(answer) => Ok(answer),
    }
}

/// The same of the bytes of its files.
fn answer_finished(
    alloc: Global,
    product: RunProduct,
    run: RunCommand<'_>,
    bytes: RunBytes,
) -> Result<Answer, NoMemory>
    ensures { IfOk result (OfWhole bytes.text.items (IsFinishedOfRun product run.entry bytes)) }
{
    let RunBytes {
        text,
        script,
        schedule,
        from,
    } = bytes;
    let finished = finished_schedule(alloc, &schedule, &script)?;
    let made = RunBytes {
        text,
        script,
        schedule: finished,
        from,
    };
    answer_run(alloc, product_of(product), run, &made)
}

/// The answer to a run by a schedule of chance.
pub(crate) fn obey_chance<F: Files>(
    alloc: Global,
    product: RunProduct,
    run: ChanceCommand<'_>,
    files: &mut F,
) -> Result<Answer, NoMemory>
    ensures { IfOk result (λ a. IsChanceObeyed F.reads product (chance_request_of run.entry) files.old a files.new) }
{
    match read_calls(alloc, run.calls, files)? {
        CallsFiles::Read(bytes) => answer_chance(alloc, product, run, bytes),
        CallsFiles::Unread(answer) => Ok(answer),
    }
}

/// The same of the bytes of its files.
fn answer_chance(
    alloc: Global,
    product: RunProduct,
    run: ChanceCommand<'_>,
    bytes: CallsBytes,
) -> Result<Answer, NoMemory>
    ensures { IfOk result (OfWhole bytes.text.items (IsChanceOfCalls product run.entry bytes)) }
{
    let CallsBytes { text, script, from } = bytes;
    let schedule = chance_schedule(alloc, run, &script)?;
    let made = RunBytes {
        text,
        script,
        schedule,
        from,
    };
    let of_file = RunCommand {
        calls: run.calls,
        schedule_name: NO_NAME,
    };
    answer_run(alloc, product_of(product), of_file, &made)
}

/// The schedule of such a run.
fn chance_schedule(
    alloc: Global,
    run: ChanceCommand<'_>,
    script: &[u8],
) -> Result<Vec<u8>, AllocError>
    ensures { IfOk result (λ schedule. IsChanceSchedule (chance_request_of run.entry) script.now schedule.items) }
{
    let schedule = schedule_by_chance(alloc, run.seed, run.calls.processes, u64::from(run.steps))?;
    if run.finish {
        finished_schedule(alloc, schedule.as_bytes(), script)
    } else {
        Ok(schedule.into_bytes())
    }
}

/// What is printed of such a run.
fn product_of(product: RunProduct) -> Product
    ensures { result ≡ product_of product }
{
    match product {
        RunProduct::Record => Product::Record,
        RunProduct::TreeRecord => Product::TreeRecord,
        RunProduct::RecordWithSteps => Product::RecordWithSteps,
    }
}
