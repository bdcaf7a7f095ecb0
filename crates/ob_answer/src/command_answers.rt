//! The answers to commands on calls and on runs: their files are read, then the values of the record that is named, if one is; then the
//! answer is made.

ghost use Rattle.std.specs.Prelude.{◌≡◌, IfOk};
ghost use Rattle.ob_answer.specs.Answers.{IsCallsAnswer, IsCallsObeyed, IsMadeOfCalls, IsMadeOfRun, IsMadeOfServe, IsRunAnswer, IsRunObeyed, IsServeObeyed, shows_calls, shows_run};
ghost use Rattle.ob_answer_files.specs.Reads.{OfWhole};
ghost use Rattle.ob_answer_explained.specs.CommandTexts.{calls_of_text, calls_texts_of, run_of_text, run_texts_of};
ghost use Rattle.ob_command.specs.Commands.{calls_request_of, run_request_of};

use crate::printed_forms::{CallsProduct, Product};
use crate::text_answers::{
    answer_picture, answer_record, answer_seq, answer_serve, answer_state, answer_steps,
    answer_told, answer_tree_record,
};
use ob_answer_explained::asked_texts::{Calls, Run, bytes_or_none, calls_with, run_with};
use ob_answer_explained::explaining::explain_calls;
use ob_answer_explained::explaining_runs::explain_run;
use ob_answer_explained::explaining_traps::explain_traps;
use ob_answer_explained::record_opening::values_in;
use ob_answer_explained::shown_faults::values_wrong;
use ob_answer_files::answered::Answer;
use ob_answer_files::file_reading::{
    CallsBytes, CallsFiles, RunBytes, RunFiles, read_calls, read_run,
};
use ob_answer_files::files::Files;
use ob_command::command::{CallsCommand, RunCommand};
use ob_interface::NoMemory;
use std::alloc::Global;
use std::sync::Wait;
use std::thread::Threads;

/// The answer to a command on calls.
pub(crate) fn obey_calls<F: Files>(
    alloc: Global,
    product: CallsProduct,
    calls: CallsCommand<'_>,
    files: &mut F,
) -> Result<Answer, NoMemory>
    ensures { IfOk result (λ a. IsCallsObeyed F.reads product (calls_request_of calls.entry) files.old a files.new) }
{
    match read_calls(alloc, calls, files)? {
        CallsFiles::Read(bytes) => answer_calls(alloc, product, calls, &bytes),
        CallsFiles::Unread(answer) => Ok(answer),
    }
}

/// The answer to a command on calls, of the bytes of its files.
fn answer_calls(
    alloc: Global,
    product: CallsProduct,
    calls: CallsCommand<'_>,
    bytes: &CallsBytes,
) -> Result<Answer, NoMemory>
    ensures { IfOk result (OfWhole bytes.now.text.items (IsMadeOfCalls product calls.entry bytes.now)) }
{
    match values_in(alloc, &bytes.from) {
        Ok(values) => begun_calls(alloc, product, calls_with(calls, bytes, &values)),
        Err(fault) => {
            let is_shown = shows_calls(product);
            let record_text = bytes_or_none(&bytes.from);
            values_wrong(alloc, is_shown, calls.from_name, record_text, fault)
        }
    }
}

/// The answer to calls on the object that is asked for.
fn begun_calls(alloc: Global, product: CallsProduct, calls: Calls<'_>) -> Result<Answer, NoMemory>
    ensures { IfOk result (OfWhole calls.entry.asked.text.now (λ whole. IsCallsAnswer product (calls_of_text (calls_texts_of calls.entry) whole))) }
{
    match product {
        CallsProduct::Replies => answer_seq(alloc, calls.asked, calls.script),
        CallsProduct::Told(details) => answer_told(alloc, calls.asked, calls.script, details),
        CallsProduct::Explanation => explain_calls(alloc, calls),
        CallsProduct::Traps => explain_traps(alloc, calls),
    }
}

/// Whether the faults of a command on calls are shown to people.
fn shows_calls(product: CallsProduct) -> bool
    ensures { result ≡ shows_calls product }
{
    match product {
        CallsProduct::Replies | CallsProduct::Told(_) => false,
        CallsProduct::Explanation | CallsProduct::Traps => true,
    }
}

/// The answer to `serve`.
pub(crate) fn obey_serve<R: Threads + Wait + Sync, F: Files>(
    rt: &R,
    alloc: Global,
    calls: CallsCommand<'_>,
    files: &mut F,
) -> Result<Answer, NoMemory>
    ensures { IfOk result (λ a. IsServeObeyed F.reads (calls_request_of calls.entry) files.old a files.new) }
{
    match read_calls(alloc, calls, files)? {
        CallsFiles::Read(bytes) => answer_served(rt, alloc, calls, &bytes),
        CallsFiles::Unread(answer) => Ok(answer),
    }
}

/// The answer to `serve`, of the bytes of its files.
fn answer_served<R: Threads + Wait + Sync>(
    rt: &R,
    alloc: Global,
    calls: CallsCommand<'_>,
    bytes: &CallsBytes,
) -> Result<Answer, NoMemory>
    ensures { IfOk result (OfWhole bytes.now.text.items (IsMadeOfServe calls.entry bytes.now)) }
{
    match values_in(alloc, &bytes.from) {
        Ok(values) => {
            let begun = calls_with(calls, bytes, &values);
            answer_serve(rt, alloc, begun.asked, begun.script)
        }
        Err(fault) => {
            let record_text = bytes_or_none(&bytes.from);
            values_wrong(alloc, false, calls.from_name, record_text, fault)
        }
    }
}

/// The answer to a command on a run.
pub(crate) fn obey_run<F: Files>(
    alloc: Global,
    product: Product,
    run: RunCommand<'_>,
    files: &mut F,
) -> Result<Answer, NoMemory>
    ensures { IfOk result (λ a. IsRunObeyed F.reads product (run_request_of run.entry) files.old a files.new) }
{
    match read_run(alloc, run, files)? {
        RunFiles::Read(bytes) => answer_run(alloc, product, run, &bytes),
        RunFiles::Unread(answer) => Ok(answer),
    }
}

/// The answer to a command on a run, of the bytes of its files.
pub(crate) fn answer_run(
    alloc: Global,
    product: Product,
    run: RunCommand<'_>,
    bytes: &RunBytes,
) -> Result<Answer, NoMemory>
    ensures { IfOk result (OfWhole bytes.now.text.items (IsMadeOfRun product run.entry bytes.now)) }
{
    match values_in(alloc, &bytes.from) {
        Ok(values) => begun_run(alloc, product, run_with(run, bytes, &values)),
        Err(fault) => {
            let is_shown = shows_run(product);
            let record_text = bytes_or_none(&bytes.from);
            values_wrong(alloc, is_shown, run.calls.from_name, record_text, fault)
        }
    }
}

/// The answer to a run of the object that is asked for.
fn begun_run(alloc: Global, product: Product, run: Run<'_>) -> Result<Answer, NoMemory>
    ensures { IfOk result (OfWhole run.entry.texts.asked.text.now (λ whole. IsRunAnswer product (run_of_text (run_texts_of run.entry) whole))) }
{
    match product {
        Product::Record => answer_record(alloc, run.texts),
        Product::TreeRecord => answer_tree_record(alloc, run.texts),
        Product::RecordWithSteps => answer_steps(alloc, run.texts),
        Product::State => answer_state(alloc, run.texts),
        Product::Picture(calls) => answer_picture(alloc, run.texts, calls),
        Product::Explanation => explain_run(alloc, run),
    }
}

/// Whether the faults of a command on a run are shown to people.
fn shows_run(product: Product) -> bool
    ensures { result ≡ shows_run product }
{
    match product {
        Product::Explanation => true,
        _ => false,
    }
}
