//! From the words of the command line to what the program prints and its exit status.

ghost use Rattle.std.specs.Prelude.{◌≡◌, IfNone, IfOk, IfSome, count_by, map, nat_lt};
ghost use Rattle.std.specs.Str.{bytes_eq};
ghost use Rattle.ob_answer.specs.AllRuns.{all_runs_for, all_runs_of};
ghost use Rattle.ob_answer.specs.Alone.{IsAlone, IsAloneTo, IsNotServe, IsStopAnswer};
ghost use Rattle.ob_answer.specs.Answers.{IsAnswer, IsObeyed, files_of, input_name, live_apart_text, range_of, reads_input_twice, sequence_product};
ghost use Rattle.ob_answer_files.specs.Printed.{IsRefused};
ghost use Rattle.ob_answer_files.specs.Reads.{files_of_calls, files_of_run};
ghost use Rattle.ob_command.specs.CommandLine.{Bound, Check, DrawHistory, DrawRecord, Listing, Order, Serve, Verify};
ghost use Rattle.ob_command.specs.Commands.{calls_request_of, order_request_of, outcomes_request_of, request_of, run_request_of, seen_request_of, seq_request_of};

use crate::all_runs::{AllRuns, obey_all_runs};
use crate::command_answers::{obey_calls, obey_run, obey_serve};
use crate::explaining::{
    answer_fault, obey_explain_history, obey_explain_module, obey_explain_record,
    obey_explain_record_traps,
};
use crate::printed_forms::{CallsProduct, Product};
use crate::schedule_answers::{obey_chance, obey_finished};
use crate::text_answers::{
    answer_bound, answer_check, answer_draw_seen, answer_list, answer_verify,
};
use ob_answer_files::answered::Answer;
use ob_answer_files::file_reading::{MODULE_BYTES, TwoFiles, read_two, unreadable};
use ob_answer_files::files::{FileFault, Files};
use ob_answer_searches::history_drawing::{HistoryDrawing, answer_draw_history};
use ob_answer_searches::order_answers::answer_order;
use ob_answer_searches::outcomes_answers::Looking;
use ob_command::command::{
    CallNumbers, CallsCommand, Command, OrderCommand, OutcomesCommand, RunCommand, SeenCommand,
    SeqCommand, Stop,
};
use ob_interface::NoMemory;
use ob_object_calls::Details;
use ob_picture_chart::CallRange;
use ob_plain_words::asked_command::asked_command;
use std::alloc::Global;
use std::random::RandomSource;
use std::sync::Wait;
use std::thread::Threads;

/// The program's name and version, the logic that it is proved in, and its licence.
const VERSION: &str = "obl0 0.1.0\nrattle logic dac8208d650f15bf\nMIT OR Apache-2.0\n";

/// The name of standard input.
pub const INPUT_NAME: &str = "-";

/// The mistake of words that name standard input for two files.
pub(crate) const INPUT_TWICE: &str =
    "error: `-`, which is standard input, stands for one file alone\n";

/// What is said of `live` where lines are not heard one by one: here files alone are read.
const LIVE_APART: &str =
    "error: live answers lines as they come, and here whole files alone are read\n";

/// What comes of words where no thread is started.
#[derive(Drop)]
pub enum Alone<'a> {
    /// Their answer.
    Answered(Answer),
    /// They ask for `serve`, whose calls are made by threads: no file is read.
    Serves(CallsCommand<'a>),
}

/// The answer to the words behind the program's name. Files are read in the order in which the words
/// name them, that of the record with whose values an object begins behind the others, before anything is made of them. Only `serve`
/// starts threads and waits, and only a search for an order asks for random bytes. `live` is answered by `answer_live`: here it is told that it
/// can't be.
pub fn answer<R: Threads + Wait + Sync + AllocGlobal + RandomSource, F: Files>(
    rt: &R,
    words: &[&str],
    files: &mut F,
) -> Result<Answer, NoMemory>
    // To any words: what they ask for is answered, and of words that are a mistake what is wrong is said.
    ensures asked { IfOk result (λ a. IsAnswer F.reads (map (λ word. word.now) words.now) files.old a files.new) }
{
    let alloc = rt.alloc();
    match answer_alone(rt, alloc, words, files)? {
        Alone::Answered(answer) => Ok(answer),
        Alone::Serves(calls) => obey_serve(rt, alloc, calls, files),
    }
}

/// The same without a runtime: the answer to all words but those of `serve`. The random bytes of a search for an order come from `keys`.
pub fn answer_alone<'a, K: RandomSource, F: Files>(
    keys: &K,
    alloc: Global,
    words: &'a [&'a str],
    files: &mut F,
) -> Result<Alone<'a>, NoMemory>
    ensures asked { IfOk result (λ alone. IsAlone F.reads (map (λ word. word.now) words.entry.now) files.old alone files.new) }
{
    match asked_command(alloc, words) {
        Ok(command) => obey_once(keys, alloc, command, files),
        Err(stop) => Ok(Alone::Answered(answer_stop(alloc, stop)?)),
    }
}

/// The answer to words that ask for no command.
fn answer_stop(alloc: Global, stop: Stop) -> Result<Answer, NoMemory>
    ensures { IfOk result (IsStopAnswer stop) }
{
    match stop {
        Stop::Help(text) => Ok(Answer::printed(alloc, text)),
        Stop::Version => Ok(Answer::printed(alloc, String::from_str(alloc, VERSION)?)),
        Stop::Unclear(text) => Ok(Answer::refused(alloc, 2, text)),
        Stop::NoMemory => Err(NoMemory),
    }
}

/// What comes of a command, which may read standard input but once.
fn obey_once<'a, K: RandomSource, F: Files>(
    keys: &K,
    alloc: Global,
    command: Command<'a>,
    files: &mut F,
) -> Result<Alone<'a>, NoMemory>
    ensures { IfOk result (λ alone. IsAloneTo F.reads (request_of command.entry) files.old alone files.new) }
{
    if reads_input_twice(command) {
        let answer = Answer::refused(alloc, 2, String::from_str(alloc, INPUT_TWICE)?);
        return Ok(Alone::Answered(answer));
    }
    match served(command) {
        Some(calls) => Ok(Alone::Serves(calls)),
        None => Ok(Alone::Answered(obey(keys, alloc, command, files)?)),
    }
}

/// The calls of `serve`, if a command is that.
fn served(command: Command<'_>) -> Option<CallsCommand<'_>>
    ensures serve { IfSome result (λ calls. request_of command.entry ≡ Serve (calls_request_of calls)) }
    ensures alone { IfNone result (IsNotServe (request_of command.entry)) }
{
    match command {
        Command::Serve(calls) => Some(calls),
        _ => None,
    }
}

/// Whether a command names standard input for two files.
fn reads_input_twice(command: Command<'_>) -> bool
    ensures { result ≡ reads_input_twice (files_of (request_of command.entry)) }
{
    match command {
        Command::Check { .. } => false,
        Command::List { .. } => false,
        Command::Bound { .. } => false,
        Command::Live(_) => false,
        Command::Seq(sequence) => are_inputs_of_calls(sequence.calls),
        Command::Serve(calls) => are_inputs_of_calls(calls),
        Command::Run(run) => are_inputs_of_run(run),
        Command::RunTree(run) => are_inputs_of_run(run),
        Command::RunSteps(run) => are_inputs_of_run(run),
        Command::RunFinished { run, .. } => are_inputs_of_run(run),
        Command::RunByChance { run, .. } => are_inputs_of_calls(run.calls),
        Command::Draw { run, .. } => are_inputs_of_run(run),
        Command::State(run) => are_inputs_of_run(run),
        Command::DrawRecord {
            module_name,
            record_name,
            ..
        } => are_two_inputs(&[module_name, record_name]),
        Command::DrawHistory(seen) => are_two_inputs(&[seen.module_name, seen.history_name]),
        Command::Outcomes(outcomes) => are_inputs_of_calls(outcomes.calls),
        Command::Verify {
            module_name,
            record_name,
        } => are_two_inputs(&[module_name, record_name]),
        Command::Order(order) => are_two_inputs(&[order.module_name, order.history_name]),
        Command::Explain { .. } => false,
        Command::ExplainFault { .. } => false,
        Command::ExplainCalls(calls) => are_inputs_of_calls(calls),
        Command::ExplainTraps(calls) => are_inputs_of_calls(calls),
        Command::ExplainRun(run) => are_inputs_of_run(run),
        Command::ExplainAlways(asked) => are_inputs_of_calls(asked.calls),
        Command::ExplainRecord {
            module_name,
            record_name,
        } => are_two_inputs(&[module_name, record_name]),
        Command::ExplainRecordTraps {
            module_name,
            record_name,
        } => are_two_inputs(&[module_name, record_name]),
        Command::ExplainHistory {
            module_name,
            history_name,
        } => are_two_inputs(&[module_name, history_name]),
    }
}

/// Whether calls name standard input for two files.
pub(crate) fn are_inputs_of_calls(calls: CallsCommand<'_>) -> bool
    ensures { result ≡ reads_input_twice (files_of_calls (calls_request_of calls.entry)) }
{
    match calls.from_name {
        Some(from_name) => are_two_inputs(&[calls.module_name, calls.script_name, from_name]),
        None => are_two_inputs(&[calls.module_name, calls.script_name]),
    }
}

/// Whether a run names standard input for two files.
fn are_inputs_of_run(run: RunCommand<'_>) -> bool
    ensures { result ≡ reads_input_twice (files_of_run (run_request_of run.entry)) }
{
    let calls = run.calls;
    let schedule_name = run.schedule_name;
    match calls.from_name {
        Some(from_name) => are_two_inputs(&[
            calls.module_name,
            calls.script_name,
            schedule_name,
            from_name,
        ]),
        None => are_two_inputs(&[calls.module_name, calls.script_name, schedule_name]),
    }
}

/// Whether more than one of these names is that of standard input.
fn are_two_inputs(names: &[&str]) -> bool
    ensures { result ≡ nat_lt 1 (count_by (λ name. bytes_eq name.now input_name) names.now) }
{
    names.iter().filter(|name| **name == INPUT_NAME).count() > 1
}

/// The answer to a command that is not `serve`.
fn obey<K: RandomSource, F: Files>(
    keys: &K,
    alloc: Global,
    command: Command<'_>,
    files: &mut F,
) -> Result<Answer, NoMemory>
    requires alone { IsNotServe (request_of command) }
    ensures { IfOk result (λ a. IsObeyed F.reads (request_of command.entry) files.old a files.new) }
{
    match command {
        Command::Check { module_name } => obey_check(alloc, module_name, files),
        Command::List { module_name } => obey_list(alloc, module_name, files),
        Command::Seq(sequence) => obey_calls(alloc, product_of(sequence), sequence.calls, files),
        Command::Live(_) => live_apart(alloc),
        Command::Run(run) => obey_run(alloc, Product::Record, run, files),
        Command::RunTree(run) => obey_run(alloc, Product::TreeRecord, run, files),
        Command::RunSteps(run) => obey_run(alloc, Product::RecordWithSteps, run, files),
        Command::RunFinished { product, run } => obey_finished(alloc, product, run, files),
        Command::RunByChance { product, run } => obey_chance(alloc, product, run, files),
        Command::Serve(_) => unreachable!(),
        Command::State(run) => obey_run(alloc, Product::State, run, files),
        Command::Draw { run, calls } => {
            obey_run(alloc, Product::Picture(range_of(calls)), run, files)
        }
        Command::DrawRecord {
            module_name,
            record_name,
            calls,
        } => {
            let seen = SeenFiles {
                module_name,
                seen_name: record_name,
                calls,
            };
            obey_draw_seen(keys, alloc, seen, files)
        }
        Command::DrawHistory(seen) => obey_draw_history(keys, alloc, seen, files),
        Command::Outcomes(outcomes) => {
            obey_all_runs(keys, alloc, all_runs_for(outcomes), outcomes.calls, files)
        }
        Command::Verify {
            module_name,
            record_name,
        } => obey_verify(alloc, module_name, record_name, files),
        Command::Order(order) => obey_order(keys, alloc, order, files),
        Command::Explain { module_name, .. } => obey_explain_module(alloc, module_name, files),
        Command::ExplainFault { name } => answer_fault(alloc, name),
        Command::ExplainCalls(calls) => obey_calls(alloc, CallsProduct::Explanation, calls, files),
        Command::ExplainTraps(calls) => obey_calls(alloc, CallsProduct::Traps, calls, files),
        Command::ExplainRun(run) => obey_run(alloc, Product::Explanation, run, files),
        Command::ExplainAlways(asked) => {
            obey_all_runs(
                keys,
                alloc,
                AllRuns::Explained(asked.name),
                asked.calls,
                files,
            )
        }
        Command::ExplainRecord {
            module_name,
            record_name,
        } => obey_explain_record(alloc, module_name, record_name, files),
        Command::ExplainRecordTraps {
            module_name,
            record_name,
        } => obey_explain_record_traps(alloc, module_name, record_name, files),
        Command::ExplainHistory {
            module_name,
            history_name,
        } => obey_explain_history(keys, alloc, module_name, history_name, files),
        Command::Bound {
            module_name,
            processes,
            budget,
        } => obey_bound(alloc, module_name, processes, budget, files),
    }
}

/// The answer to `live`, of which no line is heard here.
fn live_apart(alloc: Global) -> Result<Answer, NoMemory>
    ensures { IfOk result (λ a. IsRefused a 2 live_apart_text) }
{
    Ok(Answer::refused(alloc, 2, String::from_str(alloc, LIVE_APART)?))
}

/// What is printed of calls that are made one at a time.
fn product_of(sequence: SeqCommand<'_>) -> CallsProduct
    ensures { result ≡ sequence_product (seq_request_of sequence.entry) }
{
    if sequence.state || sequence.turns {
        CallsProduct::Told(Details {
            state: sequence.state,
            turns: sequence.turns,
        })
    } else {
        CallsProduct::Replies
    }
}

/// The answer to `check`, of the name of its file.
fn obey_check<F: Files>(alloc: Global, module_name: &str, files: &mut F) -> Result<Answer, NoMemory>
    ensures { IfOk result (λ a. IsObeyed F.reads (Check module_name.now) files.old a files.new) }
{
    match files.read_beginning(module_name, MODULE_BYTES) {
        Ok(module) => answer_check(alloc, module.as_slice()),
        Err(FileFault::Unreadable) => Ok(unreadable(alloc, module_name)?),
        Err(FileFault::NoMemory) => Err(NoMemory),
    }
}

/// The answer to `list`, of the name of its file.
fn obey_list<F: Files>(alloc: Global, module_name: &str, files: &mut F) -> Result<Answer, NoMemory>
    ensures { IfOk result (λ a. IsObeyed F.reads (Listing module_name.now) files.old a files.new) }
{
    match files.read_beginning(module_name, MODULE_BYTES) {
        Ok(module) => answer_list(alloc, module.as_slice()),
        Err(FileFault::Unreadable) => Ok(unreadable(alloc, module_name)?),
        Err(FileFault::NoMemory) => Err(NoMemory),
    }
}

/// The answer to `bound`, of the name of its file, the number of processes and the budget of each call.
fn obey_bound<F: Files>(
    alloc: Global,
    module_name: &str,
    processes: usize,
    budget: u32,
    files: &mut F,
) -> Result<Answer, NoMemory>
    ensures { IfOk result (λ a. IsObeyed F.reads (Bound module_name.now processes budget) files.old a files.new) }
{
    match files.read_beginning(module_name, MODULE_BYTES) {
        Ok(module) => answer_bound(alloc, module.as_slice(), processes, budget),
        Err(FileFault::Unreadable) => Ok(unreadable(alloc, module_name)?),
        Err(FileFault::NoMemory) => Err(NoMemory),
    }
}

/// The calls of a picture that words name.
fn range_of(calls: Option<CallNumbers>) -> Option<CallRange>
    ensures { result ≡ range_of calls }
{
    match calls {
        None => None,
        Some(calls) => Some(CallRange {
            from: calls.from as usize,
            to: calls.to as usize,
        }),
    }
}

/// What words ask of all runs.
fn all_runs_for(outcomes: OutcomesCommand<'_>) -> AllRuns<'_>
    ensures { all_runs_of result ≡ all_runs_for (outcomes_request_of outcomes.entry) }
{
    let looking = Looking {
        always: outcomes.always,
        most: outcomes.most,
    };
    if outcomes.whole {
        AllRuns::Whole(looking)
    } else {
        AllRuns::Told(looking)
    }
}

/// The names of the files of a module and of what was seen of its object, a record or a history, and the calls that are drawn.
#[derive(Clone, Copy)]
struct SeenFiles<'a> {
    module_name: &'a str,
    seen_name: &'a str,
    calls: Option<CallNumbers>,
}

/// The answer to `draw` on a record or on a history.
fn obey_draw_seen<R: RandomSource, F: Files>(
    rt: &R,
    alloc: Global,
    seen: SeenFiles<'_>,
    files: &mut F,
) -> Result<Answer, NoMemory>
    ensures { IfOk result (λ a. IsObeyed F.reads (DrawRecord seen.entry.module_name.now seen.entry.seen_name.now seen.entry.calls) files.old a files.new) }
{
    match read_two(alloc, seen.module_name, seen.seen_name, files)? {
        TwoFiles::Read { module, second } => {
            answer_draw_seen(
                rt,
                alloc,
                module.as_slice(),
                second.as_slice(),
                range_of(seen.calls),
            )
        }
        TwoFiles::Unread(answer) => Ok(answer),
    }
}

/// The answer to `draw` on a history, by a search that is told how to search.
fn obey_draw_history<R: RandomSource, F: Files>(
    rt: &R,
    alloc: Global,
    seen: SeenCommand<'_>,
    files: &mut F,
) -> Result<Answer, NoMemory>
    ensures { IfOk result (λ a. IsObeyed F.reads (DrawHistory (seen_request_of seen.entry)) files.old a files.new) }
{
    match read_two(alloc, seen.module_name, seen.history_name, files)? {
        TwoFiles::Read { module, second } => {
            let drawing = HistoryDrawing {
                budget: seen.budget,
                most: seen.most,
                calls: range_of(seen.calls),
            };
            answer_draw_history(rt, alloc, module.as_slice(), second.as_slice(), drawing)
        }
        TwoFiles::Unread(answer) => Ok(answer),
    }
}

/// The answer to `order`.
fn obey_order<R: RandomSource, F: Files>(
    rt: &R,
    alloc: Global,
    order: OrderCommand<'_>,
    files: &mut F,
) -> Result<Answer, NoMemory>
    ensures { IfOk result (λ a. IsObeyed F.reads (Order (order_request_of order.entry)) files.old a files.new) }
{
    match read_two(alloc, order.module_name, order.history_name, files)? {
        TwoFiles::Read { module, second } => {
            answer_order(rt, alloc, order, module.as_slice(), second.as_slice())
        }
        TwoFiles::Unread(answer) => Ok(answer),
    }
}

/// The answer to `verify`, of the names of its files.
fn obey_verify<F: Files>(
    alloc: Global,
    module_name: &str,
    record_name: &str,
    files: &mut F,
) -> Result<Answer, NoMemory>
    ensures { IfOk result (λ a. IsObeyed F.reads (Verify module_name.now record_name.now) files.old a files.new) }
{
    match read_two(alloc, module_name, record_name, files)? {
        TwoFiles::Read { module, second } => {
            answer_verify(alloc, module.as_slice(), second.as_slice())
        }
        TwoFiles::Unread(answer) => Ok(answer),
    }
}
