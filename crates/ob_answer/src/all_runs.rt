//! The answers on all runs of a script: to `outcomes`, and to `explain` of what is to hold always. Their files are read as those of calls
//! are, then the values of the record that is named, if one is; then the answer is made.

ghost use Rattle.std.specs.Prelude.{◌≡◌, IfOk};
ghost use Rattle.ob_answer.specs.AllRuns.{IsAllRunsAnswer, all_runs_of, shows_all_runs};
ghost use Rattle.ob_answer.specs.Answers.{IsAllRunsObeyed, IsMadeOfAllRuns};
ghost use Rattle.ob_answer_explained.specs.CommandTexts.{calls_of_text, calls_texts_of};
ghost use Rattle.ob_answer_files.specs.Reads.{OfWhole};
ghost use Rattle.ob_command.specs.Commands.{calls_request_of};

use ob_answer_explained::asked_texts::{Calls, bytes_or_none, calls_with};
use ob_answer_explained::record_opening::values_in;
use ob_answer_explained::shown_faults::values_wrong;
use ob_answer_files::answered::Answer;
use ob_answer_files::file_reading::{CallsBytes, CallsFiles, read_calls};
use ob_answer_files::files::Files;
use ob_answer_searches::always_explained::explain_always;
use ob_answer_searches::outcomes_answers::{Looking, answer_outcomes};
use ob_answer_searches::whole_answers::answer_whole_outcomes;
use ob_command::command::CallsCommand;
use ob_interface::NoMemory;
use std::alloc::Global;
use std::random::RandomSource;

/// What is told of all runs: what may happen in them, or each outcome as a whole, or how one comes to where an export does not answer TRUE.
#[derive(Clone, Copy)]
pub enum AllRuns<'a> {
    Told(Looking<'a>),
    Whole(Looking<'a>),
    Explained(&'a str),
}

/// The answer to a command on all runs of calls.
pub(crate) fn obey_all_runs<R: RandomSource, F: Files>(
    rt: &R,
    alloc: Global,
    all: AllRuns<'_>,
    calls: CallsCommand<'_>,
    files: &mut F,
) -> Result<Answer, NoMemory>
    ensures { IfOk result (λ a. IsAllRunsObeyed F.reads (all_runs_of all.entry) (calls_request_of calls.entry) files.old a files.new) }
{
    match read_calls(alloc, calls, files)? {
        CallsFiles::Read(bytes) => answer_all_runs(rt, alloc, all, calls, &bytes),
        CallsFiles::Unread(answer) => Ok(answer),
    }
}

/// The same of the bytes of its files.
fn answer_all_runs<R: RandomSource>(
    rt: &R,
    alloc: Global,
    all: AllRuns<'_>,
    calls: CallsCommand<'_>,
    bytes: &CallsBytes,
) -> Result<Answer, NoMemory>
    ensures { IfOk result (OfWhole bytes.now.text.items (IsMadeOfAllRuns (all_runs_of all.entry) calls.entry bytes.now)) }
{
    match values_in(alloc, &bytes.from) {
        Ok(values) => begun_all_runs(rt, alloc, all, calls_with(calls, bytes, &values)),
        Err(fault) => {
            let is_shown = shows_all_runs(all);
            let record_text = bytes_or_none(&bytes.from);
            values_wrong(alloc, is_shown, calls.from_name, record_text, fault)
        }
    }
}

/// The answer of the object that is asked for.
fn begun_all_runs<R: RandomSource>(
    rt: &R,
    alloc: Global,
    all: AllRuns<'_>,
    calls: Calls<'_>,
) -> Result<Answer, NoMemory>
    ensures { IfOk result (OfWhole calls.entry.asked.text.now (λ whole. IsAllRunsAnswer (all_runs_of all.entry) (calls_of_text (calls_texts_of calls.entry) whole))) }
{
    match all {
        AllRuns::Told(looking) => answer_outcomes(rt, alloc, calls.asked, calls.script, looking),
        AllRuns::Whole(looking) => {
            answer_whole_outcomes(rt, alloc, calls.asked, calls.script, looking)
        }
        AllRuns::Explained(name) => explain_always(rt, alloc, calls, name),
    }
}

/// Whether the faults of a command on all runs are shown to people.
fn shows_all_runs(all: AllRuns<'_>) -> bool
    ensures { result ≡ shows_all_runs (all_runs_of all.entry) }
{
    match all {
        AllRuns::Told(_) | AllRuns::Whole(_) => false,
        AllRuns::Explained(_) => true,
    }
}
