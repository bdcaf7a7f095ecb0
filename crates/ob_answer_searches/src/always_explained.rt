//! The answer of `explain` on what is to hold always. Of a module's text it has the beginning: a module of more bytes is too long.

ghost use Rattle.std.specs.Prelude.{◌≡◌, ◌≢◌, ◌++◌, IfOk, IfSome, None, codes, map, string_bytes};
ghost use Rattle.ob_answer_explained.specs.CommandTexts.{calls_of_text, calls_texts_of, run_texts_of};
ghost use Rattle.ob_answer_files.specs.Printed.{IsRefused};
ghost use Rattle.ob_answer_files.specs.Reads.{OfWhole};
ghost use Rattle.ob_interface.specs.View.{signature_of};
ghost use Rattle.ob_text_words.specs.ExportNames.{export_named};
ghost use Rattle.ob_answer_searches.specs.ExplainedAlways.{HasWordsBelow, IsAlwaysExplained, IsAlwaysFaultShown, IsStoryShown, run_fault, run_of_calls};

use crate::outcome_fault::not_always_line;
use ob_answer_explained::asked_texts::{Calls, Run};
use ob_answer_explained::explaining_runs::run_wrong;
use ob_answer_files::answered::Answer;
use ob_command::command::RunCommand;
use ob_explain_arguments::near::near_export;
use ob_interface::NoMemory;
use ob_interface::export::Export;
use ob_object_calls::SeqTextFault;
use ob_object_outcomes::{Bounds, OutcomesFault, outcomes_text, scripted_text, story};
use ob_object_perform::{PerformFault, Texts};
use ob_text_words::export_names::export_named;
use std::alloc::{AllocError, Global};
use std::hash::RandomState;
use std::random::RandomSource;
use wf_history::CallId;

/// How many configurations are looked at.
const MOST: usize = 1_000_000;

/// What is said of a name that can't be asked.
const NO_QUESTION: &str =
    "what stands behind --always is an export with one VAR parameter, a BOOLEAN, and no other parameters\n";

/// What is said of too many configurations.
const TOO_MANY: &str =
    "there are more than 1000000 configurations of calls made and of states, and no more are looked at; `outcomes` with --most may look at more\n";

/// The answer to calls and the name of an export that is to answer TRUE always.
pub fn explain_always<R: RandomSource>(
    rt: &R,
    alloc: Global,
    calls: Calls<'_>,
    name: &str,
) -> Result<Answer, NoMemory>
    ensures { IfOk result (OfWhole calls.entry.asked.text.now (λ whole. IsAlwaysExplained name.now (calls_of_text (calls_texts_of calls.entry) whole))) }
{
    let Ok(keys) = RandomState::new(rt) else {
        return Err(NoMemory);
    };
    let bounds = Bounds {
        always: Some(name.as_bytes()),
        most: MOST,
        keys,
    };
    match outcomes_text(alloc, calls.asked, calls.script, &bounds) {
        Ok(_found) => Ok(Answer::printed(alloc, String::from_str(alloc, "ok\n")?)),
        Err(fault) => always_wrong(alloc, calls, name, fault),
    }
}

/// The answer to a fault.
fn always_wrong(
    alloc: Global,
    calls: Calls<'_>,
    name: &str,
    fault: OutcomesFault,
) -> Result<Answer, NoMemory>
    ensures fault { IfOk result (λ a. IsAlwaysFaultShown (calls_texts_of calls.entry) fault a) }
    ensures memory { IfOk result (λ _. fault ≢ OutcomesFault.NoMemory) }
{
    match fault {
        OutcomesFault::NoMemory => Err(NoMemory),
        OutcomesFault::Texts(fault) => run_wrong(alloc, run_of(calls), run_fault(fault)),
        OutcomesFault::NoQuestion => no_question(alloc, calls, name),
        OutcomesFault::TooMany => Ok(shown_below(alloc, "X2", TOO_MANY)?),
        OutcomesFault::NotAlways(path) => story_below(alloc, calls, name, &path),
    }
}

/// The answer to a name that can't be asked. The texts were read before, so that only memory can be wanting.
fn no_question(alloc: Global, calls: Calls<'_>, name: &str) -> Result<Answer, NoMemory>
    ensures { IfOk result (HasWordsBelow (codes "X5")) }
{
    let Ok(scripted) = scripted_text(alloc, calls.asked, calls.script) else {
        return Err(NoMemory);
    };
    let words = question_words(alloc, scripted.exports(), name)?;
    Ok(shown_below(alloc, "X5", &words)?)
}

/// What is said of a name that can't be asked: where no export has it, the one that it is meant to be, if some name is near.
fn question_words(alloc: Global, exports: &[Export], name: &str) -> Result<String, AllocError> {
    let Some(near) = meant_export(exports, name.as_bytes()) else {
        return String::from_str(alloc, NO_QUESTION);
    };
    let mut words = String::from_str(alloc, "the module exports no `")?;
    words.push_str(name)?;
    words.push_str("`; did you mean `")?;
    words.push_str(&near.name)?;
    words.push_str("`?\n")?;
    Ok(words)
}

/// The export that a name is meant to be which no export has, if some name is near.
fn meant_export<'a>(exports: &'a [Export], name: &[u8]) -> Option<&'a Export>
    ensures { IfSome result (λ _. export_named (map signature_of exports.now) name.now ≡ None) }
{
    match export_named(exports, name) {
        Some(_) => None,
        None => near_export(exports, name),
    }
}

/// The calls as those of a run, whose processes make them: of a fault of its texts the schedule says nothing.
fn run_of(calls: Calls<'_>) -> Run<'_>
    ensures { run_texts_of result ≡ run_of_calls (calls_texts_of calls.entry) }
{
    let command = RunCommand {
        calls: calls.command,
        schedule_name: "",
    };
    let texts = Texts {
        asked: calls.asked,
        scripts: calls.script,
        schedule: b"",
    };
    Run {
        command,
        texts,
        record_text: calls.record_text,
    }
}

/// A fault of texts as one of a run.
fn run_fault(fault: SeqTextFault) -> PerformFault
    ensures { result ≡ run_fault fault }
{
    match fault {
        SeqTextFault::Compile(fault) => PerformFault::Compile(fault),
        SeqTextFault::Script(fault) => PerformFault::Script(fault),
        SeqTextFault::NoMemory => PerformFault::NoMemory,
    }
}

/// The answer that has more below the line of a fault.
fn shown_below(alloc: Global, line: &str, below: &str) -> Result<Answer, AllocError>
    ensures { IfOk result (λ a. IsRefused a 1 (line.now ++ codes "\n" ++ below.now)) }
{
    let mut text = String::from_str(alloc, line)?;
    text.push_str("\n")?;
    text.push_str(below)?;
    Ok(Answer::refused(alloc, 1, text))
}

/// The answer to calls behind which the export does not answer TRUE. Their texts were read before, so that only memory can be wanting.
fn story_below(
    alloc: Global,
    calls: Calls<'_>,
    name: &str,
    path: &[CallId],
) -> Result<Answer, NoMemory>
    ensures { IfOk result (IsStoryShown (calls_texts_of calls.entry) path.now) }
{
    let Ok(scripted) = scripted_text(alloc, calls.asked, calls.script) else {
        return Err(NoMemory);
    };
    let told = story(alloc, &scripted, path, name)?;
    let line = not_always_line(alloc, path)?;
    Ok(shown_below(alloc, &line, &told)?)
}
