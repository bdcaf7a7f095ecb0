//! The answers of `outcomes`. Of a module's text they have the beginning: a module of more bytes is too long.

ghost use Rattle.std.specs.Prelude.{◌≡◌, ◌≢◌, ◌++◌, IfOk, codes, option_map};
ghost use Rattle.ob_answer_explained.specs.CommandTexts.{of_text};
ghost use Rattle.ob_answer_files.specs.Printed.{IsRefused};
ghost use Rattle.ob_answer_files.specs.Reads.{OfWhole};
ghost use Rattle.ob_answer_searches.specs.OutcomesAnswers.{AreRepliesAnswered, IsOutcomesAnswer, looking_of};
ghost use Rattle.ob_answer_searches.specs.OutcomesFaultLines.{outcomes_fault_line};
ghost use Rattle.ob_object_compile.specs.View.{asked_of, beginning_of};
ghost use Rattle.ob_object_outcomes.specs.OutcomesView.{always_in};

use crate::outcome_fault::outcomes_fault_line;
use ob_answer_files::answered::{Answer, refused};
use ob_interface::NoMemory;
use ob_object_compile::{Asked, Beginning};
use ob_object_outcomes::{Bounds, OutcomesFault, outcome_lines, outcomes_text};
use std::alloc::Global;
use std::hash::RandomState;
use std::random::RandomSource;

/// What is asked of all runs: the name of the export that is to answer TRUE always, where one is named, and how many configurations are
/// looked at at most.
#[derive(Clone, Copy)]
pub struct Looking<'a> {
    pub always: Option<&'a str>,
    pub most: u32,
}

/// The answer to `outcomes`, of the object that is asked for and the text of a script: what each call may answer, and how all may end.
pub fn answer_outcomes<R: RandomSource>(
    rt: &R,
    alloc: Global,
    asked: Asked<'_>,
    script: &[u8],
    looking: Looking<'_>,
) -> Result<Answer, NoMemory>
    ensures { IfOk result (OfWhole asked.entry.text.now (λ whole. IsOutcomesAnswer (looking_of looking.entry) (of_text (asked_of asked.entry) whole) script.now)) }
{
    let bounds = bounds_of(rt, looking)?;
    answer_replies(alloc, asked, script, &bounds)
}

/// What an exploration is to go by. Want of random bytes is told as want of memory: as that it comes and goes with what the machine has, and
/// says nothing of the runs.
pub fn bounds_of<'a, R: RandomSource>(rt: &R, looking: Looking<'a>) -> Result<Bounds<'a>, NoMemory>
    ensures always { IfOk result (λ bounds. always_in bounds ≡ (looking_of looking.entry).always) }
    ensures most { IfOk result (λ bounds. bounds.most ≡ (looking_of looking.entry).most) }
{
    let Ok(keys) = RandomState::new(rt) else {
        return Err(NoMemory);
    };
    Ok(Bounds {
        always: name_bytes(looking.always),
        most: looking.most as usize,
        keys,
    })
}

/// The bytes of a name, where there is one.
fn name_bytes<'a>(name: Option<&'a str>) -> Option<&'a [u8]>
    ensures { option_map (λ bytes. bytes.now) result ≡ option_map (λ text. text.now) name.entry }
{
    match name {
        Some(name) => Some(name.as_bytes()),
        None => None,
    }
}

/// The same by such bounds.
fn answer_replies(
    alloc: Global,
    asked: Asked<'_>,
    script: &[u8],
    bounds: &Bounds<'_>,
) -> Result<Answer, NoMemory>
    ensures { IfOk result (OfWhole asked.entry.text.now (λ whole.
        AreRepliesAnswered (always_in bounds.now) bounds.now.most (of_text (asked_of asked.entry) whole) script.now)) }
{
    match outcomes_text(alloc, asked, script, bounds) {
        Ok((scripted, outcomes)) => {
            let lines = outcome_lines(alloc, scripted.checked(), &outcomes)?;
            Ok(Answer::printed(alloc, lines))
        }
        Err(fault) => outcomes_refused(alloc, asked.beginning, fault),
    }
}

/// The answer to a fault of outcomes of an object that begins so.
pub fn outcomes_refused(
    alloc: Global,
    beginning: Beginning<'_>,
    fault: OutcomesFault,
) -> Result<Answer, NoMemory>
    ensures fault { IfOk result (λ a. IsRefused a 1 (outcomes_fault_line (beginning_of beginning.entry) fault ++ codes "\n")) }
    ensures memory { IfOk result (λ _. fault ≢ OutcomesFault.NoMemory) }
{
    match fault {
        OutcomesFault::NoMemory => Err(NoMemory),
        fault => Ok(refused(alloc, outcomes_fault_line(alloc, beginning, &fault)?)?),
    }
}
