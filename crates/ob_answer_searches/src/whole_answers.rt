//! The answers of `outcomes --whole`. Of a module's text they have the beginning: a module of more bytes is too long.

ghost use Rattle.std.specs.Prelude.{IfOk};
ghost use Rattle.ob_answer_explained.specs.CommandTexts.{of_text};
ghost use Rattle.ob_answer_files.specs.Reads.{OfWhole};
ghost use Rattle.ob_answer_searches.specs.OutcomesAnswers.{looking_of};
ghost use Rattle.ob_answer_searches.specs.WholesAnswers.{AreWholesAnswered, IsWholesAnswer};
ghost use Rattle.ob_object_compile.specs.View.{asked_of};
ghost use Rattle.ob_object_outcomes.specs.OutcomesView.{always_in};

use crate::outcomes_answers::{Looking, bounds_of, outcomes_refused};
use crate::whole_outcome_lines::whole_lines;
use ob_answer_files::answered::Answer;
use ob_interface::NoMemory;
use ob_object_compile::Asked;
use ob_object_outcomes::{Bounds, wholes_text};
use std::alloc::Global;
use std::random::RandomSource;

/// The answer to `outcomes --whole`, of the object that is asked for and the text of a script.
pub fn answer_whole_outcomes<R: RandomSource>(
    rt: &R,
    alloc: Global,
    asked: Asked<'_>,
    script: &[u8],
    looking: Looking<'_>,
) -> Result<Answer, NoMemory>
    ensures { IfOk result (OfWhole asked.entry.text.now (λ whole. IsWholesAnswer (looking_of looking.entry) (of_text (asked_of asked.entry) whole) script.now)) }
{
    let bounds = bounds_of(rt, looking)?;
    answer_wholes(alloc, asked, script, &bounds)
}

/// The same by such bounds.
fn answer_wholes(
    alloc: Global,
    asked: Asked<'_>,
    script: &[u8],
    bounds: &Bounds<'_>,
) -> Result<Answer, NoMemory>
    ensures { IfOk result (OfWhole asked.entry.text.now (λ whole.
        AreWholesAnswered (always_in bounds.now) bounds.now.most (of_text (asked_of asked.entry) whole) script.now)) }
{
    match wholes_text(alloc, asked, script, bounds) {
        Ok((scripted, wholes)) => {
            let lines = whole_lines(alloc, scripted.checked(), &wholes)?;
            Ok(Answer::printed(alloc, lines))
        }
        Err(fault) => outcomes_refused(alloc, asked.beginning, fault),
    }
}
