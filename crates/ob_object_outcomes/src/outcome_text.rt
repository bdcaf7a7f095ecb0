//! The lines of outcomes.

ghost use Rattle.std.specs.Prelude.{◌≡◌, ◌++◌, IfOk, OnOk, map, string_bytes};
ghost use Rattle.std.specs.List.{flat_map};
ghost use Rattle.ob_checked.specs.CheckedModule.{program_in};
ghost use Rattle.ob_checked.specs.View.{program_of};
ghost use Rattle.ob_object_outcomes.specs.OutcomesView.{last_in, outcomes_in};
ghost use Rattle.ob_object_outcomes.specs.OutcomeLines.{call_lines, end_lines, outcome_lines, told_lines};
ghost use Rattle.wf_outcomes.specs.View.{call_in, told_in};

use crate::line_kinds::push_order;
use crate::{LastState, ModuleOutcomes};
use ob_checked::checked::Checked;
use ob_checked::program::Program;
use ob_text_record::variables::push_state;
use ob_text_words::reply_lines::push_reply_line;
use std::alloc::{AllocError, Global};
use wf_history::CallId;
use wf_outcomes::{ToldCall, ToldReply};

/// The lines of the outcomes of calls on a module's object: of each call, each reply that it may have, and then each state in which all
/// calls may end; behind each the calls that lead to it.
pub fn outcome_lines(
    alloc: Global,
    checked: &Checked,
    outcomes: &ModuleOutcomes,
) -> Result<String, AllocError>
    ensures { IfOk result (λ text. string_bytes text ≡ outcome_lines (program_in checked.now).variables (outcomes_in outcomes.now)) }
{
    let mut text = String::new(alloc);
    push_calls(&mut text, &outcomes.calls)?;
    push_ends(&mut text, checked.program(), &outcomes.ends)?;
    Ok(text)
}

/// Appends the replies that calls may have.
fn push_calls(text: &mut String, calls: &[ToldCall]) -> Result<(), AllocError>
    ensures { OnOk result (string_bytes text.new ≡ string_bytes text.old ++ flat_map call_lines (map call_in calls.now)) }
{
    for call in calls {
        push_call(text, call)?;
    }
    Ok(())
}

/// Appends the replies that a call may have.
fn push_call(text: &mut String, call: &ToldCall) -> Result<(), AllocError>
    ensures { OnOk result (string_bytes text.new ≡ string_bytes text.old ++ call_lines (call_in call.now)) }
{
    push_replies(text, call.id, &call.replies)
}

/// Appends replies that a call may have, each with the calls behind which it has it.
fn push_replies(text: &mut String, id: CallId, replies: &[ToldReply]) -> Result<(), AllocError>
    ensures { OnOk result (string_bytes text.new ≡ string_bytes text.old ++ flat_map (told_lines id) (map told_in replies.now)) }
{
    for told in replies {
        push_told(text, id, told)?;
    }
    Ok(())
}

/// Appends a reply that a call may have.
fn push_told(text: &mut String, id: CallId, told: &ToldReply) -> Result<(), AllocError>
    ensures { OnOk result (string_bytes text.new ≡ string_bytes text.old ++ told_lines id (told_in told.now)) }
{
    push_reply_line(text, id.process, id.number, &told.reply)?;
    push_order(text, &told.behind)
}

/// Appends the states in which all calls may end.
fn push_ends(text: &mut String, program: &Program, ends: &[LastState]) -> Result<(), AllocError>
    ensures { OnOk result (string_bytes text.new ≡ string_bytes text.old ++ flat_map (end_lines (program_of program.now).variables) (map last_in ends.now)) }
{
    for end in ends {
        push_last(text, program, end)?;
    }
    Ok(())
}

/// Appends a state in which all calls may end, with an order that leads to it.
fn push_last(text: &mut String, program: &Program, end: &LastState) -> Result<(), AllocError>
    ensures { OnOk result (string_bytes text.new ≡ string_bytes text.old ++ end_lines (program_of program.now).variables (last_in end.now)) }
{
    push_state(text, program, &end.state)?;
    push_order(text, &end.order)
}
