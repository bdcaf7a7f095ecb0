//! The lines of whole outcomes.

ghost use Rattle.std.specs.Prelude.{◌≡◌, ◌+◌, ◌++◌, IfOk, OnOk, string_bytes};
ghost use Rattle.ob_answer_searches.specs.WholeLines.{number_line, numbered_lines, one_lines, total_line, whole_lines};
ghost use Rattle.ob_checked.specs.CheckedModule.{program_in};
ghost use Rattle.ob_checked.specs.View.{program_of};
ghost use Rattle.ob_object_outcomes.specs.WholesView.{numbered, outcome_at, outcomes_in};
ghost use Rattle.wf_whole_outcomes.specs.View.{wholes_in};

use crate::listed_replies::{Source, end_texts, row_texts};
use ob_checked::checked::Checked;
use ob_interface::NoMemory;
use ob_object_outcomes::{WholeOutcomes, push_order};
use ob_text_words::numbers::push_count;
use std::alloc::{AllocError, Global};
use wf_whole_outcomes::OrderRoom;

/// The lines of the whole outcomes of calls on a module's object, each with its number, and how many there are.
pub fn whole_lines(
    alloc: Global,
    checked: &Checked,
    wholes: &WholeOutcomes,
) -> Result<String, NoMemory>
    ensures { IfOk result (λ text. string_bytes text ≡ whole_lines (program_in checked.now).variables (outcomes_in wholes.now)) }
{
    let program = checked.program();
    let texts = row_texts(alloc, &wholes.told)?;
    let ends = end_texts(alloc, program, &wholes.states)?;
    let source = Source {
        alloc,
        program,
        wholes: &wholes.told,
        states: &wholes.states,
        texts,
        ends,
    };
    let mut text = String::new(alloc);
    push_numbered(&mut text, &source)?;
    push_total(&mut text, wholes.told.states.len() as u64)?;
    Ok(text)
}

/// Appends how many outcomes there are.
fn push_total(text: &mut String, count: u64) -> Result<(), AllocError>
    ensures { OnOk result (string_bytes text.new ≡ string_bytes text.old ++ total_line count) }
{
    text.push_str("outcomes ")?;
    push_count(text, count)?;
    text.push_str("\n")
}

/// Appends whole outcomes, numbered from 1.
fn push_numbered(text: &mut String, source: &Source<'_>) -> Result<(), NoMemory>
    ensures { OnOk result (string_bytes text.new ≡ string_bytes text.old
        ++ numbered_lines (program_of source.now.program.now).variables 0 (wholes_in (numbered source.now.states.now) source.now.wholes.now)) }
{
    let mut room = OrderRoom::new(source.alloc);
    for (index, number) in source.wholes.states.iter().enumerate() {
        push_whole(text, source, &mut room, index, *number)?;
        make_room(text, index, source.wholes.states.len())?;
    }
    Ok(())
}

/// Behind the first outcome, makes room for as many as there are, each as long as that.
fn make_room(text: &mut String, index: usize, many: usize) -> Result<(), AllocError>
    ensures { OnOk result (string_bytes text.new ≡ string_bytes text.old) }
{
    if index > 0 {
        return Ok(());
    }
    text.reserve(text.len().saturating_mul(many))
}

/// Appends a whole outcome with its number, in the state that has a number.
fn push_whole(
    text: &mut String,
    source: &Source<'_>,
    room: &mut OrderRoom,
    index: usize,
    state: usize,
) -> Result<(), NoMemory>
    ensures { OnOk result (string_bytes text.new ≡ string_bytes text.old
        ++ one_lines (program_of source.now.program.now).variables (index + 1) (outcome_at source.now.wholes.now index (numbered source.now.states.now state))) }
{
    let number = (index as u64).checked_add(1).ok_or(NoMemory)?;
    push_number_line(text, number)?;
    source.wholes.put_order(index, room)?;
    push_order(text, &room.order)?;
    source.push_rows(text, index)?;
    source.push_end(text, state)?;
    Ok(())
}

/// Appends the line with the number of an outcome.
fn push_number_line(text: &mut String, number: u64) -> Result<(), AllocError>
    ensures { OnOk result (string_bytes text.new ≡ string_bytes text.old ++ number_line number) }
{
    text.push_str("W ")?;
    push_count(text, number)?;
    text.push_str("\n")
}
