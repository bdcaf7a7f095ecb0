//! The record of calls that were made one after the other.

ghost use Rattle.std.specs.Prelude.{◌≡◌, ◌++◌, IfOk, OnOk, codes, string_bytes, true};
ghost use Rattle.ob_checked.specs.View.{program_of};
ghost use Rattle.ob_object_live.specs.Living.{ground_of, remarked, title_of, told_text};
ghost use Rattle.ob_text_record.specs.Record.{carried_from};
ghost use Rattle.ob_store.specs.View.{state_of};
ghost use Rattle.ob_text_record.specs.RecordText.{carried_text, head_text};

use crate::live_parts::Ground;
use ob_checked::program::Program;
use ob_store::state::State;
use ob_text_record::variables::{push_opening, push_state};
use ob_text_words::numbers::push_number;
use std::alloc::{AllocError, Global};

/// The record of calls on a ground that are told by these lines, in this order, and that leave this state.
pub(crate) fn write_record(
    alloc: Global,
    ground: &Ground,
    events: &str,
    order: &str,
    state: &State,
) -> Result<String, AllocError>
    ensures { IfOk result (λ text. string_bytes text ≡ told_text (ground_of ground.now) events.now order.now (state_of state.now)) }
{
    let program = ground.checked.program();
    let mut text = String::from_str(alloc, title(ground.carried))?;
    push_head(&mut text, ground.processes, ground.budget)?;
    push_carried(&mut text, program, ground)?;
    text.push_str(events)?;
    push_order(&mut text, order)?;
    push_state(&mut text, program, state)?;
    Ok(text)
}

/// The first line: version 3 is of an object that began with values carried over.
fn title(carried: bool) -> &'static str
    ensures { result.now ≡ title_of carried }
{
    if carried {
        "obl0 record 3\n"
    } else {
        "obl0 record 2\n"
    }
}

/// Appends how many processes there are, and the budget of each call.
fn push_head(text: &mut String, processes: usize, budget: u64) -> Result<(), AllocError>
    ensures { OnOk result (string_bytes text.new ≡ string_bytes text.old ++ head_text processes budget) }
{
    text.push_str("n ")?;
    push_number(text, processes)?;
    text.push_str("\nb ")?;
    push_number(text, budget)?;
    text.push_str("\n")
}

/// Appends the values carried over, if there are any: a line for each of the module's variables.
fn push_carried(text: &mut String, program: &Program, ground: &Ground) -> Result<(), AllocError>
    ensures { OnOk result (string_bytes text.new
        ≡ string_bytes text.old ++ carried_text (program_of program.now) (carried_from ground.now.carried (state_of ground.now.opening))) }
{
    if ground.carried {
        push_opening(text, program, &ground.opening)
    } else {
        Ok(())
    }
}

/// Appends the line of the order, whose names are given, and that of the schedule, which has no steps.
fn push_order(text: &mut String, order: &str) -> Result<(), AllocError>
    ensures { OnOk result (string_bytes text.new ≡ string_bytes text.old ++ (codes "O" ++ order.now ++ codes "\nS\n")) }
{
    text.push_str("O")?;
    text.push_str(order)?;
    text.push_str("\nS\n")
}

/// The text with each of its lines a remark.
pub fn remarked(alloc: Global, text: &[u8]) -> Result<Vec<u8>, AllocError>
    ensures { IfOk result (λ bytes. bytes.items ≡ remarked true text.now) }
{
    let mut bytes = Vec::new(alloc);
    let mut starts = true;
    for byte in text {
        if starts {
            bytes.extend_from_slice(b"# ")?;
        }
        bytes.push(*byte)?;
        starts = *byte == b'\n';
    }
    Ok(bytes)
}
