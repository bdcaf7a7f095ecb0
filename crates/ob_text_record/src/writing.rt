//! Records written.

ghost use Rattle.std.specs.Prelude.{◌≡◌, ◌++◌, IfOk, OnErr, OnOk, option_map, string_bytes};
ghost use Rattle.ob_checked.specs.CheckedModule.{program_in};
ghost use Rattle.ob_checked.specs.View.{program_of};
ghost use Rattle.ob_text_record.specs.Record.{record_of};
ghost use Rattle.ob_text_record.specs.RecordText.{carried_text, head_text, order_text, record_text, title_text};
ghost use Rattle.ob_store.specs.View.{state_of};
ghost use Rattle.ob_text_words.specs.Appending.{GoesOn};

use crate::Record;
use crate::events::{push_events, push_ids};
use crate::schedule_line::push_schedule;
use crate::variables::{push_opening, push_state};
use ob_checked::checked::Checked;
use ob_checked::program::Program;
use ob_store::state::State;
use ob_text_words::numbers::push_number;
use std::alloc::{AllocError, Global};
use wf_history::CallId;

/// The text of a record of a module's object.
pub fn write_record(alloc: Global, checked: &Checked, record: &Record) -> Result<String, AllocError>
    ensures { IfOk result (λ text. string_bytes text ≡ record_text (program_in checked.now) (record_of «record».now)) }
{
    let mut text = String::from_str(alloc, title(&record.carried))?;
    push_head(&mut text, record.processes, record.budget)?;
    push_carried(&mut text, checked.program(), record)?;
    push_events(&mut text, checked.exports(), record.history.events())?;
    push_order(&mut text, &record.order)?;
    push_schedule(&mut text, &record.schedule)?;
    push_state(&mut text, checked.program(), &record.state)?;
    Ok(text)
}

/// The first line: version 3 is of an object that began with values carried over.
fn title(carried: &Option<State>) -> &str
    ensures { result.now ≡ title_text (option_map state_of carried.now) }
{
    match carried {
        Some(_) => "obl0 record 3\n",
        None => "obl0 record 2\n",
    }
}

/// Appends the values carried over, if there are any: a line for each of the module's variables.
fn push_carried(text: &mut String, program: &Program, record: &Record) -> Result<(), AllocError>
    ensures ok { OnOk result (string_bytes text.new ≡ string_bytes text.old ++ carried_text (program_of program.now) (record_of «record».now).carried) }
    ensures left { OnErr result (GoesOn (string_bytes text.old) (string_bytes text.new)) }
{
    match &record.carried {
        Some(opening) => push_opening(text, program, opening),
        None => Ok(()),
    }
}

/// Appends how many processes there are, and the budget of each call.
fn push_head(text: &mut String, processes: usize, budget: u64) -> Result<(), AllocError>
    ensures ok { OnOk result (string_bytes text.new ≡ string_bytes text.old ++ head_text processes budget) }
    ensures left { OnErr result (GoesOn (string_bytes text.old) (string_bytes text.new)) }
{
    text.push_str("n ")?;
    push_number(text, processes)?;
    text.push_str("\nb ")?;
    push_number(text, budget)?;
    text.push_str("\n")
}

/// Appends the order of the applied calls.
fn push_order(text: &mut String, order: &[CallId]) -> Result<(), AllocError>
    ensures ok { OnOk result (string_bytes text.new ≡ string_bytes text.old ++ order_text order.now) }
    ensures left { OnErr result (GoesOn (string_bytes text.old) (string_bytes text.new)) }
{
    text.push_str("O")?;
    push_ids(text, order)?;
    text.push_str("\n")
}
