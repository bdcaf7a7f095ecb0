//! The lines of the replies to a process. Whole outcomes share lists of replies, so the lines of a list are made once for each process.

ghost use Rattle.std.specs.Prelude.{◌≡◌, ◌++◌, ◌∷◌, [], IfOk, IfSome, OnOk, Some, map, slice_get, string_bytes};
ghost use Rattle.std.specs.Option.{option_copied};
ghost use Rattle.ob_answer_searches.specs.RowTexts.{AreEndTexts, AreProcessTexts, AreRowTexts, row_in, rows_at};
ghost use Rattle.ob_answer_searches.specs.WholeLines.{row_lines, rows_lines};
ghost use Rattle.ob_checked.specs.View.{program_of};
ghost use Rattle.ob_object_outcomes.specs.WholesView.{numbered};
ghost use Rattle.ob_store.specs.View.{state_of};
ghost use Rattle.ob_text_record.specs.Variables.{state_text};
ghost use Rattle.ob_text_words.specs.ReplyLines.{reply_line};
ghost use Rattle.wf_history.specs.View.{kept_reply};
ghost use Rattle.wf_whole_outcomes.specs.View.{replies_of};

use ob_checked::program::Program;
use ob_store::state::State;
use ob_text_record::variables::push_state;
use ob_text_words::reply_lines::{push_done_line, push_trap_line};
use std::alloc::{AllocError, Global};
use wf_history::KeptReply;
use wf_whole_outcomes::ToldWholes;

/// What the lines of whole outcomes are made of: beside the outcomes and their states, of each process, by the numbers of lists of replies,
/// the lines of those lists that some outcome has; and of each state the lines of the variables.
#[derive(Drop)]
pub struct Source<'w> {
    pub alloc: Global,
    pub program: &'w Program,
    pub wholes: &'w ToldWholes<usize>,
    pub states: &'w [State],
    pub texts: Vec<Vec<Option<String>>>,
    pub ends: Vec<String>,
    ghost made: { AreRowTexts wholes.now texts.items },
    ghost ended: { AreEndTexts (program_of program.now).variables states.now ends.items },
}

/// The lines of all lists of replies that some outcome has.
pub fn row_texts(
    alloc: Global,
    wholes: &ToldWholes<usize>,
) -> Result<Vec<Vec<Option<String>>>, AllocError>
    ensures { IfOk result (λ texts. AreRowTexts wholes.now texts.items) }
{
    let mut texts = Vec::with_capacity(alloc, wholes.processes)?;
    for process in 0..wholes.processes {
        texts.push(process_texts(alloc, wholes, process)?)?;
    }
    Ok(texts)
}

/// The same of a process.
fn process_texts(
    alloc: Global,
    wholes: &ToldWholes<usize>,
    process: usize,
) -> Result<Vec<Option<String>>, AllocError>
    ensures { IfOk result (λ texts. AreProcessTexts wholes.now process texts.items) }
{
    let is_used = used_lists(alloc, wholes, process)?;
    let mut texts = Vec::with_capacity(alloc, is_used.len())?;
    for (number, is_used) in is_used.iter().enumerate() {
        texts.push(wanted_text(alloc, wholes, process, number, *is_used)?)?;
    }
    Ok(texts)
}

/// Which lists of replies some outcome has for a process, by their numbers.
fn used_lists(
    alloc: Global,
    wholes: &ToldWholes<usize>,
    process: usize,
) -> Result<Vec<bool>, AllocError> {
    let mut is_used = vec![in alloc; false; wholes.front.lists.items.len()]?;
    for at in 0..wholes.front.layer.len() {
        if let Some(number) = wholes.front.layer[at].told.get(process) {
            if let Some(is_used) = is_used.get_mut(*number) {
                *is_used = true;
            }
        }
    }
    Ok(is_used)
}

/// The lines of the list with a number, if they are wanted.
fn wanted_text(
    alloc: Global,
    wholes: &ToldWholes<usize>,
    process: usize,
    number: usize,
    is_wanted: bool,
) -> Result<Option<String>, AllocError>
    ensures { IfOk result (λ wanted. IfSome wanted (λ text. string_bytes text ≡ row_lines process 0 (row_in wholes.now number))) }
{
    if !is_wanted {
        return Ok(None);
    }
    let mut text = String::new(alloc);
    push_list(alloc, &mut text, wholes, process, number)?;
    Ok(Some(text))
}

/// Appends the lines of the list with a number.
fn push_list(
    alloc: Global,
    text: &mut String,
    wholes: &ToldWholes<usize>,
    process: usize,
    number: usize,
) -> Result<(), AllocError>
    ensures { OnOk result (string_bytes text.new ≡ string_bytes text.old ++ row_lines process 0 (row_in wholes.now number)) }
{
    let Some(list) = item_at(&wholes.front.lists.items, number) else {
        return Ok(());
    };
    let row = replies_in(alloc, &wholes.replies, list)?;
    push_row(text, process, &row)
}

/// What stands at a place, if there is something.
fn item_at<T>(items: &[T], at: usize) -> Option<&T>
    ensures { option_copied result ≡ slice_get items.now at }
{
    items.get(at)
}

/// The replies that have these numbers.
fn replies_in<'w>(
    alloc: Global,
    replies: &'w [KeptReply],
    numbers: &[usize],
) -> Result<Vec<&'w KeptReply>, AllocError>
    ensures { IfOk result (λ row. map (λ reply. kept_reply reply.now) row.items ≡ replies_of (map kept_reply replies.now) numbers.now) }
{
    let mut row = Vec::with_capacity(alloc, numbers.len())?;
    for number in numbers {
        push_known(&mut row, replies, *number)?;
    }
    Ok(row)
}

/// Appends the reply that has a number, if there is one.
fn push_known<'w>(
    row: &mut Vec<&'w KeptReply>,
    replies: &'w [KeptReply],
    number: usize,
) -> Result<(), AllocError>
    ensures { OnOk result (map (λ reply. kept_reply reply.now) row.new.items
        ≡ map (λ reply. kept_reply reply.now) row.old.items ++ replies_of (map kept_reply replies.now) (number ∷ [])) }
{
    match item_at(replies, number) {
        Some(reply) => {
            row.push(reply)?;
            Ok(())
        }
        None => Ok(()),
    }
}

/// Appends the replies to the calls of a process.
fn push_row(text: &mut String, process: usize, row: &[&KeptReply]) -> Result<(), AllocError>
    ensures { OnOk result (string_bytes text.new ≡ string_bytes text.old ++ row_lines process 0 (map (λ reply. kept_reply reply.now) row.now)) }
{
    for (made, reply) in row.iter().enumerate() {
        push_reply(text, process, made as u64 + 1, reply)?;
    }
    Ok(())
}

/// Appends the line of a reply to a process's call of a number.
fn push_reply(
    text: &mut String,
    process: usize,
    number: u64,
    reply: &KeptReply,
) -> Result<(), AllocError>
    ensures { OnOk result (string_bytes text.new ≡ string_bytes text.old ++ reply_line process number (kept_reply reply.now)) }
{
    match reply {
        KeptReply::Done(values) => {
            push_done_line(text, process, number, values.lent().as_slice())
        }
        KeptReply::Trap(trap) => push_trap_line(text, process, number, *trap),
    }
}

/// The text of a list.
fn text_of(texts: &[Option<String>], number: usize) -> Option<&String>
    ensures { IfSome result (λ text. slice_get texts.now number ≡ Some (Some text.now)) }
{
    match item_at(texts, number) {
        Some(text) => text.as_ref(),
        None => None,
    }
}

/// The lines of the variables in each state.
pub fn end_texts(
    alloc: Global,
    program: &Program,
    states: &[State],
) -> Result<Vec<String>, AllocError>
    ensures { IfOk result (λ ends. AreEndTexts (program_of program.now).variables states.now ends.items) }
{
    let mut ends = Vec::with_capacity(alloc, states.len())?;
    for state in states {
        ends.push(end_text(alloc, program, state)?)?;
    }
    Ok(ends)
}

/// The lines of the variables in a state.
fn end_text(alloc: Global, program: &Program, state: &State) -> Result<String, AllocError>
    ensures { IfOk result (λ text. string_bytes text ≡ state_text (program_of program.now).variables (state_of state.now)) }
{
    let mut text = String::new(alloc);
    push_state(&mut text, program, state)?;
    Ok(text)
}

impl Source<'_> {
    /// The lines of a list of replies, if they are made.
    fn text(&self, process: usize, number: usize) -> Option<&String>
        ensures { IfSome result (λ text. string_bytes text.now ≡ row_lines process 0 (row_in self.now.wholes.now number)) }
    {
        let Some(texts) = item_at(&self.texts, process) else {
            return None;
        };
        text_of(texts, number)
    }

    /// Appends the lines of a list of replies.
    fn push_text(&self, text: &mut String, process: usize, number: usize) -> Result<(), AllocError>
        ensures { OnOk result (string_bytes text.new ≡ string_bytes text.old ++ row_lines process 0 (row_in self.now.wholes.now number)) }
    {
        match self.text(process, number) {
            Some(lines) => text.push_str(lines),
            None => push_list(self.alloc, text, self.wholes, process, number),
        }
    }

    /// Appends the lines of the lists that have these numbers, one for each process.
    fn push_told(&self, text: &mut String, told: &[usize]) -> Result<(), AllocError>
        ensures { OnOk result (string_bytes text.new ≡ string_bytes text.old ++ rows_lines 0 (map (row_in self.now.wholes.now) told.now)) }
    {
        for (process, number) in told.iter().enumerate() {
            self.push_text(text, process, *number)?;
        }
        Ok(())
    }

    /// Appends the replies to the calls of each process in an outcome.
    pub fn push_rows(&self, text: &mut String, at: usize) -> Result<(), AllocError>
        ensures { OnOk result (string_bytes text.new ≡ string_bytes text.old ++ rows_lines 0 (rows_at self.now.wholes.now at)) }
    {
        match self.wholes.front.layer.get_index(at) {
            Some(node) => self.push_told(text, &node.told),
            None => Ok(()),
        }
    }

    /// Appends the lines of the variables in the state that has a number.
    pub fn push_end(&self, text: &mut String, number: usize) -> Result<(), AllocError>
        ensures { OnOk result (string_bytes text.new ≡ string_bytes text.old
            ++ state_text (program_of self.now.program.now).variables (numbered self.now.states.now number)) }
    {
        let Some(lines) = item_at(&self.ends, number) else {
            return Ok(());
        };
        text.push_str(lines)?;
        Ok(())
    }
}
