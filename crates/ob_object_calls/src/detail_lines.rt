//! The lines of calls by which their turns and the variables that they changed are told beside their replies.

ghost use Rattle.std.specs.Prelude.{◌≡◌, ◌++◌, ◌<◌, All, IfOk, OnOk, map, string_bytes};
ghost use Rattle.ob_interface.specs.View.{reply_of};
ghost use Rattle.ob_object_calls.specs.DetailLines.{budget_line, text_at, told_line, told_lines, turns_line};

use ob_interface::call::Reply;
use ob_text_words::numbers::push_count;
use ob_text_words::reply_lines::push_reply_line;
use std::alloc::{AllocError, Global};

/// What is told of calls beside their replies, each in the order of the calls; what is not told is empty.
#[derive(Clone, Copy)]
pub(crate) struct Beside<'a> {
    /// How many turns each call took.
    pub turns: &'a [u64],
    /// The lines of the variables that each call changed.
    pub changes: &'a [String],
}

/// The lines of calls of these callers, processes below `processes`, with their replies and what is told beside these: the first caller
/// made the first call, and so on.
pub(crate) fn print_told(
    alloc: Global,
    processes: usize,
    callers: &[usize],
    replies: &[Reply],
    beside: Beside<'_>,
) -> Result<String, AllocError>
    requires { All (λ p. p < processes) callers.now }
    ensures { IfOk result (λ text. string_bytes text
        ≡ told_lines beside.entry.turns.now (map string_bytes beside.entry.changes.now) callers.now (map reply_of replies.now)) }
{
    let mut text = String::new(alloc);
    let mut made = vec![in alloc; 0u64; processes]?;
    let mut place = 0usize;
    for (caller, reply) in callers.iter().zip(replies) {
        made[*caller] += 1;
        push_reply_line(&mut text, *caller, made[*caller], reply)?;
        push_beside(&mut text, beside, place)?;
        place += 1;
    }
    Ok(text)
}

/// Appends what is told of the call at a place beside its reply.
fn push_beside(text: &mut String, beside: Beside<'_>, place: usize) -> Result<(), AllocError>
    ensures { OnOk result (string_bytes text.new ≡ string_bytes text.old
        ++ text_at turns_line beside.entry.turns.now place ++ text_at (λ lines. lines) (map string_bytes beside.entry.changes.now) place) }
{
    push_turns(text, beside.turns, place)?;
    push_changes(text, beside.changes, place)
}

/// Appends the line of the turns of the call at a place, if they are told.
fn push_turns(text: &mut String, turns: &[u64], place: usize) -> Result<(), AllocError>
    ensures { OnOk result (string_bytes text.new ≡ string_bytes text.old ++ text_at turns_line turns.now place) }
{
    match turns.get(place) {
        Some(taken) => push_turns_line(text, *taken),
        None => Ok(()),
    }
}

/// Appends the lines of the variables that the call at a place changed, if they are told.
fn push_changes(text: &mut String, changes: &[String], place: usize) -> Result<(), AllocError>
    ensures { OnOk result (string_bytes text.new ≡ string_bytes text.old ++ text_at (λ lines. lines) (map string_bytes changes.now) place) }
{
    match changes.get(place) {
        Some(lines) => text.push_str(lines),
        None => Ok(()),
    }
}

/// Appends the line of the turns that a call took.
fn push_turns_line(text: &mut String, turns: u64) -> Result<(), AllocError>
    ensures { OnOk result (string_bytes text.new ≡ string_bytes text.old ++ turns_line turns) }
{
    text.push_str("T ")?;
    push_count(text, turns)?;
    text.push_str("\n")
}

/// Appends the line of the least budget.
pub(crate) fn push_budget_line(text: &mut String, least: u64) -> Result<(), AllocError>
    ensures { OnOk result (string_bytes text.new ≡ string_bytes text.old ++ budget_line least) }
{
    text.push_str("b ")?;
    push_count(text, least)?;
    text.push_str("\n")
}
