//! Calls that are told of: which they are, and in which lines of a script they stand.

ghost use Rattle.std.specs.Prelude.{◌≡◌, ◌≤◌, ◌++◌, OnOk, length, string_bytes};
ghost use Rattle.ob_explained_traps.specs.NamedCalls.{HasCall, call_text, calls_of, id_at, line_at, line_text, made_by, name_at};

use ob_text_words::numbers::push_number;
use std::alloc::AllocError;
use wf_history::CallId;

/// The calls of a script, by their processes and lines in the file of this name; or those of a record's order.
#[derive(Clone, Copy)]
pub(crate) enum Calls<'a> {
    OfScript {
        name: &'a str,
        callers: &'a [usize],
        lines: &'a [usize],
    },
    OfRecord(&'a [CallId]),
}

/// Appends which call stands at a position, and where.
pub(crate) fn push_name(
    told: &mut String,
    calls: Calls<'_>,
    position: usize,
) -> Result<(), AllocError>
    requires { HasCall (calls_of calls) position }
    ensures { OnOk result (string_bytes told.new ≡ string_bytes told.old ++ name_at (calls_of calls.entry) position) }
{
    push_call(told, id_at(calls, position))?;
    push_line(told, calls, position)
}

/// Which call stands at a position.
fn id_at(calls: Calls<'_>, position: usize) -> CallId
    requires { HasCall (calls_of calls) position }
    ensures { result ≡ id_at (calls_of calls.entry) position }
{
    match calls {
        Calls::OfScript { callers, .. } => {
            let process = callers[position];
            let before = made_by(process, &callers[..position]);
            CallId {
                process,
                number: before as u64 + 1,
            }
        }
        Calls::OfRecord(order) => order[position],
    }
}

/// How many of these calls a process made.
fn made_by(process: usize, callers: &[usize]) -> usize
    ensures made { result ≡ made_by process callers.now }
    ensures few { result ≤ length callers.now }
{
    callers.iter().filter(|other| **other == process).count()
}

/// Appends how a call is named.
#[tactic(auto, unfolding(crate::specs::NamedCalls::call_text))]
fn push_call(told: &mut String, id: CallId) -> Result<(), AllocError>
    ensures { OnOk result (string_bytes told.new ≡ string_bytes told.old ++ call_text id) }
{
    told.push_str("call ")?;
    push_number(told, id.process)?;
    told.push_str(".")?;
    push_number(told, id.number)
}

/// Appends the line of the call at a position, where there are lines.
fn push_line(told: &mut String, calls: Calls<'_>, position: usize) -> Result<(), AllocError>
    requires { HasCall (calls_of calls) position }
    ensures { OnOk result (string_bytes told.new ≡ string_bytes told.old ++ line_at (calls_of calls.entry) position) }
{
    match calls {
        Calls::OfScript { name, lines, .. } => push_line_of(told, name, lines[position]),
        Calls::OfRecord(_) => Ok(()),
    }
}

/// Appends where a call stands in a script.
#[tactic(auto, unfolding(crate::specs::NamedCalls::line_text))]
fn push_line_of(told: &mut String, name: &str, line: usize) -> Result<(), AllocError>
    ensures { OnOk result (string_bytes told.new ≡ string_bytes told.old ++ line_text name.now line) }
{
    told.push_str(", line ")?;
    push_number(told, line)?;
    told.push_str(" of ")?;
    told.push_str(name)
}
