//! The names of calls, taken off a line one at a time.

ghost use Rattle.std.specs.Prelude.{◌<◌, length, IfSome, MatchOption};
ghost use Rattle.ob_text_values_reading.specs.CallNames.{TakesId, TakesNoId};
ghost use Rattle.ob_text_values_reading.specs.LineBeginnings.{EndsWord};

use crate::id::read_id;
use crate::line_words::{is_blank, next_word};
use crate::text_beginning::front_id;
use wf_history::CallId;

/// The call that the first word of a line names, by a process below `processes`, and what stands behind the word.
#[inline(always)]
pub fn take_id(processes: usize, line: &[u8]) -> Option<(CallId, &[u8])>
    ensures taken { MatchOption result (TakesNoId processes line.now) (λ r. TakesId processes line.now r.0 r.1.now) }
    ensures shorter { IfSome result (λ r. length r.1.now < length line.now) }
{
    if let Some(taken) = take_short_id(processes, line) {
        return Some(taken);
    }
    take_any_id(processes, line)
}

/// The same, of whatever length the word is. It stands apart, since records need it seldom.
#[inline(never)]
fn take_any_id(processes: usize, line: &[u8]) -> Option<(CallId, &[u8])>
    ensures taken { MatchOption result (TakesNoId processes line.now) (λ r. TakesId processes line.now r.0 r.1.now) }
    ensures shorter { IfSome result (λ r. length r.1.now < length line.now) }
{
    let (word, rest) = next_word(line)?;
    let id = read_id(processes, word)?;
    Some((id, rest))
}

/// The same where the line begins with a word of few digits, as mostly: it is walked once. `None` says nothing.
#[inline(always)]
fn take_short_id(processes: usize, line: &[u8]) -> Option<(CallId, &[u8])>
    ensures taken { IfSome result (λ r. TakesId processes line.now r.0 r.1.now) }
    ensures shorter { IfSome result (λ r. length r.1.now < length line.now) }
{
    let (id, behind) = front_id(processes, line)?;
    let rest = behind_word(behind)?;
    Some((id, rest))
}

/// What stands behind a word, where a blank or the end is behind it.
#[inline(always)]
fn behind_word(text: &[u8]) -> Option<&[u8]>
    ensures { IfSome result (λ rest. EndsWord text.now rest.now) }
{
    let Some((first, rest)) = text.split_first() else {
        return Some(text);
    };
    if is_blank(*first) { Some(rest) } else { None }
}
