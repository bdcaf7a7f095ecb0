//! The names of calls in a record.

ghost use Rattle.std.specs.Prelude.{◌≡◌, ◌↔◌, ◌<◌, IfSome, IsTrue, MatchOption, length, map};
ghost use Rattle.ob_explained_lines.specs.CallNames.{IsFirstNaming, IsNextNaming, NamesNone, Names};
ghost use Rattle.ob_object_run.specs.Places.{same_id};
ghost use Rattle.wf_history.specs.declared.event.CallId.{CallId};

use ob_text_words::numbers::{read_numeral, split_digits};
use wf_history::CallId;

/// A process is a number below this: of nine digits at most. A record has fewer, by its n line.
pub(crate) const PROCESS_NUMBERS: usize = 1_000_000_000;

/// The call that a word names, `p.k`.
pub fn call_named(word: &[u8]) -> Option<CallId>
    ensures { MatchOption result ((id : CallId) → Names word.now id → ⊥) (λ id. Names word.now id) }
{
    let (digits, behind) = split_digits(word);
    let Some((b'.', rest)) = behind.split_first() else {
        return None;
    };
    let process = usize::try_from(read_numeral(digits)?).ok()?;
    let number = read_numeral(rest)?;
    if process >= PROCESS_NUMBERS {
        return None;
    }
    Some(CallId { process, number })
}

/// Whether a word names a call.
pub fn names_call(word: &[u8], id: CallId) -> bool
    ensures { IsTrue result ↔ Names word.now id }
{
    match call_named(word) {
        Some(named) => is_same(named, id),
        None => false,
    }
}

/// Whether two names are of one call.
fn is_same(id: CallId, other: CallId) -> bool
    ensures { result ≡ same_id id other }
{
    id.process == other.process && id.number == other.number
}

/// The place of the first of some words that names a call.
pub fn first_naming(words: &[&[u8]], id: CallId) -> Option<usize>
    ensures place { MatchOption result (NamesNone (map (λ w. w.now) words.now) id) (IsFirstNaming (map (λ w. w.now) words.now) id) }
    ensures below { IfSome result (λ k. k < length words.now) }
{
    for (index, word) in words.iter().enumerate() {
        if names_call(word, id) {
            return Some(index);
        }
    }
    None
}

/// The place of the next word that names a call behind the first one.
pub fn next_naming(words: &[&[u8]], id: CallId) -> Option<usize>
    ensures { IsNextNaming (map (λ w. w.now) words.now) id result }
{
    let first = first_naming(words, id)?;
    let next = first_naming(&words[first + 1..], id)?;
    Some(first + 1 + next)
}
