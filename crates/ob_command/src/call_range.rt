//! The calls that a text behind `--calls` names.

ghost use Rattle.std.specs.Prelude.{◌≡◌, option_map};
ghost use Rattle.ob_command.specs.CommandLine.{are_turned, calls_between, calls_in, is_turned, place_number, range_by};

use crate::command::CallNumbers;

/// The calls of a picture by the word behind `--calls`: all where there is none.
pub(crate) fn range_by(text: Option<&str>) -> Option<Option<CallNumbers>>
    ensures { result ≡ range_by (option_map (λ text. text.now) text.entry) }
{
    match text {
        None => Some(None),
        Some(text) => Some(Some(calls_in(text)?)),
    }
}

/// The calls that a text names as `FROM-TO`.
fn calls_in(text: &str) -> Option<CallNumbers>
    ensures { result ≡ calls_in text.now }
{
    let (first, last) = text.split_once('-')?;
    let from = place_number(first)?;
    let to = place_number(last)?;
    calls_between(from, to)
}

/// The place of a call.
pub(crate) fn place_number(text: &str) -> Option<u32>
    ensures { result ≡ place_number text.now }
{
    match text.parse::<u32>() {
        Ok(place) => Some(place),
        Err(_) => None,
    }
}

/// The calls between two places, where there are such.
fn calls_between(from: u32, to: u32) -> Option<CallNumbers>
    ensures { result ≡ calls_between from to }
{
    if 1 <= from && from <= to {
        Some(CallNumbers { from, to })
    } else {
        None
    }
}

/// Whether a text names two places of which the first is behind the second.
pub(crate) fn is_turned(text: &str) -> bool
    ensures { result ≡ is_turned text.now }
{
    match text.split_once('-') {
        Some((first, last)) => are_turned(place_number(first), place_number(last)),
        None => false,
    }
}

/// Whether the first of two places is behind the second.
fn are_turned(from: Option<u32>, to: Option<u32>) -> bool
    ensures { result ≡ are_turned from to }
{
    match (from, to) {
        (Some(from), Some(to)) => to < from,
        _ => false,
    }
}
