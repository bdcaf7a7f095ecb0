//! Which words are names of faults.

ghost use Rattle.std.specs.Prelude.{◌≡◌, map};
ghost use Rattle.std.specs.List.{list_any};
ghost use Rattle.std.specs.Str.{bytes_eq};
ghost use Rattle.ob_command.specs.CommandLine.{fault_names, names_fault};

use crate::fault_names::FAULT_NAMES;

/// Whether a word is the name of a fault that has a page.
pub(crate) fn names_fault(word: &str) -> bool
    ensures { result ≡ names_fault word.now }
{
    is_among(fault_names(), word)
}

/// Whether a word is one of these.
fn is_among(mut names: &[&str], word: &str) -> bool
    ensures { result ≡ list_any (bytes_eq word.now) (map (λ name. name.now) names.entry.now) }
{
    while let [name, rest @ ..] = names {
        if word == *name {
            return true;
        }
        names = rest;
    }
    false
}

/// The names of those faults.
#[tactic(auto, unfolding(crate::specs::CommandLine::fault_names))]
fn fault_names() -> &'static [&'static str]
    ensures { map (λ name. name.now) result.now ≡ fault_names }
{
    FAULT_NAMES
}
