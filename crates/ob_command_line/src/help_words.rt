//! What asks for help or for the version, and what does so with a word too much.

ghost use Rattle.std.specs.Prelude.{◌≡◌, IfOk, Some, is_some, map, option_map, string_bytes};
ghost use Rattle.ob_command_line.specs.HelpWords.{asks_version, clap_words, extra_of_help, help_mistake, help_of_command, help_words};
ghost use Rattle.ob_command_line.specs.HelpWords.{is_help_option, is_version_option, too_much};

use std::alloc::{AllocError, Global};

/// What is said behind a word that is too much behind `help` and a name.
const BEHIND_HELP: &str = "\
' found: behind help stands the name of one command

Usage: obl0 help COMMAND

For more information, try '--help'.
";

/// Words that ask for help.
const ASKING_HELP: &[&str] = &["--help"];

/// Whether words ask for the version.
pub fn asks_version(words: &[&str]) -> bool
    ensures { result ≡ asks_version (map (λ word. word.now) words.now) }
{
    match words {
        [word] => *word == "version" || is_version_option(word),
        [name, word] => is_version_option(word) && help_of_command(name).is_some(),
        _ => false,
    }
}

fn is_version_option(word: &str) -> bool
    ensures { result ≡ is_version_option word.now }
{
    word == "--version" || word == "-V"
}

/// The first word that is too much behind `help` and a name.
pub fn extra_of_help<'a>(words: &[&'a str]) -> Option<&'a str>
    ensures { option_map (λ word. word.now) result ≡ extra_of_help (map (λ word. word.now) words.now) }
{
    match words {
        [help, _, rest @ ..] if *help == "help" => too_much(rest),
        _ => None,
    }
}

/// What is too much of the words behind `help` and a name; one word may ask for help itself.
fn too_much<'a>(words: &[&'a str]) -> Option<&'a str>
    ensures { option_map (λ word. word.now) result ≡ too_much (map (λ word. word.now) words.now) }
{
    match words {
        [] => None,
        [word] if is_help_option(word) => None,
        [word, ..] => Some(word),
    }
}

fn is_help_option(word: &str) -> bool
    ensures { result ≡ is_help_option word.now }
{
    word == "--help" || word == "-h"
}

/// What is said of a word that is too much behind `help` and a name.
pub fn help_mistake(alloc: Global, word: &str) -> Result<String, AllocError>
    ensures { IfOk result (λ text. string_bytes text ≡ help_mistake word.now) }
{
    let mut text = String::from_str(alloc, "error: unexpected argument '")?;
    text.push_str(word)?;
    text.push_str(BEHIND_HELP)?;
    Ok(text)
}

/// The words that `clap` reads: `help` as its option, and behind the name of a command.
pub fn clap_words<'a>(words: &'a [&'a str]) -> &'a [&'a str]
    ensures { map (λ word. word.now) result.now ≡ clap_words (map (λ word. word.now) words.entry.now) }
{
    match words {
        [help] if *help == "help" => ASKING_HELP,
        [help, name, ..] if *help == "help" => help_words(name).unwrap_or(&words[1..2]),
        _ => words,
    }
}

/// The words that ask for what `help` says before a word, where that is one that there is.
fn help_words(name: &str) -> Option<&'static [&'static str]>
    ensures { option_map (λ words. map (λ word. word.now) words.now) result ≡ help_words name.now }
{
    if name == "help" || name == "version" {
        return Some(ASKING_HELP);
    }
    help_of_command(name)
}

/// The words that ask for the help of a command, where there is one of this name.
fn help_of_command(name: &str) -> Option<&'static [&'static str]>
    ensures { option_map (λ words. map (λ word. word.now) words.now) result ≡ help_of_command name.now }
{
    match name {
        "check" => Some(&["check", "--help"]),
        "list" => Some(&["list", "--help"]),
        "seq" => Some(&["seq", "--help"]),
        "live" => Some(&["live", "--help"]),
        "run" => Some(&["run", "--help"]),
        "serve" => Some(&["serve", "--help"]),
        "draw" => Some(&["draw", "--help"]),
        "outcomes" => Some(&["outcomes", "--help"]),
        "state" => Some(&["state", "--help"]),
        "verify" => Some(&["verify", "--help"]),
        "order" => Some(&["order", "--help"]),
        "explain" => Some(&["explain", "--help"]),
        "bound" => Some(&["bound", "--help"]),
        _ => None,
    }
}
