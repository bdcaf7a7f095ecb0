//! What is said of words in which `clap` finds a mistake: which numbers there are, and how one is given.

ghost use Rattle.std.specs.Prelude.{◌≡◌, ◌++◌, ℕ, IfOk, List, OnOk, Some, is_some, map, option_map, string_bytes};
ghost use Rattle.clap.specs.Words.{kind_of};
ghost use Rattle.ob_command.specs.CommandLine.{has_negative, is_negative, is_option, loose_number, names_of, number_behind, number_sentence};
ghost use Rattle.ob_command.specs.CommandLine.{number_tip, place_number};
ghost use Rattle.ob_command.specs.ClapTexts.{IsBeforeRule, IsBehindTip, IsWithoutTip, empty_line};
ghost use Rattle.ob_command.specs.Commands.{IsSaidOf, IsStopOf, SaysTip, is_unknown, is_value};
ghost use Rattle.ob_command.specs.declared.command.Stop.TheVariants.{NoMemory};

use crate::call_range::place_number;
use crate::command::Stop;
use clap::error::ErrorKind;
use std::alloc::{AllocError, Global};

/// Which numbers stand behind options.
const NUMBERS: &str = "\
behind -n stands the number of processes, 1 to 16, behind -b how many turns each call has, 0 to 1000000, \
behind --seed any number up to 18446744073709551615, behind --length how many steps the schedule has, 0 to 1000000, \
behind --most how many configurations are looked at, 1 to 1000000000, and behind --by the place of an argument, 1 to 8

For more information, try '--help'.
";

/// What a parse without matches stops for, of words with or without a number below 0, and with or without one that lacks its `-n`.
pub(crate) fn stop_of(
    alloc: Global,
    error: &clap::Error,
    negative: bool,
    number: Option<&str>,
) -> Result<Stop, AllocError>
    ensures { IfOk result (IsStopOf negative (option_map (λ number. number.now) number.entry) (kind_of error.now)) }
{
    match error.kind() {
        ErrorKind::OutOfMemory => Ok(Stop::NoMemory),
        ErrorKind::DisplayHelp => Ok(Stop::Help(error.to_string(alloc)?)),
        kind => {
            let mistake = error.to_string(alloc)?;
            let text = mistake_text(alloc, kind, mistake.as_str(), negative, number)?;
            Ok(Stop::Unclear(text))
        }
    }
}

/// What is said of a mistake of a kind, by what `clap` says of it.
fn mistake_text(
    alloc: Global,
    kind: ErrorKind,
    mistake: &str,
    negative: bool,
    number: Option<&str>,
) -> Result<String, AllocError>
    ensures { IfOk result (λ text. IsSaidOf negative (option_map (λ number. number.now) number.entry) kind (string_bytes text)) }
{
    if is_value(kind) {
        number_mistake(alloc, before_value_rule(mistake))
    } else if negative {
        number_mistake(alloc, "error: there is no number below 0; ")
    } else if is_unknown(kind) {
        unknown_mistake(alloc, mistake, number)
    } else {
        without_tip(alloc, mistake)
    }
}

/// Whether a mistake is a word that `clap` does not know.
fn is_unknown(kind: ErrorKind) -> bool
    ensures { result ≡ is_unknown kind }
{
    matches!(kind, ErrorKind::UnknownArgument)
}

/// What is said of a word that `clap` does not know, where a number of processes may lack its `-n`.
fn unknown_mistake(alloc: Global, mistake: &str, number: Option<&str>) -> Result<String, AllocError>
    ensures { IfOk result (λ text. SaysTip (option_map (λ number. number.now) number.entry) (string_bytes text)) }
{
    match number {
        Some(number) => with_number_tip(alloc, mistake, number),
        None => without_tip(alloc, mistake),
    }
}

/// What is wrong with words, and how a number of processes is given.
fn with_number_tip(alloc: Global, mistake: &str, number: &str) -> Result<String, AllocError>
    ensures { IfOk result (λ text. SaysTip (Some number.now) (string_bytes text)) }
{
    let (before, behind) = mistake.split_once("\n\n").unwrap_or((mistake, ""));
    tipped(alloc, before, number, behind)
}

/// How a number of processes is given, between two texts.
fn tipped(alloc: Global, before: &str, number: &str, behind: &str) -> Result<String, AllocError>
    ensures { IfOk result (λ text. string_bytes text ≡ (before.now ++ number_tip number.now) ++ behind.now) }
{
    let mut text = String::from_str(alloc, before)?;
    push_tip(&mut text, number)?;
    text.push_str(behind)?;
    Ok(text)
}

fn push_tip(text: &mut String, number: &str) -> Result<(), AllocError>
    ensures { OnOk result (string_bytes text.new ≡ string_bytes text.old ++ number_tip number.now) }
{
    text.push_str("\n\n  tip: `-n ")?;
    text.push_str(number)?;
    text.push_str("` gives the number of processes\n\n")?;
    Ok(())
}

/// Whether a mistake is one of a value.
fn is_value(kind: ErrorKind) -> bool
    ensures { result ≡ is_value kind }
{
    matches!(kind, ErrorKind::ValueValidation)
}

/// What is wrong with a number, and which ones there are.
fn number_mistake(alloc: Global, before: &str) -> Result<String, AllocError>
    ensures { IfOk result (λ text. string_bytes text ≡ before.now ++ number_sentence) }
{
    let mut text = String::from_str(alloc, before)?;
    text.push_str(NUMBERS)?;
    Ok(text)
}

/// What `clap` says of a value, up to the words by which it tells its rule.
fn before_value_rule(mistake: &str) -> &str
    ensures { IsBeforeRule mistake.now result.now }
{
    match mistake.split_once(">': ") {
        Some((before, _rule)) => &mistake[..before.len() + ">': ".len()],
        None => "error: ",
    }
}

/// Whether a number below 0 is among words.
pub(crate) fn has_negative(words: &[&str]) -> bool
    ensures { result ≡ has_negative (map (λ word. word.now) words.now) }
{
    words.iter().any(|word| is_negative(word))
}

/// Whether a word is a number below 0: it begins with a `-` and a digit.
fn is_negative(word: &str) -> bool
    ensures { result ≡ is_negative word.now }
{
    match word.as_bytes() {
        [sign, digit, ..] => *sign == b'-' && digit.is_ascii_digit(),
        _ => false,
    }
}

/// A number of processes without its `-n`: a number that stands behind the names, where a command has such.
pub(crate) fn loose_number<'a>(words: &[&'a str]) -> Option<&'a str>
    ensures { option_map (λ word. word.now) result ≡ loose_number (map (λ word. word.now) words.now) }
{
    let names = names_of(words.first()?)?;
    number_behind(words.get(names).copied(), words.get(names + 1).copied())
}

/// How many names of files stand behind a command that has a number of processes.
fn names_of(name: &str) -> Option<usize>
    ensures { result ≡ names_of name.now }
{
    match name {
        "run" | "draw" | "explain" | "state" => Some(3),
        "serve" | "outcomes" => Some(2),
        "bound" => Some(1),
        _ => None,
    }
}

/// A number behind a word that is no option.
fn number_behind<'a>(before: Option<&str>, word: Option<&'a str>) -> Option<&'a str>
    ensures { option_map (λ word. word.now) result ≡ number_behind (option_map (λ word. word.now) before.entry) (option_map (λ word. word.now) word.entry) }
{
    match (before, word) {
        (Some(before), Some(word)) if place_number(word).is_some() && !is_option(before) => {
            Some(word)
        }
        _ => None,
    }
}

/// Whether a word is a `-` with something behind it.
fn is_option(word: &str) -> bool
    ensures { result ≡ is_option word.now }
{
    match word.as_bytes() {
        [first, _, ..] => *first == b'-',
        _ => false,
    }
}

/// What is wrong with words, without the tip to pass an option that there is not as the name of a file.
fn without_tip(alloc: Global, mistake: &str) -> Result<String, AllocError>
    ensures { IfOk result (λ text. IsWithoutTip mistake.now (string_bytes text)) }
{
    match mistake.split_once("\n\n  tip: to pass ") {
        None => String::from_str(alloc, mistake),
        Some((before, tip)) => with_rest(alloc, before, tip),
    }
}

/// What stands before a tip, and behind it, if anything does.
fn with_rest(alloc: Global, before: &str, tip: &str) -> Result<String, AllocError>
    ensures { IfOk result (λ text. (rest : List ℕ) × IsBehindTip tip.now rest × (string_bytes text ≡ before.now ++ rest)) }
{
    match tip.split_once("\n\n") {
        None => String::from_str(alloc, before),
        Some((_told, behind)) => with_empty_line(alloc, before, behind),
    }
}

/// Two texts with an empty line between them.
fn with_empty_line(alloc: Global, before: &str, behind: &str) -> Result<String, AllocError>
    ensures { IfOk result (λ text. string_bytes text ≡ before.now ++ empty_line ++ behind.now) }
{
    let mut text = String::from_str(alloc, before)?;
    text.push_str("\n\n")?;
    text.push_str(behind)?;
    Ok(text)
}
