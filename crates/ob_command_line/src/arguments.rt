//! The arguments that stand behind commands.

ghost use Rattle.std.specs.Prelude.{◌≡◌, false};
ghost use Rattle.clap.specs.Words.{new_rule, rule_of};
ghost use Rattle.ob_command_line.specs.ClapCommand.{always_rule, budget_rule, by_rule, calls_rule, flag_rule, from_rule, history_rule, most_rule};
ghost use Rattle.ob_command_line.specs.ClapCommand.{length_rule, name_rule, number_rule, optional_number_rule, record_rule, seed_rule};

use clap::{Arg, ArgAction};
use std::alloc::Global;

const HELP_RECORD: &str = "The file of the record, as `run` prints it";

const HELP_BUDGET: &str =
    "How many turns each call has, 0 to 1000000; 100000 where nothing is said";

const HELP_SEEN_BUDGET: &str =
    "How many turns each call had, 0 to 1000000; where nothing is said, as the history says, or else 100000";

const HELP_DRAWN_BUDGET: &str =
    "How many turns each call has, 0 to 1000000; 100000 where nothing is said, or as a history says";

const HELP_MOST: &str =
    "How many configurations are looked at, 1 to 1000000000; 10000000 where nothing is said";

const HELP_MOST_REACHED: &str =
    "How many configurations are looked at, 1 to 1000000000; 1000000 where nothing is said";

const HELP_ALWAYS: &str =
    "The export, with one VAR parameter, a BOOLEAN, that is to answer TRUE at the opening and behind each call of each run";

const HELP_BY: &str =
    "Orders the calls of each value of their N-th argument apart, N from 1 to 8, and prints a line for each";

const HELP_HISTORY: &str = "The file of the history, as `order` reads it";

const HELP_FROM: &str =
    "The file of a record whose variables the object begins with, in the place of the module's body";

const HELP_SEED: &str =
    "Makes the schedule by chance from this number, 0 to 18446744073709551615, in place of a SCHEDULE";

const HELP_LENGTH: &str =
    "How many steps a schedule by chance has, 0 to 1000000; 1000 where nothing is said";

const HELP_CALLS: &str =
    "Which calls are drawn: the places of the first and the last, from 1; all where nothing is said";

/// A word that has to be there, the name of a file.
pub fn file_name<'a>(alloc: Global, id: &'a str, help: &'a str) -> Arg<'a>
    ensures rule { rule_of result ≡ name_rule id.entry.now }
    ensures local { result.global ≡ false }
{
    Arg::new(alloc, id).required(true).help(help)
}

/// A word that may be missing, the name of a file.
pub fn optional_name<'a>(alloc: Global, id: &'a str, help: &'a str) -> Arg<'a>
    ensures rule { rule_of result ≡ new_rule id.entry.now }
    ensures local { result.global ≡ false }
{
    Arg::new(alloc, id).help(help)
}

/// A word that stands there or not.
pub fn flag<'a>(alloc: Global, name: &'a str, help: &'a str) -> Arg<'a>
    ensures rule { rule_of result ≡ flag_rule name.entry.now }
    ensures local { result.global ≡ false }
{
    Arg::new(alloc, name)
        .long(name)
        .action(ArgAction::SetTrue)
        .help(help)
}

/// The option that names a record in place of a script.
pub fn explained_record<'a>(alloc: Global) -> Arg<'a>
    ensures rule { rule_of result ≡ record_rule }
    ensures local { result.global ≡ false }
{
    Arg::new(alloc, "RECORD").long("record").help(HELP_RECORD)
}

/// The option that names a history in place of a script.
pub fn explained_history<'a>(alloc: Global) -> Arg<'a>
    ensures rule { rule_of result ≡ history_rule }
    ensures local { result.global ≡ false }
{
    Arg::new(alloc, "HISTORY")
        .long("history")
        .help(HELP_HISTORY)
}

/// The option that says which calls a picture has.
pub fn drawn_calls<'a>(alloc: Global) -> Arg<'a>
    ensures rule { rule_of result ≡ calls_rule }
    ensures local { result.global ≡ false }
{
    Arg::new(alloc, "FROM-TO").long("calls").help(HELP_CALLS)
}

/// The option that says how many processes there are.
pub fn process_count<'a>(alloc: Global) -> Arg<'a>
    ensures rule { rule_of result ≡ number_rule }
    ensures local { result.global ≡ false }
{
    optional_count(alloc).required(true)
}

/// The same option where it may be missing.
pub fn optional_count<'a>(alloc: Global) -> Arg<'a>
    ensures rule { rule_of result ≡ optional_number_rule }
    ensures local { result.global ≡ false }
{
    Arg::new(alloc, "N")
        .short('n')
        .value_parser(clap::value_parser!(u16))
        .help("How many processes there are, 1 to 16")
}

/// The option that says how many turns each call has.
pub fn call_budget<'a>(alloc: Global) -> Arg<'a>
    ensures rule { rule_of result ≡ budget_rule }
    ensures local { result.global ≡ false }
{
    budget(alloc, HELP_BUDGET)
}

/// The option that says how many turns each call of a history had.
pub fn seen_budget<'a>(alloc: Global) -> Arg<'a>
    ensures rule { rule_of result ≡ budget_rule }
    ensures local { result.global ≡ false }
{
    budget(alloc, HELP_SEEN_BUDGET)
}

/// The option that says how many turns each call of a picture has, or had.
pub fn drawn_budget<'a>(alloc: Global) -> Arg<'a>
    ensures rule { rule_of result ≡ budget_rule }
    ensures local { result.global ≡ false }
{
    budget(alloc, HELP_DRAWN_BUDGET)
}

/// The option that has a budget of turns.
fn budget<'a>(alloc: Global, help: &'a str) -> Arg<'a>
    ensures rule { rule_of result ≡ budget_rule }
    ensures local { result.global ≡ false }
{
    Arg::new(alloc, "BUDGET")
        .short('b')
        .long("budget")
        .value_parser(clap::value_parser!(u32))
        .help(help)
}

/// The option that says how many configurations a search looks at.
pub fn most_configurations<'a>(alloc: Global) -> Arg<'a>
    ensures rule { rule_of result ≡ most_rule }
    ensures local { result.global ≡ false }
{
    most(alloc, HELP_MOST)
}

/// The option that says how many configurations of all runs are looked at.
pub fn most_reached<'a>(alloc: Global) -> Arg<'a>
    ensures rule { rule_of result ≡ most_rule }
    ensures local { result.global ≡ false }
{
    most(alloc, HELP_MOST_REACHED)
}

/// The option that has a number of configurations.
fn most<'a>(alloc: Global, help: &'a str) -> Arg<'a>
    ensures rule { rule_of result ≡ most_rule }
    ensures local { result.global ≡ false }
{
    Arg::new(alloc, "K")
        .long("most")
        .value_parser(clap::value_parser!(u32))
        .help(help)
}

/// The option that names an export that is to answer TRUE always.
pub fn always_true<'a>(alloc: Global) -> Arg<'a>
    ensures rule { rule_of result ≡ always_rule }
    ensures local { result.global ≡ false }
{
    Arg::new(alloc, "NAME").long("always").help(HELP_ALWAYS)
}

/// The option that names the argument by whose values calls are ordered apart.
pub fn parting_argument<'a>(alloc: Global) -> Arg<'a>
    ensures rule { rule_of result ≡ by_rule }
    ensures local { result.global ≡ false }
{
    Arg::new(alloc, "BY")
        .long("by")
        .value_name("N")
        .value_parser(clap::value_parser!(u16))
        .help(HELP_BY)
}

/// The option that has the seed of a schedule by chance.
pub fn schedule_seed<'a>(alloc: Global) -> Arg<'a>
    ensures rule { rule_of result ≡ seed_rule }
    ensures local { result.global ≡ false }
{
    Arg::new(alloc, "S")
        .long("seed")
        .value_parser(clap::value_parser!(u64))
        .help(HELP_SEED)
}

/// The option that says how many steps such a schedule has.
pub fn schedule_length<'a>(alloc: Global) -> Arg<'a>
    ensures rule { rule_of result ≡ length_rule }
    ensures local { result.global ≡ false }
{
    Arg::new(alloc, "LENGTH")
        .long("length")
        .value_name("K")
        .value_parser(clap::value_parser!(u32))
        .help(HELP_LENGTH)
}

/// The option that names a record whose variables an object begins with.
pub fn first_record<'a>(alloc: Global) -> Arg<'a>
    ensures rule { rule_of result ≡ from_rule }
    ensures local { result.global ≡ false }
{
    Arg::new(alloc, "FROM")
        .long("from")
        .value_name("RECORD")
        .help(HELP_FROM)
}
