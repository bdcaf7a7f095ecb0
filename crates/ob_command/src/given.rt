//! What is given behind the name of a command.

ghost use Rattle.std.specs.Prelude.{◌≡◌, option_map};
ghost use Rattle.clap.specs.Words.{first_of, found_of, rows_of};
ghost use Rattle.ob_command.specs.CommandLine.{argument_of, budget_of, fits, given_of, has, is_set, is_true, length_of, most_of, processes_of, seed_of};
ghost use Rattle.ob_command.specs.Commands.{given_by};

use clap::ArgMatches;

/// What is given behind the name of a command and that of a module.
#[derive(Clone, Copy)]
pub(crate) struct GivenWords<'a> {
    pub(crate) script_name: Option<&'a str>,
    pub(crate) schedule_name: Option<&'a str>,
    pub(crate) record_name: Option<&'a str>,
    pub(crate) history_name: Option<&'a str>,
    pub(crate) from_name: Option<&'a str>,
    /// The calls of a picture, as they are written.
    pub(crate) range: Option<&'a str>,
    /// The name of a procedure that is to answer TRUE always.
    pub(crate) always: Option<&'a str>,
    pub(crate) processes: Option<u16>,
    pub(crate) budget: Option<u32>,
    /// How many configurations are looked at.
    pub(crate) most: Option<u32>,
    /// The place of the argument by which calls are parted.
    pub(crate) argument: Option<u16>,
    pub(crate) seed: Option<u64>,
    /// How many steps a schedule by chance has.
    pub(crate) length: Option<u32>,
    /// Whether a record is to be printed.
    pub(crate) as_record: bool,
    pub(crate) tree: bool,
    pub(crate) steps: bool,
    pub(crate) traps: bool,
    /// Whether a run goes on until each call has ended.
    pub(crate) finish: bool,
    /// Whether the variables that a call changed are told.
    pub(crate) state: bool,
    /// Whether the turns of a call are told.
    pub(crate) turns: bool,
    /// Whether each whole outcome is told.
    pub(crate) whole: bool,
}

/// A part of what may be given.
#[derive(Clone, Copy)]
pub(crate) enum Part {
    Script,
    Schedule,
    Record,
    History,
    From,
    Processes,
    Budget,
    Most,
    Always,
    Tree,
    Steps,
    Traps,
    Seed,
    Length,
    Finish,
}

/// What is given, of the matches of the words behind a command.
pub(crate) fn given_of<'a>(matches: &ArgMatches<'a>) -> GivenWords<'a>
    ensures { given_by result ≡ given_of (rows_of (found_of matches.now)) }
{
    GivenWords {
        script_name: text_of(matches, "SCRIPT"),
        schedule_name: text_of(matches, "SCHEDULE"),
        record_name: text_of(matches, "RECORD"),
        history_name: text_of(matches, "HISTORY"),
        from_name: text_of(matches, "FROM"),
        range: text_of(matches, "FROM-TO"),
        always: text_of(matches, "NAME"),
        processes: processes_of(matches),
        budget: budget_of(matches),
        most: most_of(matches),
        argument: argument_of(matches),
        seed: seed_of(matches),
        length: length_of(matches),
        as_record: is_set(matches, "record"),
        tree: is_set(matches, "tree"),
        steps: is_set(matches, "steps"),
        traps: is_set(matches, "traps"),
        finish: is_set(matches, "finish"),
        state: is_set(matches, "state"),
        turns: is_set(matches, "turns"),
        whole: is_set(matches, "whole"),
    }
}

/// The text of an argument, of the same matches.
fn text_of<'a>(matches: &ArgMatches<'a>, id: &str) -> Option<&'a str>
    ensures { option_map (λ text. text.now) result ≡ first_of id.now (rows_of (found_of matches.now)) }
{
    matches.get_str(id)
}

/// The number of processes, of the same matches.
fn processes_of(matches: &ArgMatches<'_>) -> Option<u16>
    ensures { result ≡ processes_of (rows_of (found_of matches.now)) }
{
    matches.get_one::<u16>("N")
}

/// The budget, of the same matches.
fn budget_of(matches: &ArgMatches<'_>) -> Option<u32>
    ensures { result ≡ budget_of (rows_of (found_of matches.now)) }
{
    matches.get_one::<u32>("BUDGET")
}

/// How many configurations are looked at, of the same matches.
fn most_of(matches: &ArgMatches<'_>) -> Option<u32>
    ensures { result ≡ most_of (rows_of (found_of matches.now)) }
{
    matches.get_one::<u32>("K")
}

/// The place of the argument by which calls are parted, of the same matches.
fn argument_of(matches: &ArgMatches<'_>) -> Option<u16>
    ensures { result ≡ argument_of (rows_of (found_of matches.now)) }
{
    matches.get_one::<u16>("BY")
}

/// The seed of a schedule by chance, of the same matches.
fn seed_of(matches: &ArgMatches<'_>) -> Option<u64>
    ensures { result ≡ seed_of (rows_of (found_of matches.now)) }
{
    matches.get_one::<u64>("S")
}

/// How many steps such a schedule has, of the same matches.
fn length_of(matches: &ArgMatches<'_>) -> Option<u32>
    ensures { result ≡ length_of (rows_of (found_of matches.now)) }
{
    matches.get_one::<u32>("LENGTH")
}

/// Whether a word stands there that has no value, of the same matches.
fn is_set(matches: &ArgMatches<'_>, name: &str) -> bool
    ensures { result ≡ is_set name.now (rows_of (found_of matches.now)) }
{
    is_true(text_of(matches, name))
}

/// Whether `clap` keeps of a word that it stands there.
fn is_true(word: Option<&str>) -> bool
    ensures { result ≡ is_true (option_map (λ text. text.now) word.entry) }
{
    match word {
        Some(text) => text == "true",
        None => false,
    }
}

/// Whether all of these parts are given, and none of those.
pub(crate) fn fits(given: &GivenWords<'_>, wants: &[Part], lacks: &[Part]) -> bool
    ensures { result ≡ fits (given_by given.now) wants.now lacks.now }
{
    wants.iter().all(|part| has(given, *part)) && !lacks.iter().any(|part| has(given, *part))
}

/// Whether a part is given.
fn has(given: &GivenWords<'_>, part: Part) -> bool
    ensures { result ≡ has (given_by given.now) part }
{
    match part {
        Part::Script => given.script_name.is_some(),
        Part::Schedule => given.schedule_name.is_some(),
        Part::Record => given.record_name.is_some(),
        Part::History => given.history_name.is_some(),
        Part::From => given.from_name.is_some(),
        Part::Processes => given.processes.is_some(),
        Part::Budget => given.budget.is_some(),
        Part::Most => given.most.is_some(),
        Part::Always => given.always.is_some(),
        Part::Tree => given.tree,
        Part::Steps => given.steps,
        Part::Traps => given.traps,
        Part::Seed => given.seed.is_some(),
        Part::Length => given.length.is_some(),
        Part::Finish => given.finish,
    }
}
