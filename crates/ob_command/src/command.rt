//! The command line.

ghost use Rattle.std.specs.Prelude.{◌≡◌, map, option_map};
ghost use Rattle.clap.specs.Words.{found_of, rows_of};
ghost use Rattle.ob_command.specs.CommandLine.{clap_request, command_of, request};
ghost use Rattle.ob_command.specs.Commands.{IsMistake, IsMistakeOf, IsReading, request_of};
ghost use Rattle.ob_command.specs.declared.command.Stop.TheVariants.{NoMemory};

use crate::command_forms::form_mistake;
use crate::given::given_of;
use crate::mistakes::{has_negative, loose_number, stop_of};
use crate::requests::asked;
use clap::ArgMatches;
use ob_command_line::command_line::command_line;
use ob_command_line::help_words::{asks_version, clap_words, extra_of_help, help_mistake};
use std::alloc::{AllocError, Global};

/// What the words ask for. The names are of files.
#[derive(Clone, Copy)]
pub enum Command<'a> {
    /// `check MODULE`: whether a module is one.
    Check {
        module_name: &'a str,
    },
    /// `list MODULE`: the code of a module.
    List {
        module_name: &'a str,
    },
    /// `seq MODULE SCRIPT -b BUDGET --from RECORD --state --turns`: the calls of a script on a module, one at a time.
    Seq(SeqCommand<'a>),
    /// `live MODULE -b BUDGET --from RECORD`: the calls that come from standard input, each answered as it comes. The name of the script
    /// is that of standard input.
    Live(CallsCommand<'a>),
    /// `run MODULE SCRIPT SCHEDULE -n N -b BUDGET --from RECORD`: the record of a run.
    Run(RunCommand<'a>),
    /// `run .. --tree`: the record of the same run, by the tree of the module; from no record.
    RunTree(RunCommand<'a>),
    /// `run .. --steps`: the record, and the own steps of each call that ended.
    RunSteps(RunCommand<'a>),
    /// `run .. --finish`: the same of a run that goes on behind its schedule until each call has ended.
    RunFinished {
        product: RunProduct,
        run: RunCommand<'a>,
    },
    /// `run MODULE SCRIPT --seed S -n N --length K ..`: the same of a run by a schedule of chance.
    RunByChance {
        product: RunProduct,
        run: ChanceCommand<'a>,
    },
    /// `serve MODULE SCRIPT -n N -b BUDGET --from RECORD`: the record of a run by workers, one for each process.
    Serve(CallsCommand<'a>),
    /// `draw MODULE SCRIPT SCHEDULE -n N -b BUDGET --from RECORD --calls FROM-TO`: the same run as a picture, of some calls or of all.
    Draw {
        run: RunCommand<'a>,
        calls: Option<CallNumbers>,
    },
    /// `draw MODULE RECORD --calls FROM-TO`: the picture of a record that was printed before, or of a history.
    DrawRecord {
        module_name: &'a str,
        record_name: &'a str,
        calls: Option<CallNumbers>,
    },
    /// `draw MODULE HISTORY -b BUDGET --most K --calls FROM-TO`: the picture of a history.
    DrawHistory(SeenCommand<'a>),
    /// `outcomes MODULE SCRIPT -n N -b BUDGET --from RECORD --most K`, with `--always NAME` or `--whole`: what may happen over all runs.
    Outcomes(OutcomesCommand<'a>),
    /// `state MODULE SCRIPT SCHEDULE -n N -b BUDGET --from RECORD`: where the machine stands behind a run.
    State(RunCommand<'a>),
    /// `verify MODULE RECORD`: whether the order of a record is a legal order of its calls.
    Verify {
        module_name: &'a str,
        record_name: &'a str,
    },
    /// `order MODULE HISTORY -b BUDGET --most K`, with `--record` or `--by N`: whether a history has a legal order, which is printed.
    Order(OrderCommand<'a>),
    /// `explain MODULE`: what is wrong with a module, shown to people.
    Explain {
        module_name: &'a str,
        budget: u32,
    },
    /// `explain FAULT`: what a fault is, by its name.
    ExplainFault {
        name: &'a str,
    },
    /// `explain MODULE SCRIPT -b BUDGET --from RECORD`: what is wrong with a module and a script, shown to people.
    ExplainCalls(CallsCommand<'a>),
    /// `explain MODULE SCRIPT -b BUDGET --from RECORD --traps`: where the calls of a script trap, shown to people.
    ExplainTraps(CallsCommand<'a>),
    /// `explain MODULE SCRIPT SCHEDULE -n N -b BUDGET --from RECORD`: what is wrong with a run, shown to people.
    ExplainRun(RunCommand<'a>),
    /// `explain MODULE SCRIPT -n N --always NAME -b BUDGET --from RECORD`: how a run comes to what should never be, shown to people.
    ExplainAlways(AlwaysCommand<'a>),
    /// `explain MODULE --record RECORD`: what is wrong with a record, shown to people.
    ExplainRecord {
        module_name: &'a str,
        record_name: &'a str,
    },
    /// `explain MODULE --record RECORD --traps`: where the calls of a record trap, shown to people.
    ExplainRecordTraps {
        module_name: &'a str,
        record_name: &'a str,
    },
    /// `explain MODULE --history HISTORY`: what is wrong with a history, shown to people.
    ExplainHistory {
        module_name: &'a str,
        history_name: &'a str,
    },
    /// `bound MODULE -n N -b BUDGET`: how many own steps a call takes at most.
    Bound {
        module_name: &'a str,
        processes: usize,
        budget: u32,
    },
}

/// What calls are made of: the names of the files of a module and a script, how many processes there are, how many turns each call has,
/// and the name of the file of the record whose variables the object begins with, where one is named.
#[derive(Clone, Copy)]
pub struct CallsCommand<'a> {
    pub module_name: &'a str,
    pub script_name: &'a str,
    pub processes: usize,
    pub budget: u32,
    pub from_name: Option<&'a str>,
}

/// What calls that are made one at a time are made of, and what is told of them beside their replies: the variables that each changed, and
/// how many turns it took.
#[derive(Clone, Copy)]
pub struct SeqCommand<'a> {
    pub calls: CallsCommand<'a>,
    pub state: bool,
    pub turns: bool,
}

/// What all runs are made of: their calls, the name of the procedure that is to answer TRUE always, where one is named, whether each whole
/// outcome is told, and how many configurations are looked at at most. A name and whole outcomes are not asked for together.
#[derive(Clone, Copy)]
pub struct OutcomesCommand<'a> {
    pub calls: CallsCommand<'a>,
    pub always: Option<&'a str>,
    pub whole: bool,
    pub most: u32,
}

/// What is explained of all runs: their calls, and the name of the procedure that is to answer TRUE always.
#[derive(Clone, Copy)]
pub struct AlwaysCommand<'a> {
    pub calls: CallsCommand<'a>,
    pub name: &'a str,
}

/// What a run is made of: its calls, and the name of the file of its schedule.
#[derive(Clone, Copy)]
pub struct RunCommand<'a> {
    pub calls: CallsCommand<'a>,
    pub schedule_name: &'a str,
}

/// What a run by a schedule of chance is made of: its calls, the seed, how many steps the schedule has, and whether it goes on until each
/// call has ended.
#[derive(Clone, Copy)]
pub struct ChanceCommand<'a> {
    pub calls: CallsCommand<'a>,
    pub seed: u64,
    pub steps: u32,
    pub finish: bool,
}

/// What is printed of a run.
#[derive(Clone, Copy)]
pub enum RunProduct {
    /// Its record.
    Record,
    /// The record of the same run by the tree of the module.
    TreeRecord,
    /// The record, and the own steps of each call that ended.
    RecordWithSteps,
}

/// What an order is looked for in, and how: the names of the files of a module and a history, the budget of its calls where one is given, how
/// many configurations are looked at at most, and what is printed of the order.
#[derive(Clone, Copy)]
pub struct OrderCommand<'a> {
    pub module_name: &'a str,
    pub history_name: &'a str,
    pub budget: Option<u32>,
    pub most: u32,
    pub product: OrderProduct,
}

/// What is printed of a legal order.
#[derive(Clone, Copy)]
pub enum OrderProduct {
    /// Its line.
    Line,
    /// The history as a record with that order.
    WholeRecord,
    /// A line for each value of an argument, whose calls are ordered apart. The place of the argument counts from 1.
    Apart(u16),
}

/// What a picture of a history is made of: the names of the files of a module and a history, the budget of its calls where one is given, how
/// many configurations are looked at at most, and the calls that are drawn.
#[derive(Clone, Copy)]
pub struct SeenCommand<'a> {
    pub module_name: &'a str,
    pub history_name: &'a str,
    pub budget: Option<u32>,
    pub most: u32,
    pub calls: Option<CallNumbers>,
}

/// Some calls of a run, by the places of the first and of the last in the order in which the calls begin, from 1.
#[derive(Clone, Copy)]
pub struct CallNumbers {
    pub from: u32,
    pub to: u32,
}

/// Why there is no command to obey.
#[derive(Drop)]
pub enum Stop {
    /// Help was asked for: its text.
    Help(String),
    /// The version was asked for.
    Version,
    /// The words are no command: what is wrong with them.
    Unclear(String),
    /// Want of memory.
    NoMemory,
}

impl From<AllocError> for Stop {
    ghost from_gives = { λ _ e. e ≡ NoMemory };

    fn from(_: AllocError) -> Stop {
        Stop::NoMemory
    }
}

/// The command that the words behind the program's name ask for.
pub fn read_command<'a>(alloc: Global, words: &'a [&'a str]) -> Result<Command<'a>, Stop>
    ensures reading { IsReading (request (map (λ word. word.now) words.entry.now)) result }
    ensures mistake { IsMistakeOf (map (λ word. word.now) words.entry.now) result }
{
    if asks_version(words) {
        return Err(Stop::Version);
    }
    if let Some(word) = extra_of_help(words) {
        return Err(Stop::Unclear(help_mistake(alloc, word)?));
    }
    read_words(alloc, clap_words(words))
}

/// The command that words ask for, in the reading of `clap`.
fn read_words<'a>(alloc: Global, words: &'a [&'a str]) -> Result<Command<'a>, Stop>
    ensures reading { IsReading (clap_request (map (λ word. word.now) words.entry.now)) result }
    ensures mistake { IsMistake (map (λ word. word.now) words.entry.now) result }
{
    let matches = match command_line(alloc)?.try_get_matches_from(words) {
        Ok(matches) => matches,
        Err(error) => return Err(stop_of(alloc, &error, has_negative(words), loose_number(words))?),
    };
    match matches.subcommand() {
        Some((name, matches)) => match command_of(name, matches) {
            Some(command) => Ok(command),
            None => {
                let mistake = form_mistake(name, matches).unwrap();
                Err(Stop::Unclear(String::from_str(alloc, mistake)?))
            }
        },
        None => unreachable!(),
    }
}

/// The command of a name, of the matches of the words behind it.
fn command_of<'a>(name: &str, matches: &ArgMatches<'a>) -> Option<Command<'a>>
    ensures { option_map request_of result ≡ command_of name.now (rows_of (found_of matches.now)) }
{
    match matches.get_str("MODULE") {
        Some(module_name) => asked(name, module_name, &given_of(matches)),
        None => None,
    }
}
