//! What is said of words that have none of the forms of their command.

ghost use Rattle.std.specs.Prelude.{◌≡◌, option_map};
ghost use Rattle.clap.specs.Words.{found_of, rows_of};
ghost use Rattle.ob_command.specs.Commands.{given_by};
ghost use Rattle.ob_command.specs.CommandLine.{draw_mistake_of, drawn_mistake, explain_mistake, form_mistake, form_mistake_by, is_turned};
ghost use Rattle.ob_command.specs.CommandLine.{order_mistake_of, outcomes_mistake_of, range_mistake, run_mistake_of};

use crate::call_range::{is_turned, range_by};
use crate::given::{GivenWords, given_of};
use crate::requests::{is_length, is_most, is_place, is_seen_budget};
use clap::ArgMatches;

/// What is wrong with words for a picture that are in none of the forms of `draw`.
const UNCLEAR_DRAW: &str = "\
error: these words are in no form of draw, which are
  obl0 draw MODULE SCRIPT SCHEDULE -n N [-b BUDGET] [--from RECORD] [--calls FROM-TO]
  obl0 draw MODULE RECORD [--calls FROM-TO]
  obl0 draw MODULE HISTORY [-b BUDGET] [--most K] [--calls FROM-TO]

For more information, try '--help'.
";

/// What is wrong with words behind `explain` that are in none of its forms.
const UNCLEAR_EXPLAIN: &str = "\
error: these words are in no form of explain, which are
  obl0 explain MODULE
  obl0 explain FAULT
  obl0 explain MODULE SCRIPT [-b BUDGET] [--from RECORD] [--traps]
  obl0 explain MODULE SCRIPT SCHEDULE -n N [-b BUDGET] [--from RECORD]
  obl0 explain MODULE SCRIPT -n N --always NAME [-b BUDGET] [--from RECORD]
  obl0 explain MODULE --record RECORD [--traps]
  obl0 explain MODULE --history HISTORY

For more information, try '--help'.
";

/// What is wrong with words behind `run` that are in none of its forms.
const UNCLEAR_RUN: &str = "\
error: these words are in no form of run, which are
  obl0 run MODULE SCRIPT SCHEDULE -n N [--finish] [-b BUDGET] [--from RECORD] [--steps]
  obl0 run MODULE SCRIPT SCHEDULE -n N [--finish] [-b BUDGET] --tree
  obl0 run MODULE SCRIPT --seed S -n N [--length K] [--finish] [-b BUDGET] [--from RECORD] [--steps]
  obl0 run MODULE SCRIPT --seed S -n N [--length K] [--finish] [-b BUDGET] --tree

For more information, try '--help'.
";

/// What is wrong with a number of steps that a schedule by chance can't have.
const UNCLEAR_LENGTH: &str = "\
error: behind --length stands how many steps the schedule has, 0 to 1000000

For more information, try '--help'.
";

/// What is wrong with words behind `run` that ask for own steps by the tree.
const TREE_AND_STEPS: &str = "\
error: --tree and --steps don't stand together

For more information, try '--help'.
";

/// What is wrong with words behind `run` that begin a run by the tree with a record.
const TREE_AND_FROM: &str = "\
error: --tree and --from don't stand together

For more information, try '--help'.
";

/// What is wrong with a budget behind `order` that calls can't have had.
const UNCLEAR_SEEN_BUDGET: &str = "\
error: behind -b stands how many turns each call had, 0 to 1000000

For more information, try '--help'.
";

/// What is wrong with a number of configurations that a search can't be told to look at.
const UNCLEAR_MOST: &str = "\
error: behind --most stands how many configurations are looked at, 1 to 1000000000

For more information, try '--help'.
";

/// What is wrong with a number of an argument that no call can have.
const UNCLEAR_PLACE: &str = "\
error: behind --by stands the place of an argument, 1 to 8

For more information, try '--help'.
";

/// What is wrong with words behind `order` that ask for a record of parts.
const RECORD_AND_BY: &str = "\
error: --record and --by don't stand together

For more information, try '--help'.
";

/// What is wrong with words behind `outcomes` that name a procedure beside `--whole`.
const ALWAYS_AND_WHOLE: &str = "\
error: --always and --whole don't stand together

For more information, try '--help'.
";

/// What is wrong with a word behind `--calls` that names no calls.
const UNCLEAR_CALLS: &str = "\
error: behind --calls stands FROM-TO, as 3-5: the places of the first and the last call, from 1

For more information, try '--help'.
";

/// What is wrong with two places there of which the first is behind the second.
const TURNED_CALLS: &str = "\
error: behind --calls stands FROM-TO, and here FROM is behind TO; the lower place comes first, as in 3-5

For more information, try '--help'.
";

/// What is said of words that have none of the forms of a command, where it has several, or numbers that it doesn't take.
pub(crate) fn form_mistake(name: &str, matches: &ArgMatches<'_>) -> Option<&'static str>
    ensures { option_map (λ text. text.now) result ≡ form_mistake name.now (rows_of (found_of matches.now)) }
{
    form_mistake_by(name, &given_of(matches))
}

/// The same of what is given.
fn form_mistake_by(name: &str, given: &GivenWords<'_>) -> Option<&'static str>
    ensures { option_map (λ text. text.now) result ≡ form_mistake_by name.now (given_by given.now) }
{
    match name {
        "draw" => Some(draw_mistake_of(given)),
        "explain" => Some(explain_mistake()),
        "run" => Some(run_mistake_of(given)),
        "order" => Some(order_mistake_of(given)),
        "outcomes" => Some(outcomes_mistake_of(given)),
        _ => None,
    }
}

/// What is said of words that have none of the forms of `explain`.
fn explain_mistake() -> &'static str
    ensures { result.now ≡ explain_mistake }
{
    UNCLEAR_EXPLAIN
}

/// What is said of words that have none of the forms of `run`, or a number of steps that is out of its range.
fn run_mistake_of(given: &GivenWords<'_>) -> &'static str
    ensures { result.now ≡ run_mistake_of (given_by given.now) }
{
    if !is_length(given.length) {
        UNCLEAR_LENGTH
    } else if given.tree && given.steps {
        TREE_AND_STEPS
    } else if given.tree && given.from_name.is_some() {
        TREE_AND_FROM
    } else {
        UNCLEAR_RUN
    }
}

/// What is said of words behind `order` of which one number is out of its range, or that ask for a record of parts.
fn order_mistake_of(given: &GivenWords<'_>) -> &'static str
    ensures { result.now ≡ order_mistake_of (given_by given.now) }
{
    if !is_most(given.most) {
        UNCLEAR_MOST
    } else if !is_seen_budget(given.budget) {
        UNCLEAR_SEEN_BUDGET
    } else if !is_place(given.argument) {
        UNCLEAR_PLACE
    } else {
        RECORD_AND_BY
    }
}

/// What is said of words that have none of the forms of `draw`.
fn draw_mistake_of(given: &GivenWords<'_>) -> &'static str
    ensures { result.now ≡ draw_mistake_of (given_by given.now) }
{
    match range_by(given.range) {
        Some(_) => drawn_mistake(given),
        None => range_mistake(given.range),
    }
}

/// The same of words that name calls, or all: what is said of a number that is out of its range where no schedule stands there.
fn drawn_mistake(given: &GivenWords<'_>) -> &'static str
    ensures { result.now ≡ drawn_mistake (given_by given.now) }
{
    if given.schedule_name.is_some() {
        UNCLEAR_DRAW
    } else if !is_most(given.most) {
        UNCLEAR_MOST
    } else if !is_seen_budget(given.budget) {
        UNCLEAR_SEEN_BUDGET
    } else {
        UNCLEAR_DRAW
    }
}

/// What is said of words behind `outcomes` with a number that is out of its range, or with a name beside `--whole`.
fn outcomes_mistake_of(given: &GivenWords<'_>) -> &'static str
    ensures { result.now ≡ outcomes_mistake_of (given_by given.now) }
{
    if is_most(given.most) {
        ALWAYS_AND_WHOLE
    } else {
        UNCLEAR_MOST
    }
}

/// What is said of the word behind `--calls` where it names no calls.
fn range_mistake(text: Option<&str>) -> &'static str
    ensures { result.now ≡ range_mistake (option_map (λ text. text.now) text.entry) }
{
    match text {
        Some(text) if is_turned(text) => TURNED_CALLS,
        _ => UNCLEAR_CALLS,
    }
}
