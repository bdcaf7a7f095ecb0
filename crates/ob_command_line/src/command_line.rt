//! The command line as `clap` is told of it.

ghost use Rattle.std.specs.Prelude.{◌≡◌, false, IfOk, IsOkAnd};
ghost use Rattle.clap.specs.Words.{App, app_of};
ghost use Rattle.clap.specs.declared.builder.command.Command.TheViews.{out-Command as fields_of};
ghost use Rattle.ob_command_line.specs.ClapCommand.{module_apps, obl0_app, record_apps, run_apps, telling_apps, top_app, with_command, with_commands};

use crate::command_words::{
    bound_line, draw_line, explain_line, live_line, module_line, order_line, outcomes_line,
    record_line, run_line, seq_line, serve_line, state_line,
};
use std::alloc::{AllocError, Global};

/// What the program is for, above the list of its commands.
const ABOUT: &str = "\
Shares a module of Oberon-0 among processes, none of which waits for another.

  Share:    `run` makes the calls of a script by a schedule that you choose, and `serve` by threads.
  Check:    `verify` tells whether a run went as if its calls were made one at a time, and `order`
            whether calls that were seen can have done so.
  Explore:  `outcomes` tells all that may happen, whatever the schedule, and `draw` shows a run.";

const ABOUT_SEQ: &str = "Makes the calls of a script one at a time and prints the reply to each";

const ABOUT_LIVE: &str =
    "Reads calls from standard input, answers each as soon as its line is there, and ends with the record";

const ABOUT_RUN: &str =
    "Makes the calls of a script by the steps of a schedule, or of one by chance, and prints the record of the run";

const ABOUT_SERVE: &str =
    "Makes the calls of a script by a worker for each process and prints the record of the run";

const ABOUT_DRAW: &str =
    "Prints a picture in SVG, of the same run as that of `run`, or of a record or a history alone";

const ABOUT_OUTCOMES: &str =
    "Tells what may happen over all runs of the calls of a script, whatever the schedule";

const ABOUT_STATE: &str =
    "Prints where the machine stands behind a run: labels and registers, announcements, the root and the blocks";

const ABOUT_VERIFY: &str = "Tells whether the order of a record is a legal order of its calls";

const ABOUT_ORDER: &str = "Tells whether a history of calls has a legal order, and prints one";

const ABOUT_EXPLAIN: &str =
    "Shows what is wrong with a module, with a module and a script, with a run, with a record or with a \
    history, where calls trap, or how a run comes to what should never be; or tells what a fault is, such as H4";

const ABOUT_BOUND: &str =
    "Prints how many own steps a call takes at most, and the numbers behind it";

const USAGE_CHECK: &str = "obl0 check MODULE";

const USAGE_LIST: &str = "obl0 list MODULE";

const USAGE_SEQ: &str = "obl0 seq MODULE SCRIPT [-b BUDGET] [--from RECORD] [--state] [--turns]";

const USAGE_LIVE: &str = "obl0 live MODULE [-b BUDGET] [--from RECORD]";

const USAGE_RUN: &str = "\
obl0 run MODULE SCRIPT SCHEDULE -n N [--finish] [-b BUDGET] [--from RECORD] [--steps]
       obl0 run MODULE SCRIPT SCHEDULE -n N [--finish] [-b BUDGET] --tree
       obl0 run MODULE SCRIPT --seed S -n N [--length K] [--finish] [-b BUDGET] [--from RECORD] [--steps]
       obl0 run MODULE SCRIPT --seed S -n N [--length K] [--finish] [-b BUDGET] --tree";

const USAGE_SERVE: &str = "obl0 serve MODULE SCRIPT -n N [-b BUDGET] [--from RECORD]";

const USAGE_DRAW: &str = "\
obl0 draw MODULE SCRIPT SCHEDULE -n N [-b BUDGET] [--from RECORD] [--calls FROM-TO]
       obl0 draw MODULE RECORD [--calls FROM-TO]
       obl0 draw MODULE HISTORY [-b BUDGET] [--most K] [--calls FROM-TO]";

const USAGE_OUTCOMES: &str =
    "obl0 outcomes MODULE SCRIPT -n N [-b BUDGET] [--from RECORD] [--most K] [--always NAME | --whole]";

const USAGE_STATE: &str = "obl0 state MODULE SCRIPT SCHEDULE -n N [-b BUDGET] [--from RECORD]";

const USAGE_VERIFY: &str = "obl0 verify MODULE RECORD";

const USAGE_ORDER: &str = "obl0 order MODULE HISTORY [-b BUDGET] [--most K] [--record | --by N]";

const USAGE_EXPLAIN: &str = "\
obl0 explain MODULE
       obl0 explain FAULT
       obl0 explain MODULE SCRIPT [-b BUDGET] [--from RECORD] [--traps]
       obl0 explain MODULE SCRIPT SCHEDULE -n N [-b BUDGET] [--from RECORD]
       obl0 explain MODULE SCRIPT -n N --always NAME [-b BUDGET] [--from RECORD]
       obl0 explain MODULE --record RECORD [--traps]
       obl0 explain MODULE --history HISTORY";

const USAGE_BOUND: &str = "obl0 bound MODULE -n N [-b BUDGET]";

/// What stands below the help.
const AFTER_HELP: &str = "\
To begin with: `obl0 seq examples/counter.mod examples/counter.calls`.
`help COMMAND` prints the help of a command, as `COMMAND --help` does.
`version`, `--version` and `-V` print the version.
`-` in the place of a file's name is standard input.
`explain S3` tells what the fault S3 is; docs/FAULTS.md has all of them.";

/// The command line as `clap` reads it.
pub fn command_line<'a>(alloc: Global) -> Result<clap::Command<'a>, AllocError>
    ensures { IfOk result (λ c. app_of c ≡ obl0_app) }
{
    let program = with_module_commands(alloc, program_line(alloc));
    let program = with_run_commands(alloc, program);
    let program = with_record_commands(alloc, program);
    with_telling_commands(alloc, program)
}

// The line and a command are handed on as they were made, or not made: so want of memory lets them go in `with_command` alone.

type Line<'a> = Result<clap::Command<'a>, AllocError>;

/// The command line with the commands that make no calls, or one at a time.
fn with_module_commands<'a>(alloc: Global, program: Line<'a>) -> Line<'a>
    ensures { (a : App) → IfOk program.entry (λ c. app_of c ≡ a) → IfOk result (λ c. app_of c ≡ with_commands a module_apps) }
{
    let check = module_line(alloc, "check", "Tells whether a module keeps the rules");
    let program = with_command(program, USAGE_CHECK, check);
    let list = module_line(alloc, "list", "Prints the code of a module");
    let program = with_command(program, USAGE_LIST, list);
    let program = with_command(program, USAGE_SEQ, seq_line(alloc, "seq", ABOUT_SEQ));
    with_command(program, USAGE_LIVE, live_line(alloc, "live", ABOUT_LIVE))
}

/// The command line with the commands that make a run, or all runs.
fn with_run_commands<'a>(alloc: Global, program: Line<'a>) -> Line<'a>
    ensures { (a : App) → IfOk program.entry (λ c. app_of c ≡ a) → IfOk result (λ c. app_of c ≡ with_commands a run_apps) }
{
    let program = with_command(program, USAGE_RUN, run_line(alloc, "run", ABOUT_RUN));
    let serve = serve_line(alloc, "serve", ABOUT_SERVE);
    let program = with_command(program, USAGE_SERVE, serve);
    let program = with_command(program, USAGE_DRAW, draw_line(alloc, "draw", ABOUT_DRAW));
    let outcomes = outcomes_line(alloc, "outcomes", ABOUT_OUTCOMES);
    let program = with_command(program, USAGE_OUTCOMES, outcomes);
    with_command(
        program,
        USAGE_STATE,
        state_line(alloc, "state", ABOUT_STATE),
    )
}

/// The command line with the commands that look at a record or a history.
fn with_record_commands<'a>(alloc: Global, program: Line<'a>) -> Line<'a>
    ensures { (a : App) → IfOk program.entry (λ c. app_of c ≡ a) → IfOk result (λ c. app_of c ≡ with_commands a record_apps) }
{
    let verify = record_line(alloc, "verify", ABOUT_VERIFY);
    let program = with_command(program, USAGE_VERIFY, verify);
    with_command(
        program,
        USAGE_ORDER,
        order_line(alloc, "order", ABOUT_ORDER),
    )
}

/// The command line with the commands that tell of a module.
fn with_telling_commands<'a>(alloc: Global, program: Line<'a>) -> Line<'a>
    ensures { (a : App) → IfOk program.entry (λ c. app_of c ≡ a) → IfOk result (λ c. app_of c ≡ with_commands a telling_apps) }
{
    let explain = explain_line(alloc, "explain", ABOUT_EXPLAIN);
    let program = with_command(program, USAGE_EXPLAIN, explain);
    with_command(
        program,
        USAGE_BOUND,
        bound_line(alloc, "bound", ABOUT_BOUND),
    )
}

/// The command line with one command more, which has these forms, where both could be made.
fn with_command<'a>(program: Line<'a>, usage: &'a str, command: Line<'a>) -> Line<'a>
    requires local { IfOk command (λ c. (fields_of c).has_globals ≡ false) }
    ensures { IfOk result (λ c. IsOkAnd program.entry (λ above. IsOkAnd command.entry (λ added. app_of c ≡ with_command (app_of above) (app_of added)))) }
{
    program?.subcommand(command?.override_usage(usage))
}

/// The command line before any command.
fn program_line<'a>(alloc: Global) -> Result<clap::Command<'a>, AllocError>
    ensures { IfOk result (λ c. app_of c ≡ top_app) }
{
    let program = clap::Command::new(alloc, "obl0")
        .bin_name("obl0")?
        .about(ABOUT)
        .after_help(AFTER_HELP)
        .no_binary_name(true)
        .disable_help_subcommand(true)
        .subcommand_required(true)
        .arg_required_else_help(true);
    Ok(program)
}
