//! The words behind each command.

ghost use Rattle.std.specs.Prelude.{◌≡◌, false, IfOk, IsOkAnd};
ghost use Rattle.clap.specs.Words.{app_of, rule_of, with_rule};
ghost use Rattle.clap.specs.declared.builder.command.Command.TheViews.{out-Command as fields_of};
ghost use Rattle.ob_command_line.specs.ClapCommand.{bound_app, draw_app, drawn_app, explain_app, files_app, live_app, module_app, order_app, outcomes_app};
ghost use Rattle.ob_command_line.specs.ClapCommand.{record_app, run_app, schedule_app, search_app, seq_app, sequence_app, serve_app, texts_app};
ghost use Rattle.ob_command_line.specs.ClapCommand.{state_app, told_run_app};

use crate::arguments::{
    always_true, call_budget, drawn_budget, drawn_calls, explained_history, explained_record,
    file_name, first_record, flag, most_configurations, most_reached, optional_count,
    optional_name, parting_argument, process_count, schedule_length, schedule_seed, seen_budget,
};
use clap::Arg;
use std::alloc::{AllocError, Global};

const HELP_SCRIPT: &str = "The file of the calls, one a line: PROCESS PROCEDURE ARGUMENTS";

const HELP_DRAWN: &str =
    "The file of the calls; or, where no SCHEDULE stands behind it, that of a record or of a history";

const HELP_SCHEDULE: &str =
    "The file of the items that say which process steps, with blanks between them";

/// What stands below the help of a command that has a schedule.
const ITEMS: &str = "\
The items of a schedule, as 0*3, 0:TRY or 0!:
  PROCESS*STEPS  the process takes so many steps
  PROCESS:LABEL  it steps until it stands at the label
  PROCESS!       it steps until it answers
The labels are NEXT, POST, FLIP, TRY, LINK, LOAD, STORE, CHECK1, MINE, SEEN, FETCH, CHECK2, SAVE,
ENTER, BODY, UNDO, KEEP, COMMIT, READ, TAKE and GIVE.";

const HELP_RECORD: &str = "The file of the record, as `run` prints it";

const HELP_HISTORY: &str =
    "The file of the history: which calls began, and how they ended, in the order in which that was seen";

const HELP_AS_RECORD: &str =
    "Prints the history as a record with the order, for `verify`, `draw` and `--from`";

const HELP_TREE: &str =
    "Runs the module by its tree in place of its code, which may then be of any length";

const HELP_STEPS: &str =
    "Prints on standard error each ended call's own steps too, a line each, as `0.1 37`";

const HELP_STATE: &str =
    "Prints behind each reply the variables that the call changed, each with its new value";

const HELP_TURNS: &str = "Prints behind each reply how many turns the call took";

const HELP_WHOLE: &str =
    "Prints each outcome as a whole, the replies of all calls and the variables at the end; not together with --always";

const HELP_FINISH: &str =
    "Goes on behind the schedule until each call has ended, by an item PROCESS! for each of them";

const HELP_TRAPS: &str =
    "Shows each place where calls of the script or of the record trap, once for each trap: the operation, its values, and how many calls trap there";

/// The words behind a command that makes a run, by a schedule that is named or one by chance.
pub fn run_line<'a>(
    alloc: Global,
    command: &'a str,
    about: &'a str,
) -> Result<clap::Command<'a>, AllocError>
    ensures app { IfOk result (λ c. app_of c ≡ run_app command.entry.now) }
    ensures local { IfOk result (λ c. (fields_of c).has_globals ≡ false) }
{
    let line = told_run_line(alloc, command, about);
    let line = with_arg(line, schedule_seed(alloc));
    let line = with_arg(line, schedule_length(alloc));
    with_arg(line, flag(alloc, "finish", HELP_FINISH))
}

/// The words behind a command that makes a run and may tell more of it.
pub fn told_run_line<'a>(
    alloc: Global,
    command: &'a str,
    about: &'a str,
) -> Result<clap::Command<'a>, AllocError>
    ensures app { IfOk result (λ c. app_of c ≡ told_run_app command.entry.now) }
    ensures local { IfOk result (λ c. (fields_of c).has_globals ≡ false) }
{
    let line = with_items(schedule_line(alloc, command, about));
    let line = with_arg(line, first_record(alloc));
    let line = with_arg(line, flag(alloc, "tree", HELP_TREE));
    with_arg(line, flag(alloc, "steps", HELP_STEPS))
}

/// The words behind a command on a module, on a script and on a schedule where one is named, for a number of processes.
pub fn schedule_line<'a>(
    alloc: Global,
    command: &'a str,
    about: &'a str,
) -> Result<clap::Command<'a>, AllocError>
    ensures app { IfOk result (λ c. app_of c ≡ schedule_app command.entry.now) }
    ensures local { IfOk result (λ c. (fields_of c).has_globals ≡ false) }
{
    let line = module_line(alloc, command, about);
    let line = with_arg(line, file_name(alloc, "SCRIPT", HELP_SCRIPT));
    let line = with_arg(line, optional_name(alloc, "SCHEDULE", HELP_SCHEDULE));
    let line = with_arg(line, process_count(alloc));
    with_arg(line, call_budget(alloc))
}

/// The words behind a command on a module, a script and a schedule, for a number of processes with a budget.
pub fn state_line<'a>(
    alloc: Global,
    command: &'a str,
    about: &'a str,
) -> Result<clap::Command<'a>, AllocError>
    ensures app { IfOk result (λ c. app_of c ≡ state_app command.entry.now) }
    ensures local { IfOk result (λ c. (fields_of c).has_globals ≡ false) }
{
    let line = with_items(module_line(alloc, command, about));
    let line = with_arg(line, file_name(alloc, "SCRIPT", HELP_SCRIPT));
    let line = with_arg(line, file_name(alloc, "SCHEDULE", HELP_SCHEDULE));
    let line = with_arg(line, process_count(alloc));
    let line = with_arg(line, call_budget(alloc));
    with_arg(line, first_record(alloc))
}

/// The words behind a command on a module, and on a script and a schedule for a number of processes with a budget, on a record or on a
/// history.
pub fn draw_line<'a>(
    alloc: Global,
    command: &'a str,
    about: &'a str,
) -> Result<clap::Command<'a>, AllocError>
    ensures app { IfOk result (λ c. app_of c ≡ draw_app command.entry.now) }
    ensures local { IfOk result (λ c. (fields_of c).has_globals ≡ false) }
{
    let line = with_items(drawn_line(alloc, command, about));
    let line = with_arg(line, first_record(alloc));
    let line = with_arg(line, drawn_calls(alloc));
    with_arg(line, most_configurations(alloc))
}

/// The names behind a command that draws: of a module, and of a script and a schedule, of a record or of a history.
pub fn drawn_line<'a>(
    alloc: Global,
    command: &'a str,
    about: &'a str,
) -> Result<clap::Command<'a>, AllocError>
    ensures app { IfOk result (λ c. app_of c ≡ drawn_app command.entry.now) }
    ensures local { IfOk result (λ c. (fields_of c).has_globals ≡ false) }
{
    let line = module_line(alloc, command, about);
    let line = with_arg(line, file_name(alloc, "SCRIPT", HELP_DRAWN));
    let line = with_arg(line, optional_name(alloc, "SCHEDULE", HELP_SCHEDULE));
    let line = with_arg(line, optional_count(alloc));
    with_arg(line, drawn_budget(alloc))
}

/// The words behind a command on a module and a script, for a number of processes with a budget.
pub fn serve_line<'a>(
    alloc: Global,
    command: &'a str,
    about: &'a str,
) -> Result<clap::Command<'a>, AllocError>
    ensures app { IfOk result (λ c. app_of c ≡ serve_app command.entry.now) }
    ensures local { IfOk result (λ c. (fields_of c).has_globals ≡ false) }
{
    let line = module_line(alloc, command, about);
    let line = with_arg(line, file_name(alloc, "SCRIPT", HELP_SCRIPT));
    let line = with_arg(line, process_count(alloc));
    let line = with_arg(line, call_budget(alloc));
    with_arg(line, first_record(alloc))
}

/// The words behind a command that tells what may happen in all runs of the calls of a script.
pub fn outcomes_line<'a>(
    alloc: Global,
    command: &'a str,
    about: &'a str,
) -> Result<clap::Command<'a>, AllocError>
    ensures app { IfOk result (λ c. app_of c ≡ outcomes_app command.entry.now) }
    ensures local { IfOk result (λ c. (fields_of c).has_globals ≡ false) }
{
    let line = serve_line(alloc, command, about);
    let line = with_arg(line, always_true(alloc));
    let line = with_arg(line, flag(alloc, "whole", HELP_WHOLE));
    with_arg(line, most_reached(alloc))
}

/// The words behind a command that makes the calls of a script on a module, and says what is told of them.
pub fn seq_line<'a>(
    alloc: Global,
    command: &'a str,
    about: &'a str,
) -> Result<clap::Command<'a>, AllocError>
    ensures app { IfOk result (λ c. app_of c ≡ seq_app command.entry.now) }
    ensures local { IfOk result (λ c. (fields_of c).has_globals ≡ false) }
{
    let line = sequence_line(alloc, command, about);
    let line = with_arg(line, flag(alloc, "state", HELP_STATE));
    with_arg(line, flag(alloc, "turns", HELP_TURNS))
}

/// The words behind a command that makes the calls of a script on a module.
pub fn sequence_line<'a>(
    alloc: Global,
    command: &'a str,
    about: &'a str,
) -> Result<clap::Command<'a>, AllocError>
    ensures app { IfOk result (λ c. app_of c ≡ sequence_app command.entry.now) }
    ensures local { IfOk result (λ c. (fields_of c).has_globals ≡ false) }
{
    let line = module_line(alloc, command, about);
    let line = with_arg(line, file_name(alloc, "SCRIPT", HELP_SCRIPT));
    let line = with_arg(line, call_budget(alloc));
    with_arg(line, first_record(alloc))
}

/// The words behind a command that makes calls on a module as they come.
pub fn live_line<'a>(
    alloc: Global,
    command: &'a str,
    about: &'a str,
) -> Result<clap::Command<'a>, AllocError>
    ensures app { IfOk result (λ c. app_of c ≡ live_app command.entry.now) }
    ensures local { IfOk result (λ c. (fields_of c).has_globals ≡ false) }
{
    let line = module_line(alloc, command, about);
    let line = with_arg(line, call_budget(alloc));
    with_arg(line, first_record(alloc))
}

/// The words behind a command on a module, on a script where one is named, and on a schedule, a record or a history.
pub fn explain_line<'a>(
    alloc: Global,
    command: &'a str,
    about: &'a str,
) -> Result<clap::Command<'a>, AllocError>
    ensures app { IfOk result (λ c. app_of c ≡ explain_app command.entry.now) }
    ensures local { IfOk result (λ c. (fields_of c).has_globals ≡ false) }
{
    let line = with_items(files_line(alloc, command, about));
    let line = with_arg(line, flag(alloc, "traps", HELP_TRAPS));
    with_arg(line, always_true(alloc))
}

/// The names behind a command that explains, and the options that name files.
pub fn files_line<'a>(
    alloc: Global,
    command: &'a str,
    about: &'a str,
) -> Result<clap::Command<'a>, AllocError>
    ensures app { IfOk result (λ c. app_of c ≡ files_app command.entry.now) }
    ensures local { IfOk result (λ c. (fields_of c).has_globals ≡ false) }
{
    let line = texts_line(alloc, command, about);
    let line = with_arg(line, first_record(alloc));
    let line = with_arg(line, explained_record(alloc));
    with_arg(line, explained_history(alloc))
}

/// The names behind a command that explains: of a module, of a script and of a schedule, where they are named.
pub fn texts_line<'a>(
    alloc: Global,
    command: &'a str,
    about: &'a str,
) -> Result<clap::Command<'a>, AllocError>
    ensures app { IfOk result (λ c. app_of c ≡ texts_app command.entry.now) }
    ensures local { IfOk result (λ c. (fields_of c).has_globals ≡ false) }
{
    let line = module_line(alloc, command, about);
    let line = with_arg(line, optional_name(alloc, "SCRIPT", HELP_SCRIPT));
    let line = with_arg(line, optional_name(alloc, "SCHEDULE", HELP_SCHEDULE));
    let line = with_arg(line, optional_count(alloc));
    with_arg(line, call_budget(alloc))
}

/// The words behind a command on a module, for a number of processes with a budget.
pub fn bound_line<'a>(
    alloc: Global,
    command: &'a str,
    about: &'a str,
) -> Result<clap::Command<'a>, AllocError>
    ensures app { IfOk result (λ c. app_of c ≡ bound_app command.entry.now) }
    ensures local { IfOk result (λ c. (fields_of c).has_globals ≡ false) }
{
    let line = module_line(alloc, command, about);
    let line = with_arg(line, process_count(alloc));
    with_arg(line, call_budget(alloc))
}

/// The words behind a command on a module and the record of a run.
pub fn record_line<'a>(
    alloc: Global,
    command: &'a str,
    about: &'a str,
) -> Result<clap::Command<'a>, AllocError>
    ensures app { IfOk result (λ c. app_of c ≡ record_app command.entry.now) }
    ensures local { IfOk result (λ c. (fields_of c).has_globals ≡ false) }
{
    let line = module_line(alloc, command, about);
    with_arg(line, file_name(alloc, "RECORD", HELP_RECORD))
}

/// The words behind a command that looks for an order of a history, and says what is printed of it.
pub fn order_line<'a>(
    alloc: Global,
    command: &'a str,
    about: &'a str,
) -> Result<clap::Command<'a>, AllocError>
    ensures app { IfOk result (λ c. app_of c ≡ order_app command.entry.now) }
    ensures local { IfOk result (λ c. (fields_of c).has_globals ≡ false) }
{
    let line = search_line(alloc, command, about);
    let line = with_arg(line, flag(alloc, "record", HELP_AS_RECORD));
    with_arg(line, parting_argument(alloc))
}

/// The words behind a command on a module and a history of calls, with a budget, for a search.
pub fn search_line<'a>(
    alloc: Global,
    command: &'a str,
    about: &'a str,
) -> Result<clap::Command<'a>, AllocError>
    ensures app { IfOk result (λ c. app_of c ≡ search_app command.entry.now) }
    ensures local { IfOk result (λ c. (fields_of c).has_globals ≡ false) }
{
    let line = module_line(alloc, command, about);
    let line = with_arg(line, file_name(alloc, "HISTORY", HELP_HISTORY));
    let line = with_arg(line, seen_budget(alloc));
    with_arg(line, most_configurations(alloc))
}

/// The words behind a command on a module: the module's name.
pub fn module_line<'a>(
    alloc: Global,
    command: &'a str,
    about: &'a str,
) -> Result<clap::Command<'a>, AllocError>
    ensures app { IfOk result (λ c. app_of c ≡ module_app command.entry.now) }
    ensures local { IfOk result (λ c. (fields_of c).has_globals ≡ false) }
{
    let module = file_name(alloc, "MODULE", "The file of the module's text");
    clap::Command::new(alloc, command).about(about).arg(module)
}

// What is made is handed on as it was made, or not made: so want of memory lets a line go in these two alone.

/// The words behind a command with one more, where they could be made.
fn with_arg<'a>(
    line: Result<clap::Command<'a>, AllocError>,
    arg: Arg<'a>,
) -> Result<clap::Command<'a>, AllocError>
    requires { arg.global ≡ false }
    ensures app { IfOk result (λ c. IsOkAnd line.entry (λ before. app_of c ≡ with_rule (app_of before) (rule_of arg.entry))) }
    ensures local { IfOk result (λ c. IsOkAnd line.entry (λ before. (fields_of c).has_globals ≡ (fields_of before).has_globals)) }
{
    line?.arg(arg)
}

/// The same words, where they could be made; below their help stands what the items of a schedule are.
fn with_items<'a>(
    line: Result<clap::Command<'a>, AllocError>,
) -> Result<clap::Command<'a>, AllocError>
    ensures app { IfOk result (λ c. IsOkAnd line.entry (λ before. app_of c ≡ app_of before)) }
    ensures local { IfOk result (λ c. IsOkAnd line.entry (λ before. (fields_of c).has_globals ≡ (fields_of before).has_globals)) }
{
    Ok(line?.after_help(ITEMS))
}
