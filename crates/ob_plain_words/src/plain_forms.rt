//! Plain forms of commands: the names of files, which are no options, and the number of processes where the command has one.

ghost use Rattle.std.specs.Prelude.{◌≡◌, ◌∷◌, [], Some, codes, false, map, true, IfSome};
ghost use Rattle.ob_command.specs.CommandLine.{is_option, number, request};
ghost use Rattle.ob_command.specs.Commands.{calls_request_of, request_of};
ghost use Rattle.ob_command_laws.specs.PlainForms.{calls_with};

use ob_command::command::{CallsCommand, Command, OutcomesCommand, RunCommand, SeqCommand};
use ob_command_laws::laws::{check_is_asked, outcomes_is_asked, run_is_asked, seq_is_asked};

/// How many turns each call has where nothing is said of them.
const BUDGET: u32 = 100_000;

/// How many configurations are looked at over all runs where nothing is said of them.
const MOST_REACHED: u32 = 1_000_000;

/// The processes of which `seq` reads calls.
const ALL_PROCESSES: usize = 16;

/// The command that words in a plain form ask for.
pub fn plain_command<'a>(words: &'a [&'a str]) -> Option<Command<'a>>
    ensures { IfSome result (λ command. request_of command ≡ request (map (λ word. word.now) words.entry.now)) }
{
    match words {
        [name, module] if *name == "check" => plain_check(module),
        [name, module, script] if *name == "seq" => plain_seq(module, script),
        [name, module, script, option, count] if *name == "outcomes" && *option == "-n" => {
            plain_outcomes(module, script, count)
        }
        [name, module, script, schedule, option, count] if *name == "run" && *option == "-n" => {
            plain_run(module, script, schedule, count)
        }
        _ => None,
    }
}

/// `check MODULE`
fn plain_check<'a>(module_name: &'a str) -> Option<Command<'a>>
    ensures { IfSome result (λ command. request_of command ≡ request (codes "check" ∷ module_name.entry.now ∷ [])) }
{
    if !names_file(module_name) {
        return None;
    }
    check_is_asked();
    Some(Command::Check { module_name })
}

/// `seq MODULE SCRIPT`
fn plain_seq<'a>(module_name: &'a str, script_name: &'a str) -> Option<Command<'a>>
    ensures { IfSome result (λ command. request_of command ≡ request (codes "seq" ∷ module_name.entry.now ∷ script_name.entry.now ∷ [])) }
{
    if !names_file(module_name) || !names_file(script_name) {
        return None;
    }
    seq_is_asked();
    let calls = calls_of(module_name, script_name, ALL_PROCESSES);
    let (state, turns) = (false, false);
    Some(Command::Seq(SeqCommand {
        calls,
        state,
        turns,
    }))
}

/// `outcomes MODULE SCRIPT -n N`
fn plain_outcomes<'a>(
    module_name: &'a str,
    script_name: &'a str,
    count: &str,
) -> Option<Command<'a>>
    ensures { IfSome result (λ command. request_of command
        ≡ request (codes "outcomes" ∷ module_name.entry.now ∷ script_name.entry.now ∷ codes "-n" ∷ count.now ∷ [])) }
{
    if !names_file(module_name) || !names_file(script_name) {
        return None;
    }
    let processes = count_of(count)?;
    outcomes_is_asked();
    let calls = calls_of(module_name, script_name, processes);
    Some(Command::Outcomes(OutcomesCommand {
        calls,
        always: None,
        whole: false,
        most: MOST_REACHED,
    }))
}

/// `run MODULE SCRIPT SCHEDULE -n N`
fn plain_run<'a>(
    module_name: &'a str,
    script_name: &'a str,
    schedule_name: &'a str,
    count: &str,
) -> Option<Command<'a>>
    ensures { IfSome result (λ command. request_of command
        ≡ request (codes "run" ∷ module_name.entry.now ∷ script_name.entry.now ∷ schedule_name.entry.now ∷ codes "-n" ∷ count.now ∷ [])) }
{
    if !names_file(module_name) || !names_file(script_name) || !names_file(schedule_name) {
        return None;
    }
    let processes = count_of(count)?;
    run_is_asked();
    let calls = calls_of(module_name, script_name, processes);
    Some(Command::Run(RunCommand {
        calls,
        schedule_name,
    }))
}

/// Calls of so many processes, of which no option says more.
fn calls_of<'a>(module_name: &'a str, script_name: &'a str, processes: usize) -> CallsCommand<'a>
    ensures { calls_request_of result ≡ calls_with module_name.entry.now script_name.entry.now processes [] }
{
    CallsCommand {
        module_name,
        script_name,
        processes,
        budget: BUDGET,
        from_name: None,
    }
}

/// Whether a word names a file: an option has a dash, and more behind it.
fn names_file(word: &str) -> bool
    ensures { result ≡ true → is_option word.now ≡ false }
{
    !matches!(word.as_bytes(), [b'-', _, ..])
}

/// A number of processes, written without anything that is not needed.
fn count_of(word: &str) -> Option<usize>
    ensures { IfSome result (λ count. number word.now ≡ Some count) }
{
    match word {
        "1" => Some(1),
        "2" => Some(2),
        "3" => Some(3),
        "4" => Some(4),
        "5" => Some(5),
        "6" => Some(6),
        "7" => Some(7),
        "8" => Some(8),
        "9" => Some(9),
        "10" => Some(10),
        "11" => Some(11),
        "12" => Some(12),
        "13" => Some(13),
        "14" => Some(14),
        "15" => Some(15),
        "16" => Some(16),
        _ => None,
    }
}
