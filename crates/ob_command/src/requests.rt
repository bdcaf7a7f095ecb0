//! What a command asks for, of what is given behind it.

ghost use Rattle.std.specs.Prelude.{◌≡◌, Some, option_map, true};
ghost use Rattle.std.specs.Option.{option_map_or};
ghost use Rattle.ob_command.specs.CommandLine.{always_of, are_reached, are_seen, asked, asked_by, bound_of, calls_by, calls_of, chance_by};
ghost use Rattle.ob_command.specs.CommandLine.{chance_of, draw_forms, explain_alone, explain_calls_forms, explain_forms, explain_history_forms};
ghost use Rattle.ob_command.specs.CommandLine.{explain_script_forms, finished_of, history_picture_by, history_picture_of, is_length, live_of};
ghost use Rattle.ob_command.specs.CommandLine.{is_most, is_place, is_seen_budget, order_by, order_of, outcomes_by, outcomes_of, picture_of, product_by, product_of};
ghost use Rattle.ob_command.specs.CommandLine.{record_picture_of, run_file_forms, run_forms, run_of, run_product, seq_of, sequence_of, turns_of};
ghost use Rattle.ob_command.specs.Commands.{calls_request_of, chance_request_of, given_by, request_of, run_request_of};

use crate::call_range::range_by;
use crate::command::{
    AlwaysCommand, CallNumbers, CallsCommand, ChanceCommand, Command, OrderCommand, OrderProduct,
    OutcomesCommand, RunCommand, RunProduct, SeenCommand, SeqCommand,
};
use crate::given::{GivenWords, Part, fits};
use crate::known_faults::names_fault;

/// How many turns each call has where nothing is said of them.
const DEFAULT_BUDGET: u32 = 100_000;

/// How many configurations a search for an order looks at where nothing is said of it.
const DEFAULT_MOST: u32 = 10_000_000;

/// The same of a search over all runs.
const DEFAULT_MOST_REACHED: u32 = 1_000_000;

/// How many steps a schedule by chance has where nothing is said of them.
const DEFAULT_LENGTH: u32 = 1000;

/// The most steps that such a schedule can have.
const GREATEST_LENGTH: u32 = 1_000_000;

/// The most turns that each call of a history can have had.
const GREATEST_SEEN_BUDGET: u32 = 1_000_000;

/// The most configurations that a search can be told to look at.
const GREATEST_MOST: u32 = 1_000_000_000;

/// The last argument that a procedure can have.
const GREATEST_PLACE: u16 = 8;

/// Of how many processes calls may be that are made one at a time.
const SEQUENCE_PROCESSES: usize = 16;

/// The name of standard input, from which calls come one by one.
const COMING_NAME: &str = "-";

/// The command of a name on a module, of what is given behind it.
pub(crate) fn asked<'a>(
    name: &str,
    module_name: &'a str,
    given: &GivenWords<'a>,
) -> Option<Command<'a>>
    ensures { option_map request_of result ≡ asked name.now module_name.entry.now (given_by given.now) }
{
    match name {
        "check" => Some(Command::Check { module_name }),
        "list" => Some(Command::List { module_name }),
        "seq" => seq_of(module_name, given),
        "live" => Some(live_of(module_name, given)),
        "run" => run_asked(module_name, given),
        "serve" => Some(Command::Serve(calls_of(module_name, given)?)),
        "draw" => draw_asked(module_name, given),
        "outcomes" => outcomes_of(module_name, given),
        "state" => Some(Command::State(run_of(module_name, given)?)),
        "verify" => Some(Command::Verify {
            module_name,
            record_name: given.record_name?,
        }),
        "order" => order_of(module_name, given),
        "explain" => explain_asked(module_name, given),
        "bound" => bound_of(module_name, given),
        _ => None,
    }
}

/// What is told of calls that are made one at a time.
fn seq_of<'a>(module_name: &'a str, given: &GivenWords<'a>) -> Option<Command<'a>>
    ensures { option_map request_of result ≡ seq_of module_name.entry.now (given_by given.now) }
{
    let calls = sequence_of(module_name, given)?;
    Some(Command::Seq(SeqCommand {
        calls,
        state: given.state,
        turns: given.turns,
    }))
}

/// Calls that are made as they come.
fn live_of<'a>(module_name: &'a str, given: &GivenWords<'a>) -> Command<'a>
    ensures { Some (request_of result) ≡ live_of module_name.entry.now (given_by given.now) }
{
    let from_name = given.from_name;
    Command::Live(CallsCommand {
        module_name,
        script_name: COMING_NAME,
        processes: SEQUENCE_PROCESSES,
        budget: turns_of(given),
        from_name,
    })
}

/// What is told of all runs, where what is given goes together.
fn outcomes_of<'a>(module_name: &'a str, given: &GivenWords<'a>) -> Option<Command<'a>>
    ensures { option_map request_of result ≡ outcomes_of module_name.entry.now (given_by given.now) }
{
    if !are_reached(given) {
        return None;
    }
    outcomes_by(module_name, given)
}

/// The same of all that may be given.
fn outcomes_by<'a>(module_name: &'a str, given: &GivenWords<'a>) -> Option<Command<'a>>
    ensures { option_map request_of result ≡ outcomes_by module_name.entry.now (given_by given.now) }
{
    let calls = calls_of(module_name, given)?;
    Some(Command::Outcomes(OutcomesCommand {
        calls,
        always: given.always,
        whole: given.whole,
        most: given.most.unwrap_or(DEFAULT_MOST_REACHED),
    }))
}

/// Whether the number of configurations is in its range, where it is given, and no name stands beside `--whole`.
fn are_reached(given: &GivenWords<'_>) -> bool
    ensures { result ≡ are_reached (given_by given.now) }
{
    is_most(given.most) && !(given.always.is_some() && given.whole)
}

/// By which schedule a run is made and what is told of it, of what is given behind `run`.
fn run_asked<'a>(module_name: &'a str, given: &GivenWords<'a>) -> Option<Command<'a>>
    ensures { option_map request_of result ≡ asked_by run_forms module_name.entry.now (given_by given.now) }
{
    if fits(given, &[Part::Seed], &[Part::Schedule]) {
        return chance_of(module_name, given);
    }
    if fits(given, &[Part::Finish], &[Part::Seed, Part::Length]) {
        return finished_of(module_name, given);
    }
    run_of_file_asked(module_name, given)
}

/// What is told of a run by the schedule of a file alone.
fn run_of_file_asked<'a>(module_name: &'a str, given: &GivenWords<'a>) -> Option<Command<'a>>
    ensures { option_map request_of result ≡ asked_by run_file_forms module_name.entry.now (given_by given.now) }
{
    if fits(
        given,
        &[Part::Tree],
        &[
            Part::Seed,
            Part::Length,
            Part::Finish,
            Part::Steps,
            Part::From,
        ],
    ) {
        return Some(Command::RunTree(run_of(module_name, given)?));
    }
    if fits(
        given,
        &[Part::Steps],
        &[Part::Seed, Part::Length, Part::Finish, Part::Tree],
    ) {
        return Some(Command::RunSteps(run_of(module_name, given)?));
    }
    if fits(
        given,
        &[],
        &[
            Part::Seed,
            Part::Length,
            Part::Finish,
            Part::Tree,
            Part::Steps,
        ],
    ) {
        return Some(Command::Run(run_of(module_name, given)?));
    }
    None
}

/// The run by a schedule of chance, where the number of its steps is one that there can be.
fn chance_of<'a>(module_name: &'a str, given: &GivenWords<'a>) -> Option<Command<'a>>
    ensures { option_map request_of result ≡ chance_of module_name.entry.now (given_by given.now) }
{
    if !is_length(given.length) {
        return None;
    }
    let product = product_of(given)?;
    let run = chance_by(module_name, given)?;
    Some(Command::RunByChance { product, run })
}

/// The same of any number of steps.
fn chance_by<'a>(module_name: &'a str, given: &GivenWords<'a>) -> Option<ChanceCommand<'a>>
    ensures { option_map chance_request_of result ≡ chance_by module_name.entry.now (given_by given.now) }
{
    let calls = calls_of(module_name, given)?;
    let seed = given.seed?;
    Some(ChanceCommand {
        calls,
        seed,
        steps: given.length.unwrap_or(DEFAULT_LENGTH),
        finish: given.finish,
    })
}

/// The run that goes on behind the schedule of a file until each call has ended.
fn finished_of<'a>(module_name: &'a str, given: &GivenWords<'a>) -> Option<Command<'a>>
    ensures { option_map request_of result ≡ finished_of module_name.entry.now (given_by given.now) }
{
    let product = product_of(given)?;
    let run = run_of(module_name, given)?;
    Some(Command::RunFinished { product, run })
}

/// What is printed of such a run.
fn product_of(given: &GivenWords<'_>) -> Option<RunProduct>
    ensures { result ≡ product_of (given_by given.now) }
{
    run_product(given.tree, given.steps, given.from_name.is_some())
}

/// The same of the words that say it: by the tree there are no own steps, and the run begins with the module's body.
fn run_product(tree: bool, steps: bool, from: bool) -> Option<RunProduct>
    ensures { result ≡ run_product tree steps from }
{
    match (tree, steps, from) {
        (true, false, false) => Some(RunProduct::TreeRecord),
        (true, false, true) => None,
        (true, true, _) => None,
        (false, true, _) => Some(RunProduct::RecordWithSteps),
        (false, false, _) => Some(RunProduct::Record),
    }
}

/// Whether a schedule by chance can have so many steps.
pub(crate) fn is_length(length: Option<u32>) -> bool
    ensures { result ≡ option_map_or is_length length true }
{
    match length {
        Some(length) => length <= GREATEST_LENGTH,
        None => true,
    }
}

/// What is to be drawn, of what is given behind `draw`.
fn draw_asked<'a>(module_name: &'a str, given: &GivenWords<'a>) -> Option<Command<'a>>
    ensures { option_map request_of result ≡ asked_by draw_forms module_name.entry.now (given_by given.now) }
{
    if fits(given, &[Part::Schedule], &[Part::Most]) {
        return picture_of(module_name, given);
    }
    if fits(
        given,
        &[],
        &[
            Part::Schedule,
            Part::Processes,
            Part::Budget,
            Part::Most,
            Part::From,
        ],
    ) {
        return record_picture_of(module_name, given);
    }
    if fits(given, &[], &[Part::Schedule, Part::Processes, Part::From]) {
        return history_picture_of(module_name, given);
    }
    None
}

/// The picture of a run.
fn picture_of<'a>(module_name: &'a str, given: &GivenWords<'a>) -> Option<Command<'a>>
    ensures { option_map request_of result ≡ picture_of module_name.entry.now (given_by given.now) }
{
    let calls = range_by(given.range)?;
    let run = run_of(module_name, given)?;
    Some(Command::Draw { run, calls })
}

/// The picture of a record, whose file stands in the place of a script.
fn record_picture_of<'a>(module_name: &'a str, given: &GivenWords<'a>) -> Option<Command<'a>>
    ensures { option_map request_of result ≡ record_picture_of module_name.entry.now (given_by given.now) }
{
    let calls = range_by(given.range)?;
    let record_name = given.script_name?;
    Some(Command::DrawRecord {
        module_name,
        record_name,
        calls,
    })
}

/// The picture of a history, whose file stands there too, where the numbers are in their ranges.
fn history_picture_of<'a>(module_name: &'a str, given: &GivenWords<'a>) -> Option<Command<'a>>
    ensures { option_map request_of result ≡ history_picture_of module_name.entry.now (given_by given.now) }
{
    if !are_seen(given) {
        return None;
    }
    let calls = range_by(given.range)?;
    history_picture_by(module_name, given, calls)
}

/// The picture of these calls.
fn history_picture_by<'a>(
    module_name: &'a str,
    given: &GivenWords<'a>,
    calls: Option<CallNumbers>,
) -> Option<Command<'a>>
    ensures { option_map request_of result ≡ history_picture_by module_name.entry.now (given_by given.now) calls }
{
    let history_name = given.script_name?;
    let budget = given.budget;
    let most = given.most.unwrap_or(DEFAULT_MOST);
    Some(Command::DrawHistory(SeenCommand {
        module_name,
        history_name,
        budget,
        most,
        calls,
    }))
}

/// The legal order of a history, where the numbers behind `order` are in their ranges.
fn order_of<'a>(module_name: &'a str, given: &GivenWords<'a>) -> Option<Command<'a>>
    ensures { option_map request_of result ≡ order_of module_name.entry.now (given_by given.now) }
{
    if !are_seen(given) {
        return None;
    }
    let product = product_by(given.as_record, given.argument)?;
    order_by(module_name, given, product)
}

/// What is printed of an order: a record of parts there is not.
fn product_by(as_record: bool, argument: Option<u16>) -> Option<OrderProduct>
    ensures { result ≡ product_by as_record argument }
{
    match (as_record, argument) {
        (false, None) => Some(OrderProduct::Line),
        (false, Some(place)) => Some(OrderProduct::Apart(place)),
        (true, None) => Some(OrderProduct::WholeRecord),
        (true, Some(_)) => None,
    }
}

/// The order of a history, of which that is printed.
fn order_by<'a>(
    module_name: &'a str,
    given: &GivenWords<'a>,
    product: OrderProduct,
) -> Option<Command<'a>>
    ensures { option_map request_of result ≡ order_by module_name.entry.now (given_by given.now) product }
{
    let history_name = given.history_name?;
    Some(Command::Order(OrderCommand {
        module_name,
        history_name,
        budget: given.budget,
        most: given.most.unwrap_or(DEFAULT_MOST),
        product,
    }))
}

/// Whether the numbers of a search for an order are in their ranges, where they are given.
fn are_seen(given: &GivenWords<'_>) -> bool
    ensures { result ≡ are_seen (given_by given.now) }
{
    is_seen_budget(given.budget) && is_most(given.most) && is_place(given.argument)
}

/// Whether calls can have had so many turns.
pub(crate) fn is_seen_budget(budget: Option<u32>) -> bool
    ensures { result ≡ option_map_or is_seen_budget budget true }
{
    match budget {
        Some(budget) => budget <= GREATEST_SEEN_BUDGET,
        None => true,
    }
}

/// Whether a search can be told to look at so many configurations.
pub(crate) fn is_most(most: Option<u32>) -> bool
    ensures { result ≡ option_map_or is_most most true }
{
    match most {
        Some(most) => 1 <= most && most <= GREATEST_MOST,
        None => true,
    }
}

/// Whether an argument can stand there.
pub(crate) fn is_place(place: Option<u16>) -> bool
    ensures { result ≡ option_map_or is_place place true }
{
    match place {
        Some(place) => 1 <= place && place <= GREATEST_PLACE,
        None => true,
    }
}

/// What is to be shown, of what is given behind `explain`.
fn explain_asked<'a>(module_name: &'a str, given: &GivenWords<'a>) -> Option<Command<'a>>
    ensures { option_map request_of result ≡ asked_by explain_forms module_name.entry.now (given_by given.now) }
{
    if fits(
        given,
        &[Part::Record],
        &[
            Part::History,
            Part::Script,
            Part::Processes,
            Part::Budget,
            Part::From,
            Part::Traps,
            Part::Always,
        ],
    ) {
        return Some(Command::ExplainRecord {
            module_name,
            record_name: given.record_name?,
        });
    }
    if fits(
        given,
        &[Part::Record, Part::Traps],
        &[
            Part::History,
            Part::Script,
            Part::Processes,
            Part::Budget,
            Part::From,
            Part::Always,
        ],
    ) {
        return Some(Command::ExplainRecordTraps {
            module_name,
            record_name: given.record_name?,
        });
    }
    explain_history_asked(module_name, given)
}

/// What is to be shown of a history, of all runs, or of a module alone, or with calls.
fn explain_history_asked<'a>(module_name: &'a str, given: &GivenWords<'a>) -> Option<Command<'a>>
    ensures { option_map request_of result ≡ asked_by explain_history_forms module_name.entry.now (given_by given.now) }
{
    if fits(
        given,
        &[Part::History],
        &[
            Part::Record,
            Part::Script,
            Part::Processes,
            Part::Budget,
            Part::From,
            Part::Traps,
            Part::Always,
        ],
    ) {
        return Some(Command::ExplainHistory {
            module_name,
            history_name: given.history_name?,
        });
    }
    explain_script_asked(module_name, given)
}

/// What is to be shown of all runs, or of a module alone, or with calls.
fn explain_script_asked<'a>(module_name: &'a str, given: &GivenWords<'a>) -> Option<Command<'a>>
    ensures { option_map request_of result ≡ asked_by explain_script_forms module_name.entry.now (given_by given.now) }
{
    if fits(
        given,
        &[Part::Always],
        &[Part::Record, Part::History, Part::Schedule, Part::Traps],
    ) {
        return always_of(module_name, given);
    }
    explain_calls_asked(module_name, given)
}

/// What is to be shown of all runs, in which a procedure is to answer TRUE always.
fn always_of<'a>(module_name: &'a str, given: &GivenWords<'a>) -> Option<Command<'a>>
    ensures { option_map request_of result ≡ always_of module_name.entry.now (given_by given.now) }
{
    let calls = calls_of(module_name, given)?;
    let name = given.always?;
    Some(Command::ExplainAlways(AlwaysCommand { calls, name }))
}

/// What is to be shown of a module alone or of a fault, or of a module with calls.
fn explain_calls_asked<'a>(module_name: &'a str, given: &GivenWords<'a>) -> Option<Command<'a>>
    ensures { option_map request_of result ≡ asked_by explain_calls_forms module_name.entry.now (given_by given.now) }
{
    if fits(
        given,
        &[Part::Traps],
        &[
            Part::Record,
            Part::History,
            Part::Always,
            Part::Schedule,
            Part::Processes,
        ],
    ) {
        return Some(Command::ExplainTraps(sequence_of(module_name, given)?));
    }
    if fits(
        given,
        &[Part::Schedule],
        &[Part::Record, Part::History, Part::Always, Part::Traps],
    ) {
        return Some(Command::ExplainRun(run_of(module_name, given)?));
    }
    if fits(
        given,
        &[Part::Script],
        &[
            Part::Record,
            Part::History,
            Part::Always,
            Part::Traps,
            Part::Schedule,
            Part::Processes,
        ],
    ) {
        return Some(Command::ExplainCalls(sequence_of(module_name, given)?));
    }
    if fits(
        given,
        &[],
        &[
            Part::Record,
            Part::History,
            Part::Always,
            Part::Traps,
            Part::Schedule,
            Part::Script,
            Part::Processes,
            Part::From,
        ],
    ) {
        return Some(explain_alone(module_name, given.budget));
    }
    None
}

/// What is to be shown of one name, with a budget or without: of a fault where it stands alone and is the name of one, else of a module.
fn explain_alone<'a>(name: &'a str, budget: Option<u32>) -> Command<'a>
    ensures { request_of result ≡ explain_alone name.entry.now budget }
{
    match budget {
        Some(budget) => Command::Explain {
            module_name: name,
            budget,
        },
        None if names_fault(name) => Command::ExplainFault { name },
        None => Command::Explain {
            module_name: name,
            budget: DEFAULT_BUDGET,
        },
    }
}

/// What is to be told of own steps.
fn bound_of<'a>(module_name: &'a str, given: &GivenWords<'a>) -> Option<Command<'a>>
    ensures { option_map request_of result ≡ bound_of module_name.entry.now (given_by given.now) }
{
    let processes = given.processes?;
    Some(Command::Bound {
        module_name,
        processes: usize::from(processes),
        budget: turns_of(given),
    })
}

/// The run of calls by a schedule.
fn run_of<'a>(module_name: &'a str, given: &GivenWords<'a>) -> Option<RunCommand<'a>>
    ensures { option_map run_request_of result ≡ run_of module_name.entry.now (given_by given.now) }
{
    let calls = calls_of(module_name, given)?;
    let schedule_name = given.schedule_name?;
    Some(RunCommand {
        calls,
        schedule_name,
    })
}

/// The calls of as many processes as are given.
fn calls_of<'a>(module_name: &'a str, given: &GivenWords<'a>) -> Option<CallsCommand<'a>>
    ensures { option_map calls_request_of result ≡ calls_of module_name.entry.now (given_by given.now) }
{
    let processes = given.processes?;
    calls_by(usize::from(processes), module_name, given)
}

/// The calls that are made one at a time.
fn sequence_of<'a>(module_name: &'a str, given: &GivenWords<'a>) -> Option<CallsCommand<'a>>
    ensures { option_map calls_request_of result ≡ sequence_of module_name.entry.now (given_by given.now) }
{
    calls_by(SEQUENCE_PROCESSES, module_name, given)
}

/// The calls of a script on a module, of so many processes.
fn calls_by<'a>(
    processes: usize,
    module_name: &'a str,
    given: &GivenWords<'a>,
) -> Option<CallsCommand<'a>>
    ensures { option_map calls_request_of result ≡ calls_by processes module_name.entry.now (given_by given.now) }
{
    let script_name = given.script_name?;
    Some(CallsCommand {
        module_name,
        script_name,
        processes,
        budget: turns_of(given),
        from_name: given.from_name,
    })
}

/// How many turns each call has.
fn turns_of(given: &GivenWords<'_>) -> u32
    ensures { result ≡ turns_of (given_by given.now) }
{
    given.budget.unwrap_or(DEFAULT_BUDGET)
}
