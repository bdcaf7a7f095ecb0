//! What a terminal is told behind a fault.

ghost use Rattle.std.specs.Prelude.{◌≡◌, ◌++◌, IfOk, OnOk, option_map, string_bytes};
ghost use Rattle.std.specs.List.{after_first, before_first, list_all};
ghost use Rattle.obl0.specs.Hints.{always_form, is_far, of_outcomes, outcomes_form};
ghost use Rattle.obl0.specs.Hints.{asks_of_fault, beside, beside_texts, budget_words, calls_form, cause, count_words, drawn_form, either_form};
ghost use Rattle.obl0.specs.Hints.{first_place, form_about, from_words, history_form, illegal_end, is_apart, is_blank, is_explain, is_explained, is_fault};
ghost use Rattle.obl0.specs.Hints.{is_fault_name, is_of_search, is_of_text, is_plain, is_plain_byte, is_plain_search, is_run, made_form, module_form};
ghost use Rattle.obl0.specs.Hints.{module_words, more_about, more_about_unread, more_of, name_word, named, of_order, of_picture, option_words};
ghost use Rattle.obl0.specs.Hints.{order_form, record_form, run_form, run_words, script_words, search_form, seen_form, served, third_word, told_of};
ghost use Rattle.obl0.specs.Hints.{tree_form};
ghost use Rattle.ob_command.specs.Commands.{calls_request_of, order_request_of, outcomes_request_of, request_of, run_request_of, seen_request_of};

use ob_command::command::{
    CallsCommand, Command, OrderCommand, OrderProduct, OutcomesCommand, RunCommand, RunProduct,
    SeenCommand,
};
use ob_text_words::numbers::push_number;
use std::alloc::{AllocError, Global};
use std::io;

/// The exit status of a fault with a number.
const FAULT: u8 = 1;

/// How many turns each call has where nothing is said of them.
const DEFAULT_BUDGET: u32 = 100_000;

/// How many configurations a search looks at where nothing is said of them.
const DEFAULT_MOST: u32 = 10_000_000;

/// The same of all runs.
const DEFAULT_MOST_REACHED: u32 = 1_000_000;

/// A schedule with no items.
const NO_ITEMS: &str = "/dev/null";

/// As what `draw` reads its second file where there is no third one, up to what tells more of it.
const WITHOUT_SCHEDULE: &str =
    "without a SCHEDULE the second file is read as a record, or as a history where it lacks the title or the \
    order of a record, and of that ";

/// What is told of a search that ended before its end.
const MOST_LOOKED_AT: &str = "--most says how many configurations are looked at\n";

/// What stands behind words that tell more.
const TELLING: &str = "` tells more\n";

/// Whether an exit status is that of a fault with a number.
fn is_fault(status: u8) -> bool
    ensures { result ≡ is_fault status }
{
    status == FAULT
}

/// What is told behind an answer to a command with this exit status and this line, and where the host gave no bytes of a file.
pub fn more_of(
    alloc: Global,
    command: Command<'_>,
    status: u8,
    line: &str,
    refusal: Option<io::ErrorKind>,
) -> Result<String, AllocError>
    ensures { IfOk result (λ text. string_bytes text ≡ more_of (request_of command.entry) status line.now refusal) }
{
    match refusal {
        Some(kind) => String::from_str(alloc, more_about_unread(command, kind)),
        None if is_fault(status) => more_about(alloc, command, line),
        None => Ok(String::new(alloc)),
    }
}

/// What is told behind the line of a fault of a command.
fn more_about(alloc: Global, command: Command<'_>, line: &str) -> Result<String, AllocError>
    ensures { IfOk result (λ text. string_bytes text ≡ more_about (request_of command.entry) line.now) }
{
    if is_explain(command) {
        return Ok(String::new(alloc));
    }
    told_of(alloc, command, line)
}

/// What is told of a fault: which calls there are, what a number of the command line may be, or which form of `explain` tells more.
fn told_of(alloc: Global, command: Command<'_>, line: &str) -> Result<String, AllocError>
    ensures { IfOk result (λ text. string_bytes text ≡ told_of (request_of command.entry) line.now) }
{
    let bytes = line.as_bytes();
    if bytes.starts_with(b"I1") {
        return first_place(alloc, third_word(line));
    }
    match beside(command, bytes) {
        Some(text) => String::from_str(alloc, text),
        None => form_about(alloc, command, bytes),
    }
}

/// What is told of a fault of a command that is one of no text.
fn beside(command: Command<'_>, line: &[u8]) -> Option<&'static str>
    ensures { option_map (λ text. text.now) result ≡ beside (request_of command.entry) line.now }
{
    match command {
        Command::Order(_) => of_order(line),
        Command::DrawRecord { .. } | Command::DrawHistory(_) => of_picture(line),
        Command::Outcomes(_) => of_outcomes(line),
        _ => beside_texts(line),
    }
}

/// What is told so of a fault of all runs.
fn of_outcomes(line: &[u8]) -> Option<&'static str>
    ensures { option_map (λ text. text.now) result ≡ of_outcomes line.now }
{
    if is_of_search(line) {
        Some(MOST_LOOKED_AT)
    } else {
        beside_texts(line)
    }
}

/// What is told so of a fault of a picture of what was seen.
fn of_picture(line: &[u8]) -> Option<&'static str>
    ensures { option_map (λ text. text.now) result ≡ of_picture line.now }
{
    if line.starts_with(b"N1") {
        Some("a picture has processes 0 to 15\n")
    } else if is_of_search(line) {
        Some(MOST_LOOKED_AT)
    } else {
        beside_texts(line)
    }
}

/// Whether a search ended before its end.
fn is_of_search(line: &[u8]) -> bool
    ensures { result ≡ is_of_search line.now }
{
    line.starts_with(b"X2")
}

/// What is told so of a fault of `order`.
fn of_order(line: &[u8]) -> Option<&'static str>
    ensures { option_map (λ text. text.now) result ≡ of_order line.now }
{
    if line.starts_with(b"N1") {
        Some("a record has processes 0 to 15; without --record there may be others\n")
    } else if is_of_search(line) {
        Some(MOST_LOOKED_AT)
    } else if line.starts_with(b"X4") {
        Some("behind --by stands an argument that each call of the history has\n")
    } else {
        None
    }
}

/// Whether a command prints the record of a run by a schedule.
pub fn is_run(command: Command<'_>) -> bool
    ensures { result ≡ is_run (request_of command.entry) }
{
    matches!(
        command,
        Command::Run(_)
            | Command::RunTree(_)
            | Command::RunSteps(_)
            | Command::RunFinished { .. }
            | Command::RunByChance { .. }
    )
}

/// Whether a command shows its faults to people itself.
fn is_explain(command: Command<'_>) -> bool
    ensures { result ≡ is_explain (request_of command.entry) }
{
    matches!(
        command,
        Command::Explain { .. }
            | Command::ExplainFault { .. }
            | Command::ExplainCalls(_)
            | Command::ExplainTraps(_)
            | Command::ExplainRun(_)
            | Command::ExplainAlways(_)
            | Command::ExplainRecord { .. }
            | Command::ExplainRecordTraps { .. }
            | Command::ExplainHistory { .. }
    )
}

/// How many calls there are, by the line of a fault that says it.
fn third_word(line: &str) -> &str
    ensures { result.now ≡ third_word line.now }
{
    before_blank(behind_blank(behind_blank(line)))
}

/// What stands before the first blank of a text; all where there is none.
fn before_blank(text: &str) -> &str
    ensures { result.now ≡ before_first is_blank text.now }
{
    match text.split_once(' ') {
        Some((before, _)) => before,
        None => text,
    }
}

/// What stands behind the first blank of a text; nothing where there is none.
fn behind_blank(text: &str) -> &str
    ensures { result.now ≡ after_first is_blank text.now }
{
    match text.split_once(' ') {
        Some((_, behind)) => behind,
        None => "",
    }
}

/// Between which places the first call of a picture is, by how many calls there are.
fn first_place(alloc: Global, count: &str) -> Result<String, AllocError>
    ensures { IfOk result (λ text. string_bytes text ≡ first_place count.now) }
{
    if count == "0" {
        return String::from_str(
            alloc,
            "no call begins, so there is none for --calls to name\n",
        );
    }
    let mut text = String::from_str(alloc, "behind --calls stands FROM-TO, and FROM is 1 to ")?;
    text.push_str(count)?;
    text.push_str(" here\n")?;
    Ok(text)
}

/// What is told so of a fault of any other command.
fn beside_texts(line: &[u8]) -> Option<&'static str>
    ensures { option_map (λ text. text.now) result ≡ beside_texts line.now }
{
    if line.starts_with(b"N1") {
        Some("behind -n stands how many processes there are, 1 to 16\n")
    } else if line.starts_with(b"N3") {
        Some("behind -b stands how many turns each call has, 0 to 1000000\n")
    } else if line.starts_with(b"I2") {
        Some("a picture shows at most 400 calls; --calls FROM-TO says which ones\n")
    } else if line.starts_with(b"V") || line.starts_with(b"K") {
        Some("")
    } else {
        None
    }
}

/// Which form of `explain` tells more of the fault of a command with this line; nothing behind `explain` itself.
fn form_about(alloc: Global, command: Command<'_>, line: &[u8]) -> Result<String, AllocError>
    ensures { IfOk result (λ text. string_bytes text ≡ form_about (request_of command.entry) line.now) }
{
    match command {
        Command::Check { module_name } => module_form(alloc, module_name),
        Command::List { module_name } => module_form(alloc, module_name),
        Command::Bound { module_name, .. } => module_form(alloc, module_name),
        Command::Seq(sequence) => calls_form(alloc, sequence.calls),
        Command::Live(calls) => module_form(alloc, calls.module_name),
        Command::Run(run) => run_form(alloc, run),
        Command::RunTree(run) => tree_form(alloc, run, line),
        Command::RunSteps(run) => run_form(alloc, run),
        Command::RunFinished { product, run } => made_form(alloc, product, run, line),
        Command::RunByChance { product, run } => {
            made_form(alloc, product, served(run.calls), line)
        }
        Command::Draw { run, .. } => run_form(alloc, run),
        Command::State(run) => run_form(alloc, run),
        Command::Serve(calls) => run_form(alloc, served(calls)),
        Command::Outcomes(outcomes) => outcomes_form(alloc, outcomes, line),
        Command::DrawRecord {
            module_name,
            record_name,
            ..
        } => drawn_form(alloc, module_name, record_name, line),
        Command::DrawHistory(seen) => seen_form(alloc, seen, line),
        Command::Verify {
            module_name,
            record_name,
        } => record_form(alloc, module_name, record_name),
        Command::Order(order) => order_form(alloc, order, line),
        Command::Explain { .. }
        | Command::ExplainFault { .. }
        | Command::ExplainCalls(_)
        | Command::ExplainTraps(_)
        | Command::ExplainRun(_)
        | Command::ExplainAlways(_)
        | Command::ExplainRecord { .. }
        | Command::ExplainRecordTraps { .. }
        | Command::ExplainHistory { .. } => Ok(String::new(alloc)),
    }
}

/// The form of a run whose schedule is made.
fn made_form(
    alloc: Global,
    product: RunProduct,
    run: RunCommand<'_>,
    line: &[u8],
) -> Result<String, AllocError>
    ensures { IfOk result (λ text. string_bytes text ≡ made_form product (run_request_of run.entry) line.now) }
{
    match product {
        RunProduct::TreeRecord => tree_form(alloc, run, line),
        RunProduct::Record | RunProduct::RecordWithSteps => run_form(alloc, run),
    }
}

/// The run by a schedule with no items as which calls that workers make are explained.
fn served<'a>(calls: CallsCommand<'a>) -> RunCommand<'a>
    ensures { run_request_of result ≡ served (calls_request_of calls.entry) }
{
    RunCommand {
        calls,
        schedule_name: NO_ITEMS,
    }
}

fn module_form(alloc: Global, module_name: &str) -> Result<String, AllocError>
    ensures { IfOk result (λ text. string_bytes text ≡ module_form module_name.now) }
{
    let mut text = module_words(alloc, module_name)?;
    text.push_str(TELLING)?;
    Ok(text)
}

/// The form that tells more of a search for an order, or else what is told of the end of a call.
fn order_form(alloc: Global, order: OrderCommand<'_>, line: &[u8]) -> Result<String, AllocError>
    ensures { IfOk result (λ text. string_bytes text ≡ order_form (order_request_of order.entry) line.now) }
{
    if !is_of_text(line) {
        return search_form(alloc, order, line);
    }
    module_form(alloc, order.module_name)
}

/// The same of any other fault of it.
fn search_form(alloc: Global, order: OrderCommand<'_>, line: &[u8]) -> Result<String, AllocError>
    ensures { IfOk result (λ text. string_bytes text ≡ search_form (order_request_of order.entry) line.now) }
{
    if is_explained(order) {
        history_form(alloc, order.module_name, order.history_name)
    } else {
        String::from_str(alloc, illegal_end(line))
    }
}

/// The form that tells more of all runs: with the name of an export that is to answer TRUE always, or else as of calls that workers make.
fn outcomes_form(
    alloc: Global,
    outcomes: OutcomesCommand<'_>,
    line: &[u8],
) -> Result<String, AllocError>
    ensures { IfOk result (λ text. string_bytes text ≡ outcomes_form (outcomes_request_of outcomes.entry) line.now) }
{
    match outcomes.always {
        None => run_form(alloc, served(outcomes.calls)),
        Some(name) => match is_far(outcomes, line) {
            true => Ok(String::new(alloc)),
            false => always_form(alloc, outcomes.calls, name),
        },
    }
}

/// Whether `explain` does not look so far.
fn is_far(outcomes: OutcomesCommand<'_>, line: &[u8]) -> bool
    ensures { result ≡ is_far (outcomes_request_of outcomes.entry) line.now }
{
    line.starts_with(b"X3") && outcomes.most > DEFAULT_MOST_REACHED
}

fn always_form(alloc: Global, calls: CallsCommand<'_>, name: &str) -> Result<String, AllocError>
    ensures { IfOk result (λ text. string_bytes text ≡ always_form (calls_request_of calls.entry) name.now) }
{
    let mut text = script_words(alloc, calls)?;
    push_count(&mut text, calls.processes)?;
    text.push_str(" --always")?;
    push_name(&mut text, "NAME", name)?;
    push_options(&mut text, calls)?;
    text.push_str(TELLING)?;
    Ok(text)
}

/// The form that tells more of a history that is drawn.
fn seen_form(alloc: Global, seen: SeenCommand<'_>, line: &[u8]) -> Result<String, AllocError>
    ensures { IfOk result (λ text. string_bytes text ≡ seen_form (seen_request_of seen.entry) line.now) }
{
    match (is_of_text(line), is_plain_search(seen.budget, seen.most)) {
        (true, _) => module_form(alloc, seen.module_name),
        (false, true) => history_form(alloc, seen.module_name, seen.history_name),
        (false, false) => Ok(String::new(alloc)),
    }
}

/// Whether `explain` looks for the same order, and not for those of parts.
fn is_explained(order: OrderCommand<'_>) -> bool
    ensures { result ≡ is_explained (order_request_of order.entry) }
{
    is_plain_search(order.budget, order.most) && !is_apart(order.product)
}

/// Whether `explain` makes such a search too, or a longer one.
fn is_plain_search(budget: Option<u32>, most: u32) -> bool
    ensures { result ≡ is_plain_search budget most }
{
    budget.is_none() && most <= DEFAULT_MOST
}

fn is_apart(product: OrderProduct) -> bool
    ensures { result ≡ is_apart product }
{
    match product {
        OrderProduct::Apart(_) => true,
        OrderProduct::Line | OrderProduct::WholeRecord => false,
    }
}

fn history_form(alloc: Global, module_name: &str, history_name: &str) -> Result<String, AllocError>
    ensures { IfOk result (λ text. string_bytes text ≡ history_form module_name.now history_name.now) }
{
    let mut text = module_words(alloc, module_name)?;
    text.push_str(" --history")?;
    push_name(&mut text, "HISTORY", history_name)?;
    text.push_str(TELLING)?;
    Ok(text)
}

/// What is told of the end of a call that makes a history illegal, where no form of `explain` tells more.
fn illegal_end(line: &[u8]) -> &'static str
    ensures { result.now ≡ illegal_end line.now }
{
    if line.starts_with(b"X1") {
        "up to the end of this call no order of the calls gives these replies\n"
    } else {
        ""
    }
}

fn calls_form(alloc: Global, calls: CallsCommand<'_>) -> Result<String, AllocError>
    ensures { IfOk result (λ text. string_bytes text ≡ calls_form (calls_request_of calls.entry)) }
{
    let mut text = script_words(alloc, calls)?;
    push_options(&mut text, calls)?;
    text.push_str(TELLING)?;
    Ok(text)
}

fn run_form(alloc: Global, run: RunCommand<'_>) -> Result<String, AllocError>
    ensures { IfOk result (λ text. string_bytes text ≡ run_form (run_request_of run.entry)) }
{
    let mut text = run_words(alloc, run)?;
    push_options(&mut text, run.calls)?;
    text.push_str(TELLING)?;
    Ok(text)
}

fn record_form(alloc: Global, module_name: &str, record_name: &str) -> Result<String, AllocError>
    ensures { IfOk result (λ text. string_bytes text ≡ record_form module_name.now record_name.now) }
{
    let mut text = module_words(alloc, module_name)?;
    text.push_str(" --record")?;
    push_name(&mut text, "RECORD", record_name)?;
    text.push_str(TELLING)?;
    Ok(text)
}

/// The form that tells more of the module's text, or of what was seen of its object and is drawn.
fn drawn_form(
    alloc: Global,
    module_name: &str,
    seen_name: &str,
    line: &[u8],
) -> Result<String, AllocError>
    ensures { IfOk result (λ text. string_bytes text ≡ drawn_form module_name.now seen_name.now line.now) }
{
    match is_of_text(line) {
        true => module_form(alloc, module_name),
        false => either_form(alloc, module_name, seen_name),
    }
}

/// The forms that tell more of a record and of a history: as one of them a file was read.
fn either_form(alloc: Global, module_name: &str, seen_name: &str) -> Result<String, AllocError>
    ensures { IfOk result (λ text. string_bytes text ≡ either_form module_name.now seen_name.now) }
{
    let history = history_form(alloc, module_name, seen_name)?;
    let mut text = record_form(alloc, module_name, seen_name)?;
    text.push_str(WITHOUT_SCHEDULE)?;
    text.push_str(history.as_str())?;
    Ok(text)
}

/// The form of a run that was made by the tree, where `explain`, which makes the module's code, tells the same fault in any case.
fn tree_form(alloc: Global, run: RunCommand<'_>, line: &[u8]) -> Result<String, AllocError>
    ensures { IfOk result (λ text. string_bytes text ≡ tree_form (run_request_of run.entry) line.now) }
{
    if is_of_text(line) {
        run_form(alloc, run)
    } else {
        Ok(String::new(alloc))
    }
}

/// Whether a fault is one of the module's text.
fn is_of_text(line: &[u8]) -> bool
    ensures { result ≡ is_of_text line.now }
{
    line.starts_with(b"S") || line.starts_with(b"P") || line.starts_with(b"C")
}

/// `explain` of a module.
fn module_words(alloc: Global, module_name: &str) -> Result<String, AllocError>
    ensures { IfOk result (λ text. string_bytes text ≡ module_words module_name.now) }
{
    let mut text = String::from_str(alloc, "`obl0 explain")?;
    push_name(&mut text, "MODULE", module_name)?;
    Ok(text)
}

/// `explain` of a module and a script.
fn script_words(alloc: Global, calls: CallsCommand<'_>) -> Result<String, AllocError>
    ensures { IfOk result (λ text. string_bytes text ≡ script_words (calls_request_of calls.entry)) }
{
    let mut text = module_words(alloc, calls.module_name)?;
    push_name(&mut text, "SCRIPT", calls.script_name)?;
    Ok(text)
}

/// `explain` of a run.
fn run_words(alloc: Global, run: RunCommand<'_>) -> Result<String, AllocError>
    ensures { IfOk result (λ text. string_bytes text ≡ run_words (run_request_of run.entry)) }
{
    let mut text = script_words(alloc, run.calls)?;
    push_name(&mut text, "SCHEDULE", run.schedule_name)?;
    push_count(&mut text, run.calls.processes)?;
    Ok(text)
}

/// Appends the options behind the names of files.
fn push_options(text: &mut String, calls: CallsCommand<'_>) -> Result<(), AllocError>
    ensures { OnOk result (string_bytes text.new ≡ string_bytes text.old ++ option_words (calls_request_of calls.entry)) }
{
    push_budget(text, calls.budget)?;
    push_from(text, calls.from_name)
}

/// Appends the record with whose values an object begins behind its option, where one is named.
fn push_from(text: &mut String, from_name: Option<&str>) -> Result<(), AllocError>
    ensures { OnOk result (string_bytes text.new ≡ string_bytes text.old ++ from_words (option_map (λ name. name.now) from_name.entry)) }
{
    match from_name {
        Some(name) => {
            text.push_str(" --from")?;
            push_name(text, "RECORD", name)
        }
        None => Ok(()),
    }
}

/// Appends the name of a file as a word.
fn push_name(text: &mut String, what: &str, name: &str) -> Result<(), AllocError>
    ensures { OnOk result (string_bytes text.new ≡ string_bytes text.old ++ name_word what.now name.now) }
{
    text.push_str(" ")?;
    text.push_str(named(what, name))?;
    Ok(())
}

/// Appends a number of processes behind its option.
fn push_count(text: &mut String, processes: usize) -> Result<(), AllocError>
    ensures { OnOk result (string_bytes text.new ≡ string_bytes text.old ++ count_words processes) }
{
    text.push_str(" -n ")?;
    push_number(text, processes)?;
    Ok(())
}

/// Appends a budget behind its option, where it is not the one that there is where nothing is said of it.
fn push_budget(text: &mut String, budget: u32) -> Result<(), AllocError>
    ensures { OnOk result (string_bytes text.new ≡ string_bytes text.old ++ budget_words budget) }
{
    if budget == DEFAULT_BUDGET {
        return Ok(());
    }
    text.push_str(" -b ")?;
    push_number(text, budget)?;
    Ok(())
}

/// The name of a file, or in place of one that is not plain what the file is.
fn named<'a>(what: &'a str, name: &'a str) -> &'a str
    ensures { result.now ≡ named what.now name.now }
{
    if is_plain(name) { name } else { what }
}

/// Whether the name of a file can be typed again as it is.
fn is_plain(name: &str) -> bool
    ensures { result ≡ is_plain name.now }
{
    match name.as_bytes() {
        [] => false,
        [first, rest @ ..] => *first != b'-' && is_plain_byte(*first) && are_plain(rest),
    }
}

fn are_plain(bytes: &[u8]) -> bool
    ensures { result ≡ list_all is_plain_byte bytes.now }
{
    bytes.iter().all(|byte| is_plain_byte(*byte))
}

/// Whether a character is a letter, a digit, or one of `-`, `.`, `/` and `_`.
fn is_plain_byte(byte: u8) -> bool
    ensures { result ≡ is_plain_byte byte }
{
    byte.is_ascii_alphanumeric() || matches!(byte, b'-' | b'.' | b'/' | b'_')
}

/// What is told behind the line that a file of a command can't be read, by what the host said.
fn more_about_unread(command: Command<'_>, kind: io::ErrorKind) -> &'static str
    ensures { result.now ≡ more_about_unread (request_of command.entry) kind }
{
    if asks_of_fault(command) {
        return "`explain` takes the file of a module, as `obl0 explain a.mod`; docs/FAULTS.md tells what a fault means\n";
    }
    cause(kind)
}

/// Whether a command is `explain` of the number of a fault.
fn asks_of_fault(command: Command<'_>) -> bool
    ensures { result ≡ asks_of_fault (request_of command.entry) }
{
    match command {
        Command::Explain { module_name, .. } => is_fault_name(module_name),
        _ => false,
    }
}

/// Whether a name is the number of a fault: a capital letter and a digit, or two.
fn is_fault_name(name: &str) -> bool
    ensures { result ≡ is_fault_name name.now }
{
    match name.as_bytes() {
        [letter, digit] => letter.is_ascii_uppercase() && digit.is_ascii_digit(),
        [letter, ten, digit] => {
            letter.is_ascii_uppercase() && ten.is_ascii_digit() && digit.is_ascii_digit()
        }
        _ => false,
    }
}

/// Why the host gives no bytes of a file.
fn cause(kind: io::ErrorKind) -> &'static str
    ensures { result.now ≡ cause kind }
{
    match kind {
        io::ErrorKind::NotFound => "there is no file of this name\n",
        io::ErrorKind::NotADirectory => {
            "there is no file of this name: what stands before a / is no folder\n"
        }
        io::ErrorKind::IsADirectory => "it is a folder\n",
        io::ErrorKind::PermissionDenied => "you may not read it\n",
        _ => "",
    }
}
