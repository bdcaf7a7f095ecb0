//! The program: checks, lists and runs a module of Oberon-0.
#![tactic(auto)]

ghost use Rattle.std.specs.Prelude.{◌≡◌, ◌≢◌, Err, IfErr, IfOk};
ghost use Rattle.ob_command.specs.Commands.{request_of};
ghost use Rattle.obl0.specs.Hints.{calls_told};
ghost use Rattle.obl0.specs.Refusals.{refusal_status};

mod files;
mod hint;
mod refusal;

use crossbeam_channel::{Receiver, RecvTimeoutError, Sender, unbounded};
use files::HostFiles;
use hint::{is_run, more_of};
use ob_answer::answer::{INPUT_NAME, answer};
use ob_answer::live_answer::answer_live;
use ob_answer_files::answered::Answer;
use ob_answer_files::file_reading::unreadable;
use ob_command::command::{CallsCommand, Command, read_command};
use ob_device::{Counted, emit};
use ob_fault_lines::count_lines::counts_line;
use ob_object_live::{Pipe, TalkFault};
use refusal::{Refusal, refusal_of_words};
use std::alloc::Global;
use std::io::{BufReader, IsTerminal};
use std::process::ExitCode;
use std::random::RandomSource;
use std::rt::{Env, Files};
use std::sync::Wait;
use std::thread::{JoinHandle, Threads};
use std::time::{Clock, Duration};
use std::{env, io, thread};

/// The bytes of stack that all the work is done on. The deepest calls that are interpreted, as `seq` and `verify` do, 64 activations of
/// at most 100 constructs within one another, take about a third of this. The system gives memory only to the part that is used.
const STACK: usize = 8 * 1024 * 1024;

/// How many seconds the work may take before a terminal is told that it goes on.
const PATIENCE: u64 = 1;

/// The command that answers calls as they come.
const LIVE: &str = "live";

/// What a terminal is told then.
const WORKING: &str = "working ..\n";

/// What came of the work: the answer, what the host said where it gave no bytes of a file, and how many calls the script makes, where one
/// was read.
#[derive(Drop)]
struct Outcome {
    answer: Answer,
    refusal: Option<io::ErrorKind>,
    calls: Option<usize>,
}

/// The work is done on a stack of its own, so that it doesn't matter how much the system grants for the first one. That thread
/// has the sender for as long as it works; this one tells of long work, and then prints the answer.
fn main(rt: HostRuntime) -> ExitCode {
    let Ok((working, done)) = unbounded(rt.alloc()) else {
        return ExitCode::from(told(&rt, Refusal::NoMemory));
    };
    let worker = thread::Builder::new()
        .stack_size(STACK)
        .spawn(&rt, move || work(&rt, working));
    let terminal = rt.stderr().is_terminal();
    if terminal && !reads_input(&rt) {
        tell_of_work(&rt, &done);
    }
    let outcome = joined(&rt, worker);
    ExitCode::from(end(&rt, terminal, outcome))
}

/// Tells more of an outcome, where there is more to tell.
fn tell_of_more<R: Eprint + Env + AllocGlobal>(rt: &R, outcome: &Outcome) {
    if let Ok(more) = more_told(rt, outcome) {
        let _ = rt.eprint(more.as_str());
    }
}

/// What more is told of an outcome, of the command that the words ask for.
fn more_told<R: Env + AllocGlobal>(rt: &R, outcome: &Outcome) -> Result<String, Refusal> {
    let alloc = rt.alloc();
    let given = given_words(rt)?;
    let words: Vec<&str> = given.iter().map(|word| word.as_str()).collect(alloc)?;
    let Ok(command) = read_command(alloc, words.as_slice()) else {
        return Ok(String::new(alloc));
    };
    if let Some(calls) = calls_of_run(command, outcome) {
        return Ok(counts_line(alloc, calls, outcome.answer.out.as_bytes())?);
    }
    let line = outcome.answer.err.as_str();
    let more = more_of(alloc, command, outcome.answer.status, line, outcome.refusal)?;
    Ok(more)
}

/// How many calls the script of a run makes whose record was printed.
fn calls_of_run(command: Command<'_>, outcome: &Outcome) -> Option<usize>
    ensures { result ≡ calls_told (request_of command.entry) outcome.now.answer.status outcome.now.calls }
{
    if is_run(command) && outcome.answer.status == 0 {
        outcome.calls
    } else {
        None
    }
}

/// The words behind the program's name.
fn given_words<R: Env + AllocGlobal>(rt: &R) -> Result<Vec<String>, Refusal> {
    let arguments = env::args(rt).map_err(refusal_of_words)?;
    let given: Vec<String> = arguments.skip(1).collect(rt.alloc())?;
    Ok(given)
}

/// Whether a word names standard input, or the command that reads calls from it: somebody may be typing there for as long as they like.
fn reads_input<R: Env + AllocGlobal>(rt: &R) -> bool {
    match env::args(rt) {
        Ok(mut words) => words.any(|word| word.as_str() == INPUT_NAME || word.as_str() == LIVE),
        Err(_) => false,
    }
}

/// Waits until the work is done or has taken its time, and then tells that it goes on.
fn tell_of_work<R: Eprint + Wait + Clock>(rt: &R, done: &Receiver<(), Global>) {
    let patience = Duration::from_secs(PATIENCE);
    if let Err(RecvTimeoutError::Timeout) = done.recv_timeout(rt, patience) {
        let _ = rt.eprint(WORKING);
    }
}

/// What came of the thread that does the work. One that can't be started is want of memory.
fn joined<R: Threads>(
    rt: &R,
    worker: io::Result<JoinHandle<Result<Outcome, Refusal>>>,
) -> Result<Outcome, Refusal>
    ensures { IfErr worker (λ _. result ≡ Err Refusal.NoMemory) }
{
    match worker {
        Ok(worker) => worker.join(rt),
        Err(_) => Err(Refusal::NoMemory),
    }
}

/// Prints the answer, with more of it at a terminal, or tells what the host refused, and gives the exit status.
fn end<R: Print + Eprint + Env + AllocGlobal>(
    rt: &R,
    terminal: bool,
    outcome: Result<Outcome, Refusal>,
) -> u8
    ensures { IfErr outcome (λ refusal. result ≡ refusal_status refusal) }
{
    match outcome {
        Ok(outcome) => match printed(rt, &outcome.answer) {
            Ok(status) => {
                if terminal {
                    tell_of_more(rt, &outcome);
                }
                status
            }
            Err(refusal) => told(rt, refusal),
        },
        Err(refusal) => told(rt, refusal),
    }
}

/// Tells a refusal, and gives the exit status.
fn told<R: Eprint>(rt: &R, refusal: Refusal) -> u8
    ensures { result ≡ refusal_status refusal }
{
    let _ = rt.eprint(refusal.line());
    refusal.status()
}

/// What comes of the words of the command line. Whoever waits for the work has no more to tell where the sender is gone.
fn work<R: Env + Files + Input + Print + AllocGlobal + Threads + Wait + Sync + RandomSource>(
    rt: &R,
    working: Sender<(), Global>,
) -> Result<Outcome, Refusal> {
    let outcome = answered(rt);
    drop(working);
    outcome
}

/// What comes of the words of the command line.
fn answered<R: Env + Files + Input + Print + AllocGlobal + Threads + Wait + Sync + RandomSource>(
    rt: &R,
) -> Result<Outcome, Refusal> {
    let given = given_words(rt)?;
    let words: Vec<&str> = given.iter().map(|word| word.as_str()).collect(rt.alloc())?;
    obeyed(rt, words.as_slice())
}

/// What comes of words.
fn obeyed<R: Files + Input + Print + AllocGlobal + Threads + Wait + Sync + RandomSource>(
    rt: &R,
    words: &[&str],
) -> Result<Outcome, Refusal>
    // Want of memory is never told as a mistake in the words.
    ensures { IfErr result (λ refusal. refusal ≢ Refusal.Words) }
{
    if words.first().copied() == Some(LIVE) {
        if let Ok(Command::Live(calls)) = read_command(rt.alloc(), &*words) {
            return lived(rt, calls);
        }
    }
    let mut files = HostFiles {
        rt,
        refusal: None,
        counts: words.first().copied() == Some("run"),
        calls: None,
    };
    let answer = answer(rt, words, &mut files)?;
    Ok(Outcome {
        answer,
        refusal: files.refusal,
        calls: files.calls,
    })
}

/// What comes of calls that are answered as they come. They are answered here, so that of them nothing is left to print.
fn lived<R: Files + Input + Print + AllocGlobal>(
    rt: &R,
    calls: CallsCommand<'_>,
) -> Result<Outcome, Refusal>
    ensures { IfErr result (λ refusal. refusal ≢ Refusal.Words) }
{
    let alloc = rt.alloc();
    let mut files = HostFiles {
        rt,
        refusal: None,
        counts: false,
        calls: None,
    };
    let Ok(reader) = BufReader::new(alloc, rt.reader()) else {
        return Err(Refusal::NoMemory);
    };
    let mut pipe = Pipe {
        reader,
        writer: io::writer(rt),
    };
    let answer = match answer_live(alloc, calls, &mut files, &mut pipe) {
        Ok(answer) => answer,
        Err(TalkFault::Input(kind)) => {
            files.refusal = Some(kind);
            unreadable(alloc, INPUT_NAME)?
        }
        Err(TalkFault::Output) => return Err(Refusal::Output),
        Err(TalkFault::NoMemory) => return Err(Refusal::NoMemory),
    };
    Ok(Outcome {
        answer,
        refusal: files.refusal,
        calls: None,
    })
}

/// Prints an answer, and gives its exit status.
fn printed<R: Print + Eprint>(rt: &R, answer: &Answer) -> Result<u8, Refusal>
    ensures status { IfOk result (λ status. status ≡ answer.now.status) }

    // It is refused by standard output alone: what standard error refuses is passed over.
    ensures refusal { IfErr result (λ refusal. refusal ≡ Refusal.Output) }
{
    let mut output = Counted::new(io::writer(rt));
    emit(&mut output, answer.out.as_bytes()).map_err(|_| Refusal::Output)?;
    let _ = rt.eprint(answer.err.as_str());
    Ok(answer.status)
}
