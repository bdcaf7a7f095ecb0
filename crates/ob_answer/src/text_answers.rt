//! Answers made of the bytes of files. Of a module's text they have the beginning: a module of more bytes is too long.

ghost use Rattle.std.specs.Prelude.{◌≡◌, ◌≢◌, ◌++◌, false, IfOk, codes};
ghost use Rattle.ob_answer.specs.Answers.{IsBoundAnswer, IsCheckAnswer, IsListAnswer, IsPictureAnswer, IsRecordAnswer, IsRecordPictureAnswer, IsSeenPictureAnswer};
ghost use Rattle.ob_answer.specs.Answers.{IsSeqAnswer, IsServeAnswer, IsStateAnswer, IsStepsAnswer, IsToldAnswer, IsTreeRecordAnswer};
ghost use Rattle.ob_answer.specs.Answers.{IsVerifyAnswer};
ghost use Rattle.ob_answer_files.specs.Reads.{OfWhole};
ghost use Rattle.ob_answer_explained.specs.CommandTexts.{of_text, texts_of_text};
ghost use Rattle.ob_answer_files.specs.Printed.{IsRefused};
ghost use Rattle.ob_fault_lines.specs.CompileFaultLines.{compile_line};
ghost use Rattle.ob_fault_lines.specs.DrawFaultLines.{draw_fault_line, draw_record_fault_line};
ghost use Rattle.ob_fault_lines.specs.RunFaultLines.{run_fault_line};
ghost use Rattle.ob_fault_lines.specs.SequentialFaultLines.{seq_fault_line};
ghost use Rattle.ob_fault_lines.specs.ServeFaultLines.{serve_fault_line};
ghost use Rattle.ob_fault_lines.specs.VerifyFaultLines.{verify_fault_line};
ghost use Rattle.ob_object_compile.specs.Asked.{ByBody};
ghost use Rattle.ob_object_compile.specs.Compilation as Compiles;
ghost use Rattle.ob_object_compile.specs.View.{asked_of, beginning_of};
ghost use Rattle.ob_object_perform.specs.Performance as Performs;
ghost use Rattle.ob_object_perform.specs.Texts.{texts_of};
ghost use Rattle.ob_object_calls.specs.SequentialRun.{is_want_of_memory};

use ob_answer_files::answered::{Answer, refused};
use ob_answer_searches::history_drawing::{HistoryDrawing, answer_draw_history};
use ob_desk_serve::{ServeTextFault, serve_text};
use ob_fault_lines::compile_faults::compile_fault_line;
use ob_fault_lines::draw_faults::{draw_fault_line, draw_record_fault_line};
use ob_fault_lines::run_faults::run_fault_line;
use ob_fault_lines::sequential_faults::seq_fault_line;
use ob_fault_lines::serve_faults::serve_fault_line;
use ob_fault_lines::verify_faults::verify_fault_line;
use ob_interface::NoMemory;
use ob_object_calls::{
    Details, SeqTextFault, VerifyFault, check_text, seq_asked, seq_asked_told, verify_text,
};
use ob_object_compile::{Asked, Beginning, CompileFault, list_text};
use ob_object_draw::{DrawRecordFault, draw_record_text, is_record_form};
use ob_object_perform::{
    DrawFault, PerformFault, Texts, bound_text, draw_text, run_text, run_text_with_steps,
    run_tree_text, state_text,
};
use ob_picture_chart::CallRange;
use std::alloc::Global;
use std::random::RandomSource;
use std::sync::Wait;
use std::thread::Threads;

/// How many configurations are looked at where nothing is said of it.
const DEFAULT_MOST: u32 = 10_000_000;

/// The answer of `check` to the beginning of a module's text.
pub fn answer_check(alloc: Global, module: &[u8]) -> Result<Answer, NoMemory>
    ensures { IfOk result (OfWhole «module».now IsCheckAnswer) }
{
    match check_text(alloc, module) {
        Ok(()) => Ok(Answer::printed(alloc, String::from_str(alloc, "ok\n")?)),
        Err(fault) => compile_refused(alloc, fault),
    }
}

/// The answer of `list` to the beginning of a module's text.
pub(crate) fn answer_list(alloc: Global, module: &[u8]) -> Result<Answer, NoMemory>
    ensures { IfOk result (OfWhole «module».now IsListAnswer) }
{
    match list_text(alloc, module) {
        Ok(lines) => Ok(Answer::printed(alloc, lines)),
        Err(fault) => compile_refused(alloc, fault),
    }
}

/// The answer of `bound` to the beginning of a module's text, of an object of so many processes whose calls have the budget of turns
/// each.
pub(crate) fn answer_bound(
    alloc: Global,
    module: &[u8],
    processes: usize,
    budget: u32,
) -> Result<Answer, NoMemory>
    ensures { IfOk result (OfWhole «module».now (λ whole. IsBoundAnswer whole processes budget)) }
{
    match bound_text(alloc, module, processes, u64::from(budget)) {
        Ok(lines) => Ok(Answer::printed(alloc, lines)),
        Err(fault) => compile_refused(alloc, fault),
    }
}

/// The answer to a fault of a module by itself.
fn compile_refused(alloc: Global, fault: CompileFault) -> Result<Answer, NoMemory>
    ensures fault { IfOk result (λ a. IsRefused a 1 (compile_line ByBody fault ++ codes "\n")) }
    ensures memory { IfOk result (λ _. Compiles.is_want_of_memory fault ≡ false) }
{
    match fault {
        CompileFault::NoMemory => Err(NoMemory),
        fault => Ok(refused(alloc, compile_fault_line(alloc, Beginning::Body, fault)?)?),
    }
}

/// The answer of `seq`, of the object that is asked for and the text of a script.
pub fn answer_seq(alloc: Global, asked: Asked<'_>, script: &[u8]) -> Result<Answer, NoMemory>
    ensures { IfOk result (OfWhole asked.entry.text.now (λ whole. IsSeqAnswer (of_text (asked_of asked.entry) whole) script.now)) }
{
    match seq_asked(alloc, asked, script) {
        Ok(lines) => Ok(Answer::printed(alloc, lines)),
        Err(fault) => seq_refused(alloc, asked.beginning, fault),
    }
}

/// The answer of `seq` with more than the replies, of the object that is asked for and the text of a script.
pub(crate) fn answer_told(
    alloc: Global,
    asked: Asked<'_>,
    script: &[u8],
    details: Details,
) -> Result<Answer, NoMemory>
    ensures { IfOk result (OfWhole asked.entry.text.now (λ whole. IsToldAnswer details (of_text (asked_of asked.entry) whole) script.now)) }
{
    match seq_asked_told(alloc, asked, script, details) {
        Ok(lines) => Ok(Answer::printed(alloc, lines)),
        Err(fault) => seq_refused(alloc, asked.beginning, fault),
    }
}

/// The answer to a fault of a sequential run on an object that begins so.
fn seq_refused(
    alloc: Global,
    beginning: Beginning<'_>,
    fault: SeqTextFault,
) -> Result<Answer, NoMemory>
    ensures fault { IfOk result (λ a. IsRefused a 1 (seq_fault_line (beginning_of beginning.entry) fault ++ codes "\n")) }
    ensures memory { IfOk result (λ _. is_want_of_memory fault ≡ false) }
{
    match fault {
        SeqTextFault::NoMemory => Err(NoMemory),
        fault => Ok(refused(alloc, seq_fault_line(alloc, beginning, fault)?)?),
    }
}

/// The answer of `serve`, of the object that is asked for and the text of a script: of a worker for each of its processes.
pub(crate) fn answer_serve<R: Threads + Wait + Sync>(
    rt: &R,
    alloc: Global,
    asked: Asked<'_>,
    script: &[u8],
) -> Result<Answer, NoMemory>
    ensures { IfOk result (OfWhole asked.entry.text.now (λ whole. IsServeAnswer (of_text (asked_of asked.entry) whole) script.now)) }
{
    match serve_text(rt, alloc, asked, script) {
        Ok(lines) => Ok(Answer::printed(alloc, lines)),
        Err(fault) => serve_refused(alloc, asked.beginning, fault),
    }
}

/// The answer to a fault of workers on an object that begins so.
fn serve_refused(
    alloc: Global,
    beginning: Beginning<'_>,
    fault: ServeTextFault,
) -> Result<Answer, NoMemory>
    ensures fault { IfOk result (λ a. IsRefused a 1 (serve_fault_line (beginning_of beginning.entry) fault ++ codes "\n")) }
    ensures memory { IfOk result (λ _. fault ≢ ServeTextFault.NoMemory) }
{
    match fault {
        ServeTextFault::NoMemory => Err(NoMemory),
        fault => Ok(refused(alloc, serve_fault_line(alloc, beginning, fault)?)?),
    }
}

/// The answer of `run`.
pub fn answer_record(alloc: Global, texts: Texts<'_>) -> Result<Answer, NoMemory>
    ensures { IfOk result (OfWhole texts.entry.asked.text.now (λ whole. IsRecordAnswer (texts_of_text (texts_of texts.entry) whole))) }
{
    match run_text(alloc, texts) {
        Ok(lines) => Ok(Answer::printed(alloc, lines)),
        Err(fault) => run_refused(alloc, texts.asked.beginning, fault),
    }
}

/// The answer of `run --tree`.
pub(crate) fn answer_tree_record(alloc: Global, texts: Texts<'_>) -> Result<Answer, NoMemory>
    ensures { IfOk result (OfWhole texts.entry.asked.text.now (λ whole. IsTreeRecordAnswer (texts_of_text (texts_of texts.entry) whole))) }
{
    match run_tree_text(alloc, texts) {
        Ok(lines) => Ok(Answer::printed(alloc, lines)),
        Err(fault) => run_refused(alloc, texts.asked.beginning, fault),
    }
}

/// The answer of `run --steps`.
pub(crate) fn answer_steps(alloc: Global, texts: Texts<'_>) -> Result<Answer, NoMemory>
    ensures { IfOk result (OfWhole texts.entry.asked.text.now (λ whole. IsStepsAnswer (texts_of_text (texts_of texts.entry) whole))) }
{
    match run_text_with_steps(alloc, texts) {
        Ok((lines, steps)) => Ok(Answer::printed_beside(lines, steps)),
        Err(fault) => run_refused(alloc, texts.asked.beginning, fault),
    }
}

/// The answer of `state`.
pub(crate) fn answer_state(alloc: Global, texts: Texts<'_>) -> Result<Answer, NoMemory>
    ensures { IfOk result (OfWhole texts.entry.asked.text.now (λ whole. IsStateAnswer (texts_of_text (texts_of texts.entry) whole))) }
{
    match state_text(alloc, texts) {
        Ok(lines) => Ok(Answer::printed(alloc, lines)),
        Err(fault) => run_refused(alloc, texts.asked.beginning, fault),
    }
}

/// The answer to a fault of a run on an object that begins so.
fn run_refused(
    alloc: Global,
    beginning: Beginning<'_>,
    fault: PerformFault,
) -> Result<Answer, NoMemory>
    ensures fault { IfOk result (λ a. IsRefused a 1 (run_fault_line (beginning_of beginning.entry) fault ++ codes "\n")) }
    ensures memory { IfOk result (λ _. Performs.is_want_of_memory fault ≡ false) }
{
    match fault {
        PerformFault::NoMemory => Err(NoMemory),
        fault => Ok(refused(alloc, run_fault_line(alloc, beginning, fault)?)?),
    }
}

/// The answer of `draw` of a run, of some calls or of all.
pub fn answer_picture(
    alloc: Global,
    texts: Texts<'_>,
    calls: Option<CallRange>,
) -> Result<Answer, NoMemory>
    ensures { IfOk result (OfWhole texts.entry.asked.text.now (λ whole. IsPictureAnswer calls (texts_of_text (texts_of texts.entry) whole))) }
{
    match draw_text(alloc, texts, calls) {
        Ok(picture) => Ok(Answer::printed(alloc, picture)),
        Err(fault) => draw_refused(alloc, texts.asked.beginning, fault),
    }
}

/// The answer to a fault of the picture of a run on an object that begins so.
fn draw_refused(
    alloc: Global,
    beginning: Beginning<'_>,
    fault: DrawFault,
) -> Result<Answer, NoMemory>
    ensures fault { IfOk result (λ a. IsRefused a 1 (draw_fault_line (beginning_of beginning.entry) fault ++ codes "\n")) }
    ensures memory { IfOk result (λ _. fault ≢ DrawFault.Run PerformFault.NoMemory) }
{
    match fault {
        DrawFault::Run(PerformFault::NoMemory) => Err(NoMemory),
        fault => Ok(refused(alloc, draw_fault_line(alloc, beginning, fault)?)?),
    }
}

/// The answer of `draw` to the beginning of a module's text and to what was seen of its object, of some calls or of all: a text that has
/// the form of a record is drawn as one, and any other as a history.
pub(crate) fn answer_draw_seen<R: RandomSource>(
    rt: &R,
    alloc: Global,
    module: &[u8],
    seen: &[u8],
    calls: Option<CallRange>,
) -> Result<Answer, NoMemory>
    ensures { IfOk result (OfWhole «module».now (λ whole. IsSeenPictureAnswer calls whole «seen».now)) }
{
    if is_record_form(seen) {
        return answer_draw_record(alloc, module, seen, calls);
    }
    let drawing = HistoryDrawing {
        budget: None,
        most: DEFAULT_MOST,
        calls,
    };
    answer_draw_history(rt, alloc, module, seen, drawing)
}

/// The same of a record.
fn answer_draw_record(
    alloc: Global,
    module: &[u8],
    record: &[u8],
    calls: Option<CallRange>,
) -> Result<Answer, NoMemory>
    ensures { IfOk result (OfWhole «module».now (λ whole. IsRecordPictureAnswer calls whole «record».now)) }
{
    match draw_record_text(alloc, module, record, calls) {
        Ok(picture) => Ok(Answer::printed(alloc, picture)),
        Err(fault) => draw_record_refused(alloc, fault),
    }
}

/// The answer to a fault of a record's picture.
fn draw_record_refused(alloc: Global, fault: DrawRecordFault) -> Result<Answer, NoMemory>
    ensures fault { IfOk result (λ a. IsRefused a 1 (draw_record_fault_line fault ++ codes "\n")) }
    ensures memory { IfOk result (λ _. fault ≢ DrawRecordFault.NoMemory) }
{
    match fault {
        DrawRecordFault::NoMemory => Err(NoMemory),
        fault => Ok(refused(alloc, draw_record_fault_line(alloc, fault)?)?),
    }
}

/// The answer to the beginning of a module's text and to the text of a record.
pub fn answer_verify(alloc: Global, module: &[u8], record: &[u8]) -> Result<Answer, NoMemory>
    ensures { IfOk result (OfWhole «module».now (λ whole. IsVerifyAnswer whole «record».now)) }
{
    match verify_text(alloc, module, record) {
        Ok(()) => Ok(Answer::printed(alloc, String::from_str(alloc, "ok\n")?)),
        Err(fault) => verify_refused(alloc, fault),
    }
}

/// The answer to a fault of a record.
fn verify_refused(alloc: Global, fault: VerifyFault) -> Result<Answer, NoMemory>
    ensures fault { IfOk result (λ a. IsRefused a 1 (verify_fault_line fault ++ codes "\n")) }
    ensures memory { IfOk result (λ _. fault ≢ VerifyFault.NoMemory) }
{
    match fault {
        VerifyFault::NoMemory => Err(NoMemory),
        fault => Ok(refused(alloc, verify_fault_line(alloc, fault)?)?),
    }
}
