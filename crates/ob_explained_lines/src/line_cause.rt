//! Why a line of a record or of a history can't stand where it does.

ghost use Rattle.std.specs.Prelude.{◌≡◌, ◌↔◌, ◌<◌, ◌≤◌, ◌-◌, [], IfOk, IfSome, IsTrue, None, Option, Some, length, map, option_map, slice_get};
ghost use Rattle.std.specs.Prelude.{string_bytes, unwrap_or};
ghost use Rattle.ob_explain_arguments.specs.Calls.{told_of};
ghost use Rattle.ob_explained_lines.specs.CallPlaces.{NamesNoCall};
ghost use Rattle.ob_explained_lines.specs.Causes.{IsBeginCause, IsCallsCause, IsCountedCause, IsDoneCause, IsEndCause, IsHistoryLineCause, IsLetter, IsLetterCause, IsLineCause};
ghost use Rattle.ob_explained_lines.specs.Causes.{IsDoneTold, IsSaidBegin, IsSaidEnd, IsOutcome, IsOutcomeCause, IsPlacedBegin, IsPlacedEnd, IsProcessCount};
ghost use Rattle.ob_explained_lines.specs.Causes.{IsReplyCause, IsStranger, IsWordsCause, begin_told, called_by, cause_at, cause_of, done_told, has_budget, has_openings};
ghost use Rattle.ob_explained_lines.specs.Causes.{counted_sentence, head_words, id_sentence, line_words, object_of, reply_sentence, told_spot, trap_sentence};
ghost use Rattle.ob_interface.specs.Export.{var_types};
ghost use Rattle.ob_interface.specs.View.{signature_of};

use crate::call_name::PROCESS_NUMBERS;
use crate::call_place::{begin_place, call_within, ended_text, line_before, not_begun_text};
use crate::record_line::{Wanted, split_lines};
use ob_explain_arguments::call_line::{Told, told_call};
use ob_explain_arguments::misfit::{Misfit, first_misfit};
use ob_explain_arguments::sentences::{done_sentence, value_sentence};
use ob_interface::export::{Export, Formal};
use ob_interface::scalar::ScalarType;
use ob_text_values_reading::comments::line_number;
use ob_text_words::export_names::export_named;
use ob_text_words::numbers::{push_number, read_numeral};
use ob_text_words::words::words_of;
use std::alloc::{AllocError, Global};
use wf_history::CallId;

/// The text of a module, and its exports.
#[derive(Clone, Copy)]
pub struct Object<'a> {
    pub text: &'a [u8],
    pub exports: &'a [Export],
}

/// A word of a line.
#[derive(Clone, Copy)]
pub enum Spot {
    /// That of this number, counted from 0.
    Word(usize),
    /// The value of this number, counted from 0, behind the first three words.
    Value(usize),
}

/// A sentence on a word of a line.
#[derive(Drop)]
pub struct Cause {
    pub spot: Spot,
    pub sentence: String,
}

/// What a line tells by its first word.
#[derive(Clone, Copy)]
enum Letter {
    /// A call begins.
    Begin,
    /// A call ends.
    End,
    /// Calls took effect, or stand in the order.
    Calls,
    /// It is none of these.
    Other,
}

/// What a word says of the end of a call.
#[derive(Clone, Copy)]
enum Outcome {
    Done,
    Trap,
    /// It is none of these.
    Other,
}

/// Why the line of a number, from 1, can't stand behind the head of a record, by the exports of the module; `None` of a line that is
/// neither one of an event nor the order.
pub fn line_cause(
    alloc: Global,
    object: Object<'_>,
    text: &[u8],
    number: usize,
) -> Result<Option<Cause>, AllocError>
    ensures { IfOk result (λ cause. IsLineCause (object_of object.entry) text.now number (option_map cause_of cause)) }
{
    let processes = process_count(alloc, text)?;
    counted_cause(alloc, object, text, number, processes)
}

/// The same of a line of a history, of whose n line nothing is asked: a process is any number of at most nine digits.
pub fn history_line_cause(
    alloc: Global,
    object: Object<'_>,
    text: &[u8],
    number: usize,
) -> Result<Option<Cause>, AllocError>
    ensures { IfOk result (λ cause. IsHistoryLineCause (object_of object.entry) text.now number (option_map cause_of cause)) }
{
    counted_cause(alloc, object, text, number, Some(PROCESS_NUMBERS))
}

/// How many processes there are, by the second line of the head.
fn process_count(alloc: Global, text: &[u8]) -> Result<Option<usize>, AllocError>
    ensures { IfOk result (IsProcessCount (head_words text.now 2)) }
{
    let words = head_words(alloc, text, 2)?;
    Ok(count_in(&words))
}

/// How many processes there are, by the words of the second line.
fn count_in(words: &[&[u8]]) -> Option<usize>
    ensures { IsProcessCount (map (λ w. w.now) words.now) result }
{
    let number = words.get(1)?;
    let count = read_numeral(number)?;
    Some(count as usize)
}

/// Whether a record has a line for the budget, by its title.
pub fn has_budget(alloc: Global, text: &[u8]) -> Result<bool, AllocError>
    ensures { IfOk result (λ has. has ≡ has_budget (head_words text.now 1)) }
{
    let words = head_words(alloc, text, 1)?;
    Ok(is_budgeted(&words))
}

/// Whether a title says version 2 or 3.
fn is_budgeted(title: &[&[u8]]) -> bool
    ensures { result ≡ has_budget (map (λ w. w.now) title.now) }
{
    match title.get(2) {
        Some(version) => *version == b"2".as_slice() || *version == b"3".as_slice(),
        None => false,
    }
}

/// Whether a record has lines for the values that its object began with, by its title.
pub fn has_openings(alloc: Global, text: &[u8]) -> Result<bool, AllocError>
    ensures { IfOk result (λ has. has ≡ has_openings (head_words text.now 1)) }
{
    let words = head_words(alloc, text, 1)?;
    Ok(is_opened(&words))
}

/// Whether a title says version 3.
fn is_opened(title: &[&[u8]]) -> bool
    ensures { result ≡ has_openings (map (λ w. w.now) title.now) }
{
    match title.get(2) {
        Some(version) => *version == b"3".as_slice(),
        None => false,
    }
}

/// The words of the line that has a number among those that are no remarks, from 1.
fn head_words(alloc: Global, text: &[u8], own: usize) -> Result<Vec<&[u8]>, AllocError>
    requires { 1 ≤ own }
    ensures { IfOk result (λ ws. map (λ w. w.now) ws.items ≡ head_words text.now own) }
{
    line_words(alloc, text, line_number(text, own))
}

/// The words of the line of a number, from 1.
fn line_words(alloc: Global, text: &[u8], number: usize) -> Result<Vec<&[u8]>, AllocError>
    ensures { IfOk result (λ ws. map (λ w. w.now) ws.items ≡ line_words text.now number) }
{
    let lines = split_lines(alloc, text)?;
    words_of(alloc, line_at(&lines, number))
}

/// The line of a number, from 1; an empty one, where there are fewer.
fn line_at<'a>(lines: &[&'a [u8]], number: usize) -> &'a [u8]
    ensures { result.now ≡ unwrap_or (slice_get (map (λ l. l.now) lines.now) (number - 1)) [] }
{
    match lines.get(number.saturating_sub(1)) {
        Some(line) => line,
        None => &[],
    }
}

/// Why a line can't stand where it does, with the number of processes that the second line says.
fn counted_cause(
    alloc: Global,
    object: Object<'_>,
    text: &[u8],
    number: usize,
    processes: Option<usize>,
) -> Result<Option<Cause>, AllocError>
    ensures { IfOk result (λ cause. IsCountedCause (object_of object.entry) text.now number processes (option_map cause_of cause)) }
{
    match processes {
        Some(processes) => {
            let words = line_words(alloc, text, number)?;
            words_cause(alloc, object, text, number, processes, &words)
        }
        None => Ok(None),
    }
}

/// Why a line of these words can't stand where it does.
fn words_cause(
    alloc: Global,
    object: Object<'_>,
    text: &[u8],
    number: usize,
    processes: usize,
    words: &[&[u8]],
) -> Result<Option<Cause>, AllocError>
    ensures { IfOk result (λ cause. IsWordsCause (object_of object.entry) text.now number processes (map (λ w. w.now) words.now) (option_map cause_of cause)) }
{
    let Some((first, rest)) = words.split_first() else {
        return Ok(None);
    };
    let letter = letter_of(first);
    letter_cause(alloc, object, text, number, processes, letter, rest)
}

/// What a line tells by its first word.
fn letter_of(word: &[u8]) -> Letter
    ensures { IsLetter word.now result }
{
    match word {
        b"B" => Letter::Begin,
        b"E" => Letter::End,
        b"A" | b"O" => Letter::Calls,
        _ => Letter::Other,
    }
}

/// Why a line can't stand where it does, by what it tells and by the words behind the first one.
fn letter_cause(
    alloc: Global,
    object: Object<'_>,
    text: &[u8],
    number: usize,
    processes: usize,
    letter: Letter,
    words: &[&[u8]],
) -> Result<Option<Cause>, AllocError>
    ensures { IfOk result (λ cause. IsLetterCause (object_of object.entry) text.now number processes letter
        (map (λ w. w.now) words.now) (option_map cause_of cause)) }
{
    match letter {
        Letter::Begin => begin_cause(alloc, object, text, number, processes, words),
        Letter::End => end_cause(alloc, object, text, number, processes, words),
        Letter::Calls => calls_cause(alloc, processes, words),
        Letter::Other => Ok(None),
    }
}

/// A cause at a word.
fn told(spot: Spot, sentence: String) -> Result<Option<Cause>, AllocError>
    ensures { IfOk result (λ cause. option_map cause_of cause ≡ cause_at spot (string_bytes sentence)) }
{
    Ok(Some(Cause { spot, sentence }))
}

/// How calls are named, and which processes there are: of a history all numbers that a process may have.
fn id_sentence(alloc: Global, processes: usize) -> Result<String, AllocError>
    ensures { IfOk result (λ said. string_bytes said ≡ id_sentence processes) }
{
    if processes == PROCESS_NUMBERS {
        String::from_str(
            alloc,
            "a call is named by its process, a dot and its number, as 0.1, and a process has at most nine digits",
        )
    } else {
        counted_sentence(alloc, processes)
    }
}

/// How calls are named of so many processes as the n line says.
fn counted_sentence(alloc: Global, processes: usize) -> Result<String, AllocError>
    ensures { IfOk result (λ said. string_bytes said ≡ counted_sentence processes) }
{
    let mut said = String::from_str(
        alloc,
        "a call is named by its process, a dot and its number, as 0.1, and by the n line ",
    )?;
    if processes == 1 {
        said.push_str("there is process 0 alone")?;
    } else {
        said.push_str("the processes are 0 to ")?;
        push_number(&mut said, processes.saturating_sub(1))?;
    }
    Ok(said)
}

/// Why calls of these names can't stand behind an A or an O.
fn calls_cause(
    alloc: Global,
    processes: usize,
    words: &[&[u8]],
) -> Result<Option<Cause>, AllocError>
    ensures { IfOk result (λ cause. IsCallsCause processes (map (λ w. w.now) words.now) (option_map cause_of cause)) }
{
    match first_stranger(processes, words) {
        Some(place) => told(Spot::Word(place + 1), id_sentence(alloc, processes)?),
        None => Ok(None),
    }
}

/// The first word that names no call of so many processes.
fn first_stranger(processes: usize, words: &[&[u8]]) -> Option<usize>
    ensures place { IsStranger processes (map (λ w. w.now) words.now) result }
    ensures below { IfSome result (λ k. k < length words.now) }
{
    for (index, word) in words.iter().enumerate() {
        if is_stranger(processes, word) {
            return Some(index);
        }
    }
    None
}

/// Whether a word names no call of so many processes.
fn is_stranger(processes: usize, word: &[u8]) -> bool
    ensures { IsTrue result ↔ NamesNoCall processes word.now }
{
    match call_within(processes, word) {
        Some(_id) => false,
        None => true,
    }
}

/// Why a call of these words can't begin, which are its name and the call.
fn begin_cause(
    alloc: Global,
    object: Object<'_>,
    text: &[u8],
    number: usize,
    processes: usize,
    words: &[&[u8]],
) -> Result<Option<Cause>, AllocError>
    ensures { IfOk result (λ cause. IsBeginCause (object_of object.entry) text.now number processes (map (λ w. w.now) words.now) (option_map cause_of cause)) }
{
    let Some((word, _rest)) = words.split_first() else {
        return Ok(None);
    };
    match call_within(processes, word) {
        Some(id) => placed_begin(alloc, object, text, number, id, words),
        None => told(Spot::Word(1), id_sentence(alloc, processes)?),
    }
}

/// Why a call can't begin there, or what of its words doesn't fit.
fn placed_begin(
    alloc: Global,
    object: Object<'_>,
    text: &[u8],
    number: usize,
    id: CallId,
    words: &[&[u8]],
) -> Result<Option<Cause>, AllocError>
    ensures { IfOk result (λ cause. IsSaidBegin (object_of object.entry) text.now number id (map (λ w. w.now) words.now) (option_map cause_of cause)) }
{
    match begin_place(alloc, text, number, id)? {
        Some(sentence) => told(Spot::Word(1), sentence),
        None => unfit_begin(alloc, object, words),
    }
}

/// What of the words of a call doesn't fit.
fn unfit_begin(
    alloc: Global,
    object: Object<'_>,
    words: &[&[u8]],
) -> Result<Option<Cause>, AllocError>
    ensures { IfOk result (λ cause. IsPlacedBegin (object_of object.entry) (map (λ w. w.now) words.now) None (option_map cause_of cause)) }
{
    let told = told_call(alloc, object.text, object.exports, words)?;
    Ok(begin_told(told))
}

/// The same at the word of the line.
fn begin_told(told: Option<Told>) -> Option<Cause>
    ensures { option_map cause_of result ≡ option_map begin_told (option_map told_of told) }
{
    match told {
        Some(told) => Some(Cause {
            spot: told_spot(told.value),
            sentence: told.sentence,
        }),
        None => None,
    }
}

/// The value of a number, or the name where there is no number.
fn told_spot(value: Option<usize>) -> Spot
    ensures { result ≡ told_spot value }
{
    match value {
        Some(number) => Spot::Value(number),
        None => Spot::Word(2),
    }
}

/// Why a call of these words can't end, which are its name and its reply.
fn end_cause(
    alloc: Global,
    object: Object<'_>,
    text: &[u8],
    number: usize,
    processes: usize,
    words: &[&[u8]],
) -> Result<Option<Cause>, AllocError>
    ensures { IfOk result (λ cause. IsEndCause (object_of object.entry) text.now number processes (map (λ w. w.now) words.now) (option_map cause_of cause)) }
{
    let Some((word, rest)) = words.split_first() else {
        return Ok(None);
    };
    match call_within(processes, word) {
        Some(id) => named_end(alloc, object, text, number, id, rest),
        None => told(Spot::Word(1), id_sentence(alloc, processes)?),
    }
}

/// Why this call can't end there.
fn named_end(
    alloc: Global,
    object: Object<'_>,
    text: &[u8],
    number: usize,
    id: CallId,
    words: &[&[u8]],
) -> Result<Option<Cause>, AllocError>
    ensures { IfOk result (λ cause. IsSaidEnd (object_of object.entry) text.now number id (map (λ w. w.now) words.now) (option_map cause_of cause)) }
{
    let begin = line_before(alloc, text, number, Wanted::Begin(id))?;
    let end = line_before(alloc, text, number, Wanted::End(id))?;
    placed_end(alloc, object, text, id, begin, end, words)
}

/// Why it can't end, by the lines in which it begins and ends before.
fn placed_end(
    alloc: Global,
    object: Object<'_>,
    text: &[u8],
    id: CallId,
    begin: Option<usize>,
    end: Option<usize>,
    words: &[&[u8]],
) -> Result<Option<Cause>, AllocError>
    ensures { IfOk result (λ cause. IsPlacedEnd (object_of object.entry) text.now id (map (λ w. w.now) words.now) begin end (option_map cause_of cause)) }
{
    match (begin, end) {
        (None, _) => told(Spot::Word(1), not_begun_text(alloc, id)?),
        (Some(_), Some(line)) => told(Spot::Word(1), ended_text(alloc, id, line)?),
        (Some(line), None) => reply_cause(alloc, object, text, line, words),
    }
}

/// Why these words can't be the reply to a call that begins in the line of a number.
fn reply_cause(
    alloc: Global,
    object: Object<'_>,
    text: &[u8],
    line: usize,
    words: &[&[u8]],
) -> Result<Option<Cause>, AllocError>
    ensures { IfOk result (λ cause. IsReplyCause (object_of object.entry) text.now line (map (λ w. w.now) words.now) (option_map cause_of cause)) }
{
    let Some((word, values)) = words.split_first() else {
        return told(Spot::Word(2), reply_sentence(alloc)?);
    };
    outcome_cause(alloc, object, text, line, outcome_of(word), values)
}

/// What stands behind a call that ends.
fn reply_sentence(alloc: Global) -> Result<String, AllocError>
    ensures { IfOk result (λ said. string_bytes said ≡ reply_sentence) }
{
    String::from_str(
        alloc,
        "behind a call that ends stands done and the values of its parameters with VAR, or trap and 1 to 5",
    )
}

/// What a word says of the end of a call.
fn outcome_of(word: &[u8]) -> Outcome
    ensures { IsOutcome word.now result }
{
    match word {
        b"done" => Outcome::Done,
        b"trap" => Outcome::Trap,
        _ => Outcome::Other,
    }
}

/// Why a call that begins in the line of a number can't have this outcome.
fn outcome_cause(
    alloc: Global,
    object: Object<'_>,
    text: &[u8],
    line: usize,
    outcome: Outcome,
    values: &[&[u8]],
) -> Result<Option<Cause>, AllocError>
    ensures { IfOk result (λ cause. IsOutcomeCause (object_of object.entry) text.now line (map (λ w. w.now) values.now) outcome (option_map cause_of cause)) }
{
    match outcome {
        Outcome::Done => called_done(alloc, object, text, line, values),
        Outcome::Trap => told(Spot::Value(0), trap_sentence(alloc)?),
        Outcome::Other => told(Spot::Word(2), reply_sentence(alloc)?),
    }
}

/// Which traps there are.
fn trap_sentence(alloc: Global) -> Result<String, AllocError>
    ensures { IfOk result (λ said. string_bytes said ≡ trap_sentence) }
{
    String::from_str(
        alloc,
        "behind trap stands what trapped: a number out of range (1), an index (2), a divisor (3), too many calls within one another (4) or no turn left (5)",
    )
}

/// Why these can't be the values of a call that begins in the line of a number.
fn called_done(
    alloc: Global,
    object: Object<'_>,
    text: &[u8],
    line: usize,
    values: &[&[u8]],
) -> Result<Option<Cause>, AllocError>
    ensures { IfOk result (λ cause.
        IsDoneCause (called_by (object_of object.entry) (line_words text.now line)) (map (λ w. w.now) values.now) (option_map cause_of cause)) }
{
    let words = line_words(alloc, text, line)?;
    match called_by(object, &words) {
        Some(export) => done_cause(alloc, &export.formals, values),
        None => Ok(None),
    }
}

/// The export that a line of these words calls.
fn called_by<'a>(object: Object<'a>, words: &[&[u8]]) -> Option<&'a Export>
    ensures { option_map (λ e. signature_of e.now) result ≡ called_by (object_of object.entry) (map (λ w. w.now) words.now) }
{
    let name = words.get(2)?;
    let (_number, export) = export_named(object.exports, name)?;
    Some(export)
}

/// Why these can't be the values of a procedure with these parameters.
fn done_cause(
    alloc: Global,
    formals: &[Formal],
    values: &[&[u8]],
) -> Result<Option<Cause>, AllocError>
    ensures { IfOk result (λ cause. IsDoneTold (var_types formals.now) (map (λ w. w.now) values.now) (option_map cause_of cause)) }
{
    let types = var_types(alloc, formals)?;
    done_fit(alloc, &types, values)
}

/// The types of the parameters with VAR.
fn var_types(alloc: Global, formals: &[Formal]) -> Result<Vec<ScalarType>, AllocError>
    ensures { IfOk result (λ types. types.items ≡ var_types formals.now) }
{
    formals
        .iter()
        .copied()
        .filter(|formal| formal.is_var)
        .map(|formal| formal.scalar_type)
        .collect(alloc)
}

/// What doesn't fit of the values behind done, for these types.
fn done_fit(
    alloc: Global,
    types: &[ScalarType],
    values: &[&[u8]],
) -> Result<Option<Cause>, AllocError>
    ensures { IfOk result (λ cause. IsDoneTold types.now (map (λ w. w.now) values.now) (option_map cause_of cause)) }
{
    done_told(alloc, types, values.len(), first_misfit(types, values))
}

/// The same by what doesn't fit.
fn done_told(
    alloc: Global,
    types: &[ScalarType],
    values: usize,
    misfit: Option<Misfit>,
) -> Result<Option<Cause>, AllocError>
    ensures { IfOk result (λ cause. option_map cause_of cause ≡ done_told types.now values misfit) }
{
    match misfit {
        Some(Misfit::Count) => told(Spot::Word(2), done_sentence(alloc, values, types)?),
        Some(Misfit::Value(number, scalar_type)) => told(
            Spot::Value(number),
            String::from_str(alloc, value_sentence(scalar_type))?,
        ),
        None => Ok(None),
    }
}
