//! What is wrong in a line of a record, in a sentence.

ghost use Rattle.std.specs.Prelude.{◌≡◌, ℕ, suc, IfOk, IfSome, None, map, option_map, string_bytes};
ghost use Rattle.ob_check.specs.CheckedText.{IsNumberedText, TellsTextMemoryApart, is_text_memory};
ghost use Rattle.ob_explain_sentences.specs.Remarks.{remark_of};
ghost use Rattle.ob_explained.specs.Marks.{MarksWord};
ghost use Rattle.ob_explained.specs.ScriptPlaces.{in_line, word_place};
ghost use Rattle.ob_explained_lines.specs.Causes.{IsLineCause, cause_of, has_openings, words_before};
ghost use Rattle.ob_explained_records.specs.FormRemarks.{IsBodyCause, IsFormCause, IsFormRemark, IsModuleCause, IsPlacedCause, budget_cause, form_sentence, is_apart};
ghost use Rattle.ob_explained_records.specs.FormRemarks.{is_behind, is_budget_line, letter_sentence, opened_at, opening_cause, told_form};
ghost use Rattle.ob_interface.specs.View.{signature_of};
ghost use Rattle.ob_typing.specs.ModuleText.{IsModule};
ghost use Rattle.ob_typing.specs.Program.{Program};

use ob_check::TextFault;
use ob_check::module_text::checked_text;
use ob_checked::program::Variable;
use ob_explain_arguments::first_line::title_sentence;
use ob_explain_sentences::first_word::begins_with;
use ob_explain_sentences::remark::Remark;
use ob_explained::script_place::{behind_place, first_place, script_line, word_place};
use ob_explained_lines::line_cause::{Cause, Object, Spot, has_budget, has_openings, line_cause};
use ob_explained_lines::record_line::{Wanted, first_line};
use ob_interface::export::Export;
use ob_text_values_reading::comments::said_number;
use std::alloc::{AllocError, Global};

/// The remark on the line of a number, from 1, which is missing or can't stand there, of a record of a module's object.
pub fn form_remark(
    alloc: Global,
    object: &[u8],
    text: &[u8],
    number: usize,
) -> Result<Option<Remark>, AllocError>
    ensures remark { IfOk result (λ remark. IsFormRemark object.now text.now number (option_map remark_of remark)) }

    // It stands at a word of the line, by what stands between blanks there.
    ensures marked { IfOk result (λ remark. IfSome remark (λ r. (word : ℕ) × MarksWord text.now number word r.place)) }
{
    let order = first_line(alloc, text, Wanted::Order)?;
    let behind_order = is_behind(order, number);
    let apart = is_apart(said_number(text, number), behind_order);
    let cause = form_cause(alloc, object, text, number, apart)?;
    told_form(alloc, text, number, behind_order, cause)
}

/// Whether the line of a number stands behind another one, where there is that.
pub(crate) fn is_behind(other: Option<usize>, number: usize) -> bool
    ensures { result ≡ is_behind other number }
{
    match other {
        Some(other) => other < number,
        None => false,
    }
}

/// Whether the line of a number is one of the head, or stands behind the order.
fn is_apart(number: usize, behind_order: bool) -> bool
    ensures { result ≡ is_apart number behind_order }
{
    number <= 2 || behind_order
}

/// Whether the line of a number is that of the budget, in a record with a budget or without.
fn is_budget_line(number: usize, budget: bool) -> bool
    ensures { result ≡ is_budget_line number budget }
{
    number == 3 && budget
}

/// Why a line can't stand where it does, where it stands between the head and the order.
fn form_cause(
    alloc: Global,
    object: &[u8],
    text: &[u8],
    number: usize,
    apart: bool,
) -> Result<Option<Cause>, AllocError>
    ensures { IfOk result (λ cause. IsFormCause apart object.now text.now number (option_map cause_of cause)) }
{
    if apart {
        Ok(None)
    } else {
        let budget = has_budget(alloc, text)?;
        let own = said_number(text, number);
        body_cause(alloc, object, text, number, is_budget_line(own, budget))
    }
}

/// Why a line can't stand there that is the one of the budget, or any other.
fn body_cause(
    alloc: Global,
    object: &[u8],
    text: &[u8],
    number: usize,
    budget: bool,
) -> Result<Option<Cause>, AllocError>
    ensures { IfOk result (λ cause. IsBodyCause budget object.now text.now number (option_map cause_of cause)) }
{
    if budget {
        budget_cause(alloc)
    } else {
        module_cause(alloc, object, text, number)
    }
}

/// What the line of the budget is.
fn budget_cause(alloc: Global) -> Result<Option<Cause>, AllocError>
    ensures { IfOk result (λ cause. option_map cause_of cause ≡ budget_cause) }
{
    let sentence = String::from_str(
        alloc,
        "the third line of a record of version 2 or 3 is b and how many turns each call has, 0 to 1000000, as b 100000",
    )?;
    Ok(Some(Cause {
        spot: Spot::Word(0),
        sentence,
    }))
}

/// Why a line can't stand where it does, by the variables and the exports of the module.
fn module_cause(
    alloc: Global,
    object: &[u8],
    text: &[u8],
    number: usize,
) -> Result<Option<Cause>, AllocError>
    ensures { IfOk result (λ cause. IsModuleCause object.now text.now number (option_map cause_of cause)) }
{
    match checked_text(alloc, object) {
        Ok(checked) => {
            let openings = has_openings(alloc, text)?;
            let variables = checked.program().variables.as_slice();
            let opened = opened_at(openings, variables, said_number(text, number));
            placed_cause(alloc, object, checked.exports(), text, number, opened)
        }
        Err(fault) => no_cause(object, fault),
    }
}

/// The variable whose value stands in the line of a number, from 4 on.
fn opened_at(openings: bool, variables: &[Variable], number: usize) -> Option<&str>
    ensures { option_map (λ n. n.now) result ≡ opened_at openings (map (λ v. string_bytes v.name) variables.now) number }
{
    if openings {
        let variable = variables.get(number.saturating_sub(4))?;
        Some(variable.name.as_str())
    } else {
        None
    }
}

/// Why a line can't stand where it does that is the one of a variable, or any other.
fn placed_cause(
    alloc: Global,
    object: &[u8],
    exports: &[Export],
    text: &[u8],
    number: usize,
    opened: Option<&str>,
) -> Result<Option<Cause>, AllocError>
    ensures { IfOk result (λ cause.
        IsPlacedCause (option_map (λ n. n.now) opened.entry) (record { text = object.now; exports = map signature_of exports.now }) text.now number
        (option_map cause_of cause)) }
{
    match opened {
        Some(name) => opening_cause(alloc, name),
        None => exports_cause(alloc, object, exports, text, number),
    }
}

/// That a value of the variable stands there.
fn opening_cause(alloc: Global, name: &str) -> Result<Option<Cause>, AllocError>
    ensures { IfOk result (λ cause. option_map cause_of cause ≡ opening_cause name.now) }
{
    let mut sentence = String::from_str(alloc, "here stands I, the variable ")?;
    sentence.push_str(name)?;
    sentence.push_str(" of the module and a value of its type, with which the object began")?;
    Ok(Some(Cause {
        spot: Spot::Word(0),
        sentence,
    }))
}

/// Why a line can't stand where it does, where these are the exports.
fn exports_cause(
    alloc: Global,
    object: &[u8],
    exports: &[Export],
    text: &[u8],
    number: usize,
) -> Result<Option<Cause>, AllocError>
    ensures { IfOk result (λ cause.
        IsLineCause (record { text = object.now; exports = map signature_of exports.now }) text.now number (option_map cause_of cause)) }
{
    let object = Object {
        text: object,
        exports,
    };
    line_cause(alloc, object, text, number)
}

/// No cause is told where the text is no module, since it has no exports.
pub(crate) fn no_cause(object: &[u8], fault: TextFault) -> Result<Option<Cause>, AllocError>
    requires none { IsNumberedText fault → (program : Program) → IsModule object.now program → ⊥ }
    requires apart { TellsTextMemoryApart fault }
    ensures { IfOk result (λ cause. (option_map cause_of cause ≡ None) × ((program : Program) → IsModule object.now program → ⊥)) }
{
    if is_memory(fault) {
        Err(AllocError)
    } else {
        Ok(None)
    }
}

fn is_memory(fault: TextFault) -> bool
    ensures { result ≡ is_text_memory fault }
{
    matches!(fault, TextFault::NoMemory)
}

/// The remark at the word that is the cause, or else at the line's first word.
fn told_form(
    alloc: Global,
    text: &[u8],
    number: usize,
    behind_order: bool,
    cause: Option<Cause>,
) -> Result<Option<Remark>, AllocError>
    ensures remark { IfOk result (λ remark. option_map remark_of remark ≡ told_form text.now number behind_order (option_map cause_of cause)) }
    ensures marked { IfOk result (λ remark. IfSome remark (λ r. (word : ℕ) × MarksWord text.now number word r.place)) }
{
    match cause {
        Some(cause) => Ok(Some(Remark {
            place: place_of_spot(text, number, cause.spot),
            sentence: cause.sentence,
            hint: None,
        })),
        None => first_remark(alloc, text, number, behind_order),
    }
}

/// Where a word of a line stands.
pub(crate) fn place_of_spot(text: &[u8], number: usize, spot: Spot) -> usize
    ensures place { result ≡ in_line (word_place (words_before spot)) text.now number }
    ensures marked { MarksWord text.now number (words_before spot) result }
{
    match spot {
        Spot::Word(word) => place_of_word(text, number, word),
        Spot::Value(value) => place_of_value(text, number, value),
    }
}

/// Where the word of a number stands, counted from 0.
fn place_of_word(text: &[u8], number: usize, word: usize) -> usize
    ensures place { result ≡ in_line (word_place word) text.now number }
    ensures marked { MarksWord text.now number word result }
{
    let (begin, line) = script_line(text, number);
    begin + word_place(line, word)
}

/// Where the value of a number stands behind three words, counted from 0.
fn place_of_value(text: &[u8], number: usize, value: usize) -> usize
    ensures place { result ≡ in_line (word_place (suc (suc (suc value)))) text.now number }
    ensures marked { MarksWord text.now number (suc (suc (suc value))) result }
{
    let (begin, line) = script_line(text, number);
    begin + behind_place(line, value)
}

/// The remark at a line's first word, by what the line begins with.
fn first_remark(
    alloc: Global,
    text: &[u8],
    number: usize,
    behind_order: bool,
) -> Result<Option<Remark>, AllocError>
    ensures remark { IfOk result (λ remark. option_map remark_of remark ≡ told_form text.now number behind_order None) }
    ensures marked { IfOk result (λ remark. IfSome remark (λ r. MarksWord text.now number 0 r.place)) }
{
    let (begin, line) = script_line(text, number);
    let first = first_place(line);
    let sentence = form_sentence(said_number(text, number), behind_order, &line[first..]);
    Ok(Some(Remark {
        place: begin + first,
        sentence: String::from_str(alloc, sentence)?,
        hint: None,
    }))
}

/// What stands in the line of a number, behind the order or not, by what it has from its first word on.
fn form_sentence(number: usize, behind_order: bool, from: &[u8]) -> &'static str
    ensures { result.now ≡ form_sentence number behind_order from.now }
{
    if number == 1 {
        title_sentence(from)
    } else if number == 2 {
        "the second line is n and how many processes there are, 1 to 16, as n 2"
    } else if behind_order {
        "behind the order stand S and V lines alone"
    } else {
        letter_sentence(from)
    }
}

/// What stands in a line that begins so.
fn letter_sentence(from: &[u8]) -> &'static str
    ensures { result.now ≡ letter_sentence from.now }
{
    if from.is_empty() {
        "here a line is missing or empty: an event stands here (B, A, E), or behind all events the order, as O 0.1"
    } else if begins_with(from, b'B') {
        "behind B stand a process's next call, as 0.1, a procedure that the module exports, and its arguments, as B 0.1 Add 3"
    } else if begins_with(from, b'E') {
        "behind E stand a call that has begun and not ended, as 0.1, and done and its values, or trap and 1 to 5, as E 0.1 done 3"
    } else if begins_with(from, b'A') || begins_with(from, b'O') {
        "behind A and O stand calls, as 0.1, of processes that there are"
    } else if begins_with(from, b'b') {
        "the third line of versions 2 and 3 is b and the budget, 0 to 1000000, and no other line is"
    } else if begins_with(from, b'I') {
        "I lines stand in version 3 alone, behind the third line, one for each variable of the module"
    } else {
        "here stands an event (B, A, E) or the order (O)"
    }
}
