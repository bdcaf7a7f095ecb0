//! The remark on a line of a history that can't stand there.

ghost use Rattle.std.specs.Prelude.{IfOk, None, option_map};
ghost use Rattle.ob_explain_sentences.specs.Remarks.{remark_of};
ghost use Rattle.ob_explained_lines.specs.Causes.{cause_of};
ghost use Rattle.ob_explained_records.specs.HistoryForms.{IsEventsCause, IsHistoryCause, IsHistoryFormRemark, IsHistoryTold};

use crate::history_sentences::first_sentence;
use crate::record_remark::{is_behind, no_cause, place_of_spot};
use ob_check::module_text::checked_text;
use ob_explain_sentences::remark::Remark;
use ob_explained::script_place::{first_place, script_line};
use ob_explained_lines::line_cause::{Cause, Object, history_line_cause};
use ob_explained_lines::record_line::{Wanted, first_line};
use std::alloc::{AllocError, Global};

/// The remark on the line of a number, from 1, which is missing or can't stand there, of a history of a module's object.
pub(crate) fn form_remark(
    alloc: Global,
    object: &[u8],
    text: &[u8],
    number: usize,
) -> Result<Option<Remark>, AllocError>
    ensures { IfOk result (λ remark. IsHistoryFormRemark object.now text.now number (option_map remark_of remark)) }
{
    let order = first_line(alloc, text, Wanted::Order)?;
    let behind_order = is_behind(order, number);
    let cause = history_cause(alloc, object, text, number, behind_order)?;
    told_form(alloc, object, text, number, behind_order, cause)
}

/// Why a line can't stand there that is one of an event, of calls or the order.
fn history_cause(
    alloc: Global,
    object: &[u8],
    text: &[u8],
    number: usize,
    behind_order: bool,
) -> Result<Option<Cause>, AllocError>
    ensures { IfOk result (λ cause. IsHistoryCause behind_order object.now text.now number (option_map cause_of cause)) }
{
    if behind_order {
        Ok(None)
    } else {
        events_cause(alloc, object, text, number)
    }
}

/// The same by the exports of the module, where no order stands before the line.
fn events_cause(
    alloc: Global,
    object: &[u8],
    text: &[u8],
    number: usize,
) -> Result<Option<Cause>, AllocError>
    ensures { IfOk result (λ cause. IsEventsCause object.now text.now number (option_map cause_of cause)) }
{
    match checked_text(alloc, object) {
        Ok(checked) => {
            let exports = checked.exports();
            let object = Object {
                text: object,
                exports,
            };
            history_line_cause(alloc, object, text, number)
        }
        Err(fault) => no_cause(object, fault),
    }
}

/// The remark at the word that is the cause, or else at the line's first word.
fn told_form(
    alloc: Global,
    object: &[u8],
    text: &[u8],
    number: usize,
    behind_order: bool,
    cause: Option<Cause>,
) -> Result<Option<Remark>, AllocError>
    ensures { IfOk result (λ remark. IsHistoryTold text.now number (option_map cause_of cause) (option_map remark_of remark)) }
{
    match cause {
        Some(cause) => Ok(Some(Remark {
            place: place_of_spot(text, number, cause.spot),
            sentence: cause.sentence,
            hint: None,
        })),
        None => first_remark(alloc, object, text, number, behind_order),
    }
}

/// The remark at a line's first word.
fn first_remark(
    alloc: Global,
    object: &[u8],
    text: &[u8],
    number: usize,
    behind_order: bool,
) -> Result<Option<Remark>, AllocError>
    ensures { IfOk result (λ remark. IsHistoryTold text.now number None (option_map remark_of remark)) }
{
    let (begin, line) = script_line(text, number);
    let first = first_place(line);
    let sentence = first_sentence(alloc, object, text, number, behind_order)?;
    Ok(Some(Remark {
        place: begin + first,
        sentence,
        hint: None,
    }))
}
