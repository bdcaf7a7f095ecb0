//! Faults as people read them: at their places, or else by their lines.

ghost use Rattle.std.specs.Prelude.{◌≡◌, IfOk, option_map, string_bytes};
ghost use Rattle.ob_answer_explained.specs.CommandTexts.{named_source};
ghost use Rattle.ob_answer_explained.specs.Explains.{IsShownOr, IsValuesFaultTold};
ghost use Rattle.ob_explained.specs.ExplainedValues.{IsCarryExplanation};
ghost use Rattle.ob_answer_files.specs.ShownNames.{shown};
ghost use Rattle.ob_text_values_reading.specs.ReadValues.{SaysNone};

use crate::asked_texts::name_or_none;
use ob_answer_files::answered::{Answer, refused};
use ob_answer_files::shown_name::push_name;
use ob_carry::carrying::CarryFault;
use ob_explained::{Source, carry_explanation, values_explanation};
use ob_fault_lines::values_faults::values_fault_line;
use ob_interface::NoMemory;
use ob_text_values_reading::ValuesFault;
use std::alloc::{AllocError, Global};

/// A file's name as it is shown.
pub fn shown_name(alloc: Global, name: &str) -> Result<String, AllocError>
    ensures { IfOk result (λ text. string_bytes text ≡ shown name.now) }
{
    let mut text = String::new(alloc);
    push_name(&mut text, name)?;
    Ok(text)
}

/// The answer of what is shown of a fault, or else of its line.
pub fn shown_or(alloc: Global, told: Option<String>, line: String) -> Result<Answer, AllocError>
    ensures { IfOk result (λ a. IsShownOr (string_bytes line) (option_map string_bytes told) a) }
{
    match told {
        Some(text) => Ok(Answer::refused(alloc, 1, text)),
        None => refused(alloc, line),
    }
}

/// What is shown of a fault of the values of a record, of the name of its file, if it is named, and of its text.
pub(crate) fn carry_shown(
    alloc: Global,
    name: Option<&str>,
    record_text: &[u8],
    fault: CarryFault,
) -> Result<Option<String>, AllocError>
    ensures { IfOk result (λ told. IsCarryExplanation (named_source (option_map (λ n. n.now) name.entry) record_text.now) fault (option_map string_bytes told)) }
{
    let shown = shown_name(alloc, name_or_none(name))?;
    let source = Source {
        name: &shown,
        text: record_text,
    };
    carry_explanation(alloc, source, fault)
}

/// The answer to a record that tells no values, whose faults are shown or not.
pub fn values_wrong(
    alloc: Global,
    is_shown: bool,
    name: Option<&str>,
    record_text: &[u8],
    fault: ValuesFault,
) -> Result<Answer, NoMemory>
    ensures fault { IfOk result (λ a. IsValuesFaultTold is_shown (named_source (option_map (λ n. n.now) name.entry) record_text.now) fault a) }
    ensures memory { IfOk result (λ _. SaysNone fault) }
{
    if let ValuesFault::NoMemory = fault {
        return Err(NoMemory);
    }
    let line = values_fault_line(alloc, fault)?;
    if !is_shown {
        return Ok(refused(alloc, line)?);
    }
    let shown = shown_name(alloc, name_or_none(name))?;
    let source = Source {
        name: &shown,
        text: record_text,
    };
    let told = values_explanation(alloc, source, fault)?;
    Ok(shown_or(alloc, told, line)?)
}
