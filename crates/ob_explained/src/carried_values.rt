//! What is shown of a fault of values that are to be carried over.

ghost use Rattle.std.specs.Prelude.{IfOk, IfSome, option_map};
ghost use Rattle.ob_explain_sentences.specs.Remarks.{remark_of};
ghost use Rattle.ob_explained.specs.Marks.{MarksWord};
ghost use Rattle.ob_explained.specs.ExplainedValues.{ExplainsCarry, ExplainsValues};
ghost use Rattle.ob_explained.specs.ValueMarks.{IsAtLine, IsAtValue, IsCarryRemark, IsValuesRemark};

use crate::Source;
use crate::named_texts::shown;
use crate::script_place::{first_place, script_line, word_place};
use crate::value_line::value_line;
use ob_carry::carrying::CarryFault;
use ob_explain_arguments::first_line::title_sentence;
use ob_explain_sentences::remark::Remark;
use ob_text_values_reading::ValuesFault;
use ob_text_values_reading::comments::said_number;
use std::alloc::{AllocError, Global};

/// The words of a value's line in which its name and the value stand, counted from 0.
const NAME: usize = 1;

const VALUE: usize = 2;

/// What is shown of a fault of the values of a record that are carried over to a module: in the line of the value, the name that
/// is none of the module's variables, or the value that is none of its variable's type. `None` for want of memory.
pub fn carry_explanation(
    alloc: Global,
    record: Source<'_>,
    fault: CarryFault,
) -> Result<Option<String>, AllocError>
    ensures { IfOk result (ExplainsCarry record.entry fault) }
{
    let remark = carry_remark(alloc, record.text, fault)?;
    shown(alloc, record, remark)
}

/// What is shown of a fault for which a record tells no values: the line that may not stand there. `None` for want of memory.
pub fn values_explanation(
    alloc: Global,
    record: Source<'_>,
    fault: ValuesFault,
) -> Result<Option<String>, AllocError>
    ensures { IfOk result (ExplainsValues record.entry fault) }
{
    let remark = values_remark(alloc, record.text, fault)?;
    shown(alloc, record, remark)
}

/// The remark on a value that is not carried over; `None` for want of memory.
fn carry_remark(alloc: Global, text: &[u8], fault: CarryFault) -> Result<Option<Remark>, AllocError>
    ensures { IfOk result (λ remark. IsCarryRemark text.now fault (option_map remark_of remark)) }
{
    match fault {
        CarryFault::Unknown(position) => value_remark(
            alloc,
            text,
            position,
            NAME,
            "the module has no variable of this name; each value is carried over to the variable of its name",
        ),
        CarryFault::Unfit(position) => value_remark(
            alloc,
            text,
            position,
            VALUE,
            "this is no value of the variable's type; an array has the same length, and a record the same fields in the same order",
        ),
        CarryFault::NoMemory => Ok(None),
    }
}

/// The remark at a word of the line in which the value at a position stands, if there is that line.
fn value_remark(
    alloc: Global,
    text: &[u8],
    position: usize,
    word: usize,
    sentence: &str,
) -> Result<Option<Remark>, AllocError>
    ensures { IfOk result (λ remark. IsAtValue text.now position word (option_map remark_of remark)) }
{
    match value_line(text, position) {
        Some(number) => Ok(Some(Remark {
            place: place_of_word(text, number, word),
            sentence: String::from_str(alloc, sentence)?,
            hint: None,
        })),
        None => Ok(None),
    }
}

/// Where the word of a number stands in a line, counted from 0.
fn place_of_word(text: &[u8], number: usize, word: usize) -> usize
    ensures { MarksWord text.now number word result }
{
    let (begin, line) = script_line(text, number);
    begin + word_place(line, word)
}

/// The remark on a line that may not stand in a record that tells values; `None` for want of memory.
fn values_remark(
    alloc: Global,
    text: &[u8],
    fault: ValuesFault,
) -> Result<Option<Remark>, AllocError>
    ensures { IfOk result (λ remark. IsValuesRemark text.now fault (option_map remark_of remark)) }
{
    match fault {
        ValuesFault::Form(number) => line_remark(alloc, text, number),
        ValuesFault::NoMemory => Ok(None),
    }
}

/// The remark at the first word of a line.
fn line_remark(alloc: Global, text: &[u8], number: usize) -> Result<Option<Remark>, AllocError>
    ensures { IfOk result (λ remark. IsAtLine text.now number (option_map remark_of remark)) }
{
    let (begin, line) = script_line(text, number);
    let first = first_place(line);
    let sentence = line_sentence(said_number(text, number), &line[first..]);
    Ok(Some(Remark {
        place: begin + first,
        sentence: String::from_str(alloc, sentence)?,
        hint: None,
    }))
}

/// What stands in the line of a number among those that are no remarks, by what it has from its first word on.
fn line_sentence(number: usize, from: &[u8]) -> &'static str {
    if number == 1 {
        title_sentence(from)
    } else {
        "behind V stand a variable's name, each one once, and its value, as V x 1, V a [1,2] or V r {f=1,g=TRUE}"
    }
}
