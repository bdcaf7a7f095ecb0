//! What is wrong in a line of a script, in a sentence.

ghost use Rattle.std.specs.Prelude.{◌≡◌, None, Some, IfOk, IfSome, option_map};
ghost use Rattle.ob_explain_sentences.specs.Places.{line_from};
ghost use Rattle.ob_explain_sentences.specs.Remarks.{remark_of};
ghost use Rattle.ob_explained.specs.Marks.{IsMark, MarksForm, MarksWord};
ghost use Rattle.ob_explained.specs.ScriptPlaces.{first_place, form_place, in_line, line_begin, second_place};
ghost use Rattle.ob_explained.specs.ScriptRemarks.{line_sentence, script_remark};

use crate::script_place::{
    first_place, first_word, form_place, is_process, script_line, second_place,
};
use ob_explain_arguments::other_lines::{name_sentence, process_sentence};
use ob_explain_sentences::remark::Remark;
use ob_text_scripts::ScriptFault;
use std::alloc::{AllocError, Global};

/// The remark on a fault of a script; `None` for want of memory.
pub fn script_remark(
    alloc: Global,
    script: &[u8],
    fault: ScriptFault,
) -> Result<Option<Remark>, AllocError>
    ensures remark { IfOk result (λ remark. option_map remark_of remark ≡ script_remark script.now fault) }

    // It stands at a word of the line, by what stands between blanks there.
    ensures marked { IfOk result (λ remark. IfSome remark (λ r. IsMark script.now fault r.place)) }
{
    match fault {
        ScriptFault::Form(line) => told(
            alloc,
            place_of_form(script, line),
            form_sentence(script, line),
        ),
        ScriptFault::Procedure(line) => told(
            alloc,
            place_of_name(script, line),
            "a call names a procedure that the module exports, which has a * behind its name there",
        ),
        ScriptFault::Arguments(line) => told(
            alloc,
            place_of_name(script, line),
            "a call has a value for each parameter but those with VAR: a number from -2147483648 to 2147483647, or TRUE or FALSE",
        ),
        ScriptFault::Process(line) => told(
            alloc,
            place_of_process(script, line),
            "the processes of a script are 0 to 15",
        ),
        ScriptFault::NoMemory => Ok(None),
    }
}

/// What is said of the line of a number that is no call.
fn form_sentence(script: &[u8], line: usize) -> &'static str
    ensures { result.now ≡ line_sentence (line_from script.now (line_begin script.now line)) }
{
    let (_begin, text) = script_line(script, line);
    line_sentence(text)
}

/// What is said of a line that is no call.
fn line_sentence(line: &[u8]) -> &'static str
    ensures { result.now ≡ line_sentence line.now }
{
    if is_process(first_word(line)) {
        name_sentence(first_word(&line[second_place(line)..]))
    } else {
        process_sentence(first_word(line))
    }
}

/// Where a line is no call any more.
fn place_of_form(script: &[u8], line: usize) -> usize
    ensures place { result ≡ in_line form_place script.now line }
    ensures marked { MarksForm script.now line result }
{
    let (begin, text) = script_line(script, line);
    begin + form_place(text)
}

/// Where the name of a line's procedure stands.
pub(crate) fn place_of_name(script: &[u8], line: usize) -> usize
    ensures place { result ≡ in_line second_place script.now line }
    ensures marked { MarksWord script.now line 1 result }
{
    let (begin, text) = script_line(script, line);
    begin + second_place(text)
}

/// Where a line's process stands.
fn place_of_process(script: &[u8], line: usize) -> usize
    ensures place { result ≡ in_line first_place script.now line }
    ensures marked { MarksWord script.now line 0 result }
{
    let (begin, text) = script_line(script, line);
    begin + first_place(text)
}

/// A remark without a hint.
fn told(alloc: Global, place: usize, sentence: &'static str) -> Result<Option<Remark>, AllocError>
    ensures remark { IfOk result (λ remark. option_map remark_of remark ≡ Some (record { place = place; sentence = sentence.now; hint = None })) }
    ensures placed { IfOk result (λ remark. IfSome remark (λ r. r.place ≡ place)) }
{
    Ok(Some(Remark {
        place,
        sentence: String::from_str(alloc, sentence)?,
        hint: None,
    }))
}
