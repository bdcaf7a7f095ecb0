//! What is wrong with a call of a script that names no export, or whose values don't fit, in a sentence.

ghost use Rattle.std.specs.Prelude.{◌≡◌, ◌⊎◌, suc, IfOk, IfSome, map, option_map};
ghost use Rattle.ob_check.specs.CheckedText.{IsNumberedText, TellsTextMemoryApart, is_text_memory};
ghost use Rattle.ob_explain_sentences.specs.Places.{line_from};
ghost use Rattle.ob_explain_sentences.specs.Remarks.{remark_of};
ghost use Rattle.ob_explain_arguments.specs.Calls.{told_of};
ghost use Rattle.ob_explained.specs.Marks.{IsMark, IsToldMark, MarksBehindProcess, MarksWord};
ghost use Rattle.ob_explained.specs.CallRemarks.{IsCallRemark, IsExportsRemark, IsScriptRemark, told_remark};
ghost use Rattle.ob_explained.specs.ScriptPlaces.{in_line, line_begin, told_place, word_place};
ghost use Rattle.ob_interface.specs.View.{signature_of};
ghost use Rattle.ob_text_words.specs.Words.{words};
ghost use Rattle.ob_typing.specs.ModuleText.{IsModule};
ghost use Rattle.ob_typing.specs.Program.{Program};

use crate::script_place::{script_line, value_place};
use crate::script_remark::{place_of_name, script_remark};
use ob_check::TextFault;
use ob_check::module_text::checked_text;
use ob_explain_arguments::call_line::{Told, told_call};
use ob_explain_sentences::remark::Remark;
use ob_interface::export::Export;
use ob_text_scripts::ScriptFault;
use ob_text_words::words::words_of;
use std::alloc::{AllocError, Global};

/// The remark on a fault of a script for the exports of a module; `None` for want of memory.
#[tactic(auto, using(crate::proofs::Marked::as_told))]
pub fn calls_remark(
    alloc: Global,
    text: &[u8],
    script: &[u8],
    fault: ScriptFault,
) -> Result<Option<Remark>, AllocError>
    ensures remark { IfOk result (λ remark. IsScriptRemark text.now script.now fault (option_map remark_of remark)) }

    // It stands at a word of the line, by what stands between blanks there.
    ensures marked { IfOk result (λ remark. IfSome remark (λ r. IsToldMark script.now fault r.place)) }
{
    match fault {
        ScriptFault::Procedure(line) => call_remark(alloc, text, script, line, fault),
        ScriptFault::Arguments(line) => call_remark(alloc, text, script, line, fault),
        _ => script_remark(alloc, script, fault),
    }
}

/// The remark on the call in a line of a script, which has this fault.
fn call_remark(
    alloc: Global,
    text: &[u8],
    script: &[u8],
    line: usize,
    fault: ScriptFault,
) -> Result<Option<Remark>, AllocError>
    ensures remark { IfOk result (λ remark. IsCallRemark text.now script.now line fault (option_map remark_of remark)) }
    ensures marked { IfOk result (λ remark. IfSome remark (λ r. MarksBehindProcess script.now line r.place ⊎ IsMark script.now fault r.place)) }
{
    match checked_text(alloc, text) {
        Ok(checked) => exports_remark(alloc, text, checked.exports(), script, line, fault),
        Err(text_fault) => no_exports(alloc, text, script, line, fault, text_fault),
    }
}

/// The remark where the text is no module.
#[tactic(auto, using(crate::proofs::Marked::by_itself))]
fn no_exports(
    alloc: Global,
    text: &[u8],
    script: &[u8],
    line: usize,
    fault: ScriptFault,
    text_fault: TextFault,
) -> Result<Option<Remark>, AllocError>
    requires none { IsNumberedText text_fault → (program : Program) → IsModule text.now program → ⊥ }
    requires apart { TellsTextMemoryApart text_fault }
    ensures remark { IfOk result (λ remark. IsCallRemark text.now script.now line fault (option_map remark_of remark)) }
    ensures marked { IfOk result (λ remark. IfSome remark (λ r. MarksBehindProcess script.now line r.place ⊎ IsMark script.now fault r.place)) }
{
    if is_memory(text_fault) {
        Err(AllocError)
    } else {
        script_remark(alloc, script, fault)
    }
}

fn is_memory(fault: TextFault) -> bool
    ensures { result ≡ is_text_memory fault }
{
    matches!(fault, TextFault::NoMemory)
}

/// The remark where these are the exports.
fn exports_remark(
    alloc: Global,
    text: &[u8],
    exports: &[Export],
    script: &[u8],
    line: usize,
    fault: ScriptFault,
) -> Result<Option<Remark>, AllocError>
    ensures remark { IfOk result (λ remark. IsExportsRemark text.now (map signature_of exports.now) script.now line fault (option_map remark_of remark)) }
    ensures marked { IfOk result (λ remark. IfSome remark (λ r. MarksBehindProcess script.now line r.place ⊎ IsMark script.now fault r.place)) }
{
    let words = line_words(alloc, script, line)?;
    let told = told_call(alloc, text, exports, &words)?;
    told_remark(alloc, script, line, fault, told)
}

/// The words of a line.
fn line_words(alloc: Global, script: &[u8], line: usize) -> Result<Vec<&[u8]>, AllocError>
    ensures { IfOk result (λ ws. map (λ w. w.now) ws.items ≡ words (line_from script.now (line_begin script.now line))) }
{
    let (_begin, bytes) = script_line(script, line);
    words_of(alloc, bytes)
}

/// The remark by what is told of the line.
#[tactic(auto, using(crate::proofs::Marked::by_itself))]
fn told_remark(
    alloc: Global,
    script: &[u8],
    line: usize,
    fault: ScriptFault,
    told: Option<Told>,
) -> Result<Option<Remark>, AllocError>
    ensures remark { IfOk result (λ remark. option_map remark_of remark ≡ told_remark script.now line fault (option_map told_of told)) }
    ensures marked { IfOk result (λ remark. IfSome remark (λ r. MarksBehindProcess script.now line r.place ⊎ IsMark script.now fault r.place)) }
{
    match told {
        Some(told) => Ok(Some(Remark {
            place: told_place(script, line, told.value),
            sentence: told.sentence,
            hint: None,
        })),
        None => script_remark(alloc, script, fault),
    }
}

/// Where the value of a number stands, or the name where there is no number.
fn told_place(script: &[u8], line: usize, value: Option<usize>) -> usize
    ensures place { result ≡ in_line (told_place value) script.now line }
    ensures marked { MarksBehindProcess script.now line result }
{
    match value {
        Some(number) => place_of_value(script, line, number),
        None => place_of_name(script, line),
    }
}

/// Where the value of a number stands in a line, counted from 0.
fn place_of_value(script: &[u8], line: usize, number: usize) -> usize
    ensures place { result ≡ in_line (word_place (suc (suc number))) script.now line }
    ensures marked { MarksWord script.now line (suc (suc number)) result }
{
    let (begin, bytes) = script_line(script, line);
    begin + value_place(bytes, number)
}
