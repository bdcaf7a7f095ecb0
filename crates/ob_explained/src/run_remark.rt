//! What is wrong in the scripts or in the schedule of a run, in a sentence.

ghost use Rattle.std.specs.Prelude.{◌≡◌, IfOk, IfSome, option_map, string_bytes};
ghost use Rattle.ob_explain_sentences.specs.Remarks.{at, remark_of};
ghost use Rattle.ob_explained.specs.Marks.{IsToldMark, MarksWord};
ghost use Rattle.ob_explained.specs.ScriptPlaces.{first_place, in_line};
ghost use Rattle.ob_explained.specs.ItemMarks.{IsItemMark, MarksItem};
ghost use Rattle.ob_explained.specs.RunRemarks.{IsAtItem, IsRunScriptRemark, IsScheduleRemark, long_item_sentence, processes_sentence};

use crate::call_remark::calls_remark;
use crate::item_place::{item_at, item_place};
use crate::script_place::{first_place, script_line};
use ob_explain_arguments::items::item_sentence;
use ob_explain_sentences::remark::Remark;
use ob_text_scripts::ScriptFault;
use ob_text_words::ScheduleFault;
use ob_text_words::numbers::push_number;
use std::alloc::{AllocError, Global};

/// The remark on a fault of the scripts of a run of n processes, for the exports of a module's text; `None` for want of memory.
pub fn run_script_remark(
    alloc: Global,
    n: usize,
    text: &[u8],
    scripts: &[u8],
    fault: ScriptFault,
) -> Result<Option<Remark>, AllocError>
    ensures remark { IfOk result (λ remark. IsRunScriptRemark n text.now scripts.now fault (option_map remark_of remark)) }

    // It stands at a word of the line, by what stands between blanks there.
    ensures marked { IfOk result (λ remark. IfSome remark (λ r. IsToldMark scripts.now fault r.place)) }
{
    match fault {
        ScriptFault::Process(line) => told(
            place_of_process(scripts, line),
            processes_sentence(alloc, n)?,
        ),
        fault => calls_remark(alloc, text, scripts, fault),
    }
}

/// Where a line's process stands.
fn place_of_process(scripts: &[u8], line: usize) -> usize
    ensures place { result ≡ in_line first_place scripts.now line }
    ensures marked { MarksWord scripts.now line 0 result }
{
    let (begin, text) = script_line(scripts, line);
    begin + first_place(text)
}

/// The remark on a fault of the schedule of a run of n processes; `None` for want of memory.
pub fn schedule_remark(
    alloc: Global,
    n: usize,
    schedule: &[u8],
    fault: ScheduleFault,
) -> Result<Option<Remark>, AllocError>
    ensures remark { IfOk result (λ remark. IsScheduleRemark n schedule.now fault (option_map remark_of remark)) }

    // It stands at the item, by what stands between line feeds and between blanks.
    ensures marked { IfOk result (λ remark. IfSome remark (λ r. IsItemMark schedule.now fault r.place)) }
{
    match fault {
        ScheduleFault::Form(item) => {
            let word = item_at(alloc, schedule, item)?;
            told_of_item(alloc, schedule, item, item_sentence(alloc, word)?)
        }
        ScheduleFault::Process(item) => {
            told_of_item(alloc, schedule, item, processes_sentence(alloc, n)?)
        }
        ScheduleFault::NoMemory => Ok(None),
    }
}

/// The remark on an item that stands for too many steps.
pub fn long_item_remark(
    alloc: Global,
    schedule: &[u8],
    item: usize,
) -> Result<Option<Remark>, AllocError>
    ensures remark { IfOk result (λ remark. IsAtItem schedule.now item long_item_sentence (option_map remark_of remark)) }
    ensures marked { IfOk result (λ remark. IfSome remark (λ r. MarksItem schedule.now item r.place)) }
{
    let sentence = String::from_str(
        alloc,
        "an item stands for at most 1000000 steps; write several items, or give the calls fewer turns",
    )?;
    told_of_item(alloc, schedule, item, sentence)
}

/// A remark at an item.
fn told_of_item(
    alloc: Global,
    schedule: &[u8],
    item: usize,
    sentence: String,
) -> Result<Option<Remark>, AllocError>
    ensures remark { IfOk result (λ remark. IsAtItem schedule.now item (string_bytes sentence) (option_map remark_of remark)) }
    ensures marked { IfOk result (λ remark. IfSome remark (λ r. MarksItem schedule.now item r.place)) }
{
    told(item_place(alloc, schedule, item)?, sentence)
}

/// Which processes there are.
fn processes_sentence(alloc: Global, n: usize) -> Result<String, AllocError>
    ensures { IfOk result (λ sentence. string_bytes sentence ≡ processes_sentence n) }
{
    if n == 1 {
        return String::from_str(alloc, "with -n 1 there is process 0 alone");
    }
    let mut sentence = String::from_str(alloc, "with -n ")?;
    push_number(&mut sentence, n)?;
    sentence.push_str(" the processes are 0 to ")?;
    push_number(&mut sentence, n.saturating_sub(1))?;
    Ok(sentence)
}

/// A remark without a hint.
fn told(place: usize, sentence: String) -> Result<Option<Remark>, AllocError>
    ensures remark { IfOk result (λ remark. option_map remark_of remark ≡ at place (string_bytes sentence)) }
    ensures placed { IfOk result (λ remark. IfSome remark (λ r. r.place ≡ place)) }
{
    Ok(Some(Remark {
        place,
        sentence,
        hint: None,
    }))
}
