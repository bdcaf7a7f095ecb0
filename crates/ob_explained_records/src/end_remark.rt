//! The remark on a call that can't have ended as it did.

ghost use Rattle.std.specs.Prelude.{◌≡◌, IfOk, option_map};
ghost use Rattle.ob_explain_sentences.specs.Remarks.{remark_of};
ghost use Rattle.ob_explained.specs.Marks.{MarksWord};
ghost use Rattle.ob_explained_records.specs.ExplainedHistories.{IsEndRemark};

use crate::end_line::end_line;
use crate::end_sentence::end_sentence;
use ob_explain_sentences::remark::Remark;
use ob_explained::script_place::{script_line, second_place};
use ob_object_search::Search;
use std::alloc::{AllocError, Global};
use wf_history::CallId;

/// The remark at the name of a call in the line of its end; `None` where it ends in no line.
pub(crate) fn end_remark(
    alloc: Global,
    object: &[u8],
    text: &[u8],
    id: CallId,
    search: &Search,
) -> Result<Option<Remark>, AllocError>
    ensures { IfOk result (λ remark. IsEndRemark text.now id (option_map remark_of remark)) }
{
    let Some(number) = end_line(alloc, text, id)? else {
        return Ok(None);
    };
    let sentence = end_sentence(alloc, object, text, id, search)?;
    Ok(Some(Remark {
        place: name_place(text, number),
        sentence,
        hint: None,
    }))
}

/// Where the second word of a line stands.
fn name_place(text: &[u8], number: usize) -> usize
    ensures { MarksWord text.now number 1 result }
{
    let (begin, line) = script_line(text, number);
    begin + second_place(line)
}
