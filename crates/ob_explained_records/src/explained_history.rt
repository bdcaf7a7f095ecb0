//! What is shown of a fault of a history.

ghost use Rattle.std.specs.Prelude.{IfOk, option_map, string_bytes};
ghost use Rattle.ob_explained_records.specs.ExplainedHistories.{IsHistoryExplanation};
ghost use Rattle.ob_explained.specs.Sources.{source_of};

use crate::end_remark::end_remark;
use crate::history_remark::form_remark;
use ob_explained::module_explanation;
use ob_explained::named_texts::{Source, shown};
use ob_object_compile::CompileFault;
use ob_object_search::{Search, SearchFault};
use ob_text_words::numbers::push_number;
use std::alloc::{AllocError, Global};

/// What is shown of a fault of a module and a history of its object, as a search for a legal order tells it; `None` for want of memory,
/// and where the call of the fault ends in no line.
pub fn history_explanation(
    alloc: Global,
    object: Source<'_>,
    history_file: Source<'_>,
    search: &Search,
    fault: SearchFault,
) -> Result<Option<String>, AllocError>
    ensures { IfOk result (λ shown. IsHistoryExplanation (source_of object.entry) (source_of history_file.entry) fault (option_map string_bytes shown)) }
{
    match fault {
        SearchFault::Text(fault) => {
            module_explanation(alloc, object.name, object.text, CompileFault::Text(fault))
        }
        SearchFault::Form(number) => {
            let remark = form_remark(alloc, object.text, history_file.text, number)?;
            shown(alloc, history_file, remark)
        }
        SearchFault::Open(fault) => {
            module_explanation(alloc, object.name, object.text, CompileFault::Open(fault))
        }
        SearchFault::Illegal(id) => {
            let remark = end_remark(alloc, object.text, history_file.text, id, search)?;
            shown(alloc, history_file, remark)
        }
        SearchFault::TooMany => Ok(Some(too_many_text(alloc, search.most)?)),
        SearchFault::NoMemory => Ok(None),
    }
}

/// That there are more configurations than were to be looked at.
fn too_many_text(alloc: Global, most: usize) -> Result<String, AllocError> {
    let mut text = String::from_str(alloc, "X2\nthere are more than ")?;
    push_number(&mut text, most)?;
    text.push_str(
        " configurations of calls made and of states, and no more are looked at; behind --most stands how many may be\n",
    )?;
    Ok(text)
}
