//! What is shown of a fault of a record.

ghost use Rattle.std.specs.Prelude.{IfOk, option_map, string_bytes};
ghost use Rattle.ob_explained_records.specs.ExplainedRecords.{IsRecordExplanation};
ghost use Rattle.ob_explained.specs.Sources.{source_of};

use crate::order_remark::order_remark;
use crate::record_remark::form_remark;
use ob_explained::module_explanation;
use ob_explained::named_texts::{Source, shown};
use ob_object_calls::VerifyFault;
use ob_object_compile::CompileFault;
use std::alloc::{AllocError, Global};

/// What is shown of a fault of a module and a record; `None` where the fault has no place in their texts and is none
/// of the opening.
pub fn record_explanation(
    alloc: Global,
    object: Source<'_>,
    record_file: Source<'_>,
    fault: VerifyFault,
) -> Result<Option<String>, AllocError>
    ensures { IfOk result (λ shown. IsRecordExplanation (source_of object.entry) (source_of record_file.entry) fault (option_map string_bytes shown)) }
{
    match fault {
        VerifyFault::Text(fault) => {
            module_explanation(alloc, object.name, object.text, CompileFault::Text(fault))
        }
        VerifyFault::Form(number) => {
            let remark = form_remark(alloc, object.text, record_file.text, number)?;
            shown(alloc, record_file, remark)
        }
        VerifyFault::Open(fault) => {
            module_explanation(alloc, object.name, object.text, CompileFault::Open(fault))
        }
        VerifyFault::Order(fault) => {
            let remark = order_remark(alloc, object.text, record_file.text, fault)?;
            shown(alloc, record_file, remark)
        }
        VerifyFault::NoMemory => Ok(None),
    }
}
