//! What is said of a fault of a module's text.

ghost use Rattle.std.specs.Prelude.{IfOk, option_map};
ghost use Rattle.ob_explain_sentences.specs.Remarks.{remark_of};
ghost use Rattle.ob_slips.specs.Remarks.{IsTextRemark};

use ob_check::TextFault;
use ob_diagnosis::module_remark::{check_remark, parse_remark, scan_remark};
use ob_explain_sentences::remark::Remark;
use std::alloc::{AllocError, Global};

/// The remark on a fault of a module's text; `None` for want of memory.
pub fn text_remark(
    alloc: Global,
    text: &[u8],
    fault: TextFault,
) -> Result<Option<Remark>, AllocError>
    ensures { IfOk result (λ remark. IsTextRemark text.now fault (option_map remark_of remark)) }
{
    match fault {
        TextFault::Scan(fault) => scan_remark(alloc, text, fault),
        TextFault::Parse(fault) => parse_remark(alloc, text, fault),
        TextFault::Check(fault) => check_remark(alloc, text, fault),
        TextFault::NoMemory => Ok(None),
    }
}
