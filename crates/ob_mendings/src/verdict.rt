//! What is wrong with a text, if anything is.

ghost use Rattle.std.specs.Prelude.{◌≡◌, IfOk};
ghost use Rattle.ob_check.specs.CheckedText.{is_text_memory};
ghost use Rattle.ob_mendings.specs.Verdicts.{IsVerdict};

use ob_check::TextFault;
use ob_check::module_text::checked_text;
use std::alloc::{AllocError, Global};

/// The fault of a text; `None` where it is a module.
pub fn verdict(alloc: Global, text: &[u8]) -> Result<Option<TextFault>, AllocError>
    ensures { IfOk result (IsVerdict text.now) }
{
    match checked_text(alloc, text) {
        Ok(_checked) => Ok(None),
        Err(fault) => {
            if is_memory(fault) {
                Err(AllocError)
            } else {
                Ok(Some(fault))
            }
        }
    }
}

fn is_memory(fault: TextFault) -> bool
    ensures { result ≡ is_text_memory fault }
{
    matches!(fault, TextFault::NoMemory)
}
