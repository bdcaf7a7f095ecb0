//! What is asked for of texts.

ghost use Rattle.ob_answer_files.specs.Reads.{IsBeginning};
ghost use Rattle.ob_object_compile.specs.View.{asked_of};
ghost use Rattle.obl0_c.specs.Asked.{IsObjectOf};

use ob_answer_files::file_reading::MODULE_BYTES;
use ob_object_compile::{Asked, Beginning};

/// The beginning of a module's text that shows whether it is too long.
pub(crate) fn beginning(module: &[u8]) -> &[u8]
    ensures { IsBeginning result.now «module».now }
{
    if module.len() > MODULE_BYTES {
        &module[..MODULE_BYTES]
    } else {
        module
    }
}

/// The object of a module that begins by its body.
pub(crate) fn object(module: &[u8], processes: usize, budget: u64) -> Asked<'_>
    ensures { IsObjectOf «module».now processes budget (asked_of result) }
{
    Asked {
        text: beginning(module),
        processes,
        budget,
        beginning: Beginning::Body,
    }
}
