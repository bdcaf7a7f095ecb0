//! Runs as texts: their records.

ghost use Rattle.std.specs.Prelude.{◌≡◌, Err, IfErr, IfOk, string_bytes};
ghost use Rattle.ob_object_compile.specs.Asked.{TellsAtOnce};
ghost use Rattle.ob_object_compile.specs.Compilation.{IsShort};
ghost use Rattle.ob_object_perform.specs.Performance.{IsRefusal};
ghost use Rattle.ob_object_perform.specs.Printed.{IsRecordPrinted};
ghost use Rattle.ob_object_perform.specs.Texts.{texts_of};

use crate::performing::{PerformFault, performed};
use crate::run_texts::Texts;
use ob_text_record::write_record;
use std::alloc::Global;

/// The text of the record of the run that texts make.
pub fn run_text(alloc: Global, texts: Texts<'_>) -> Result<String, PerformFault>
    ensures run { IfOk result (λ lines. IsRecordPrinted (texts_of texts.entry) (string_bytes lines)) }
    ensures refused { IfErr result (IsRefusal IsShort (texts_of texts.entry)) }
    ensures at_once { TellsAtOnce (texts_of texts.entry).asked (λ e. result ≡ Err (PerformFault.Compile e)) }
{
    let (checked, record) = performed(alloc, texts)?;
    Ok(write_record(alloc, &checked, &record)?)
}
