//! Runs over a module's tree as texts: their records.

ghost use Rattle.std.specs.Prelude.{◌≡◌, Err, IfErr, IfOk, string_bytes};
ghost use Rattle.ob_object_compile.specs.Asked.{TellsAtOnce};
ghost use Rattle.ob_object_compile.specs.Compilation.{IsAny};
ghost use Rattle.ob_object_perform.specs.Performance.{IsRefusal};
ghost use Rattle.ob_object_perform.specs.Printed.{IsPrintedOf};
ghost use Rattle.ob_object_perform.specs.Texts.{texts_of};
ghost use Rattle.ob_object_perform.specs.TreeRuns.{IsPrintedOfCode};

use crate::tree_performing::performed_tree;
use crate::{PerformFault, Texts};
use ob_text_record::write_record;
use std::alloc::Global;

/// The text of the record of the run that texts make over the module's tree.
pub fn run_tree_text(alloc: Global, texts: Texts<'_>) -> Result<String, PerformFault>
    ensures run { IfOk result (λ lines. IsPrintedOf IsAny (texts_of texts.entry) (string_bytes lines)) }

    // What is printed of a run over code are the same bytes.
    ensures same { IfOk result (λ lines. IsPrintedOfCode (texts_of texts.entry) (string_bytes lines)) }
    ensures refused { IfErr result (IsRefusal IsAny (texts_of texts.entry)) }
    ensures at_once { TellsAtOnce (texts_of texts.entry).asked (λ e. result ≡ Err (PerformFault.Compile e)) }
{
    let (object, record) = performed_tree(alloc, texts)?;
    Ok(write_record(alloc, object.checked(), &record)?)
}
