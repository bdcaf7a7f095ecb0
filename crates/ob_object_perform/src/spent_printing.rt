//! Runs as texts: their records, and the calls that ended.

ghost use Rattle.std.specs.Prelude.{◌≡◌, ◌<◌, ◌^◌, Err, IfErr, IfOk, length, string_bytes};
ghost use Rattle.ob_checked.specs.CheckedModule.{program_in};
ghost use Rattle.ob_object_compile.specs.Asked.{TellsAtOnce};
ghost use Rattle.ob_object_compile.specs.Compilation.{IsShort};
ghost use Rattle.ob_object_perform.specs.Performance.{IsRefusal};
ghost use Rattle.ob_object_perform.specs.Texts.{texts_of};
ghost use Rattle.ob_text_record.specs.Record.{record_of};
ghost use Rattle.ob_object_perform.specs.Spent.{IsPrintedWithSteps, IsWithSteps};

use crate::performing::read_texts;
use crate::spent_lines::steps_text;
use crate::spent_running::run_with_steps;
use crate::{PerformFault, Texts};
use ob_checked::checked::Checked;
use ob_text_record::{Record, write_record};
use std::alloc::Global;
use wf_history::History;
use wf_play::EndedCall;

/// The text of the record of the run that texts make, and a line for each call that ended in it, in the order of their ends, with its
/// own steps.
pub fn run_text_with_steps(
    alloc: Global,
    texts: Texts<'_>,
) -> Result<(String, String), PerformFault>
    ensures run { IfOk result (λ r. IsPrintedWithSteps (texts_of texts.entry) (string_bytes r.0) (string_bytes r.1)) }
    ensures refused { IfErr result (IsRefusal IsShort (texts_of texts.entry)) }
    ensures at_once { TellsAtOnce (texts_of texts.entry).asked (λ e. result ≡ Err (PerformFault.Compile e)) }
{
    let (checked, record, ended) = with_steps(alloc, texts)?;
    count_events(&record.history);
    let lines = write_record(alloc, &checked, &record)?;
    let steps = steps_text(alloc, ended.as_slice())?;
    Ok((lines, steps))
}

/// Nothing happens: a history in memory has fewer events than numbers of its length.
fn count_events(history: &History)
    ensures { length history.now < 2 ^ 64 }
{
    let _ = history.len();
}

/// The record of a run, with the checked module, and each call that ended, with its own steps.
fn with_steps(
    alloc: Global,
    texts: Texts<'_>,
) -> Result<(Checked, Record, Vec<EndedCall>), PerformFault>
    ensures run { IfOk result (λ r. IsWithSteps (texts_of texts.entry) (program_in r.0) (record_of r.1) r.2.items) }
    ensures refused { IfErr result (IsRefusal IsShort (texts_of texts.entry)) }
    ensures at_once { TellsAtOnce (texts_of texts.entry).asked (λ e. result ≡ Err (PerformFault.Compile e)) }
{
    let (object, calls, items) = read_texts(alloc, texts)?;
    Ok(run_with_steps(alloc, object, calls, items)?)
}
