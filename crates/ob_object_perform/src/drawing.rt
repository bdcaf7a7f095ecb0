//! Runs as pictures.

ghost use Rattle.std.specs.Prelude.{◌≡◌, ◌≤◌, Err, IfErr, IfOk, OnOk, string_bytes};
ghost use Rattle.ob_checked.specs.CheckedModule.{program_in};
ghost use Rattle.ob_object_compile.specs.Asked.{TellsAtOnce};
ghost use Rattle.ob_object_compile.specs.Compilation.{IsShort};
ghost use Rattle.ob_object_perform.specs.Performance.{IsRefusal};
ghost use Rattle.ob_object_perform.specs.Pictured.{IsDrawRefusal, IsPicturePrinted, IsWithMakers};
ghost use Rattle.ob_object_perform.specs.Texts.{texts_of};
ghost use Rattle.ob_text_record.specs.Record.{record_of};

use crate::perform_running::run_with_makers;
use crate::performing::{PerformFault, read_texts};
use crate::run_texts::Texts;
use ob_checked::checked::Checked;
use ob_interface::MOST_PROCESSES;
use ob_picture::draw;
use ob_picture_chart::{CallRange, PictureFault, seen_moments};
use ob_text_record::Record;
use std::alloc::{AllocError, Global};
use thiserror::Error;

/// Why there is no picture of a run.
#[derive(Clone, Copy, Debug, Error)]
pub enum DrawFault {
    /// The texts have no run, or memory is wanting.
    #[error("{0}")]
    Run(PerformFault),
    /// I1 or I2: the run has no calls of the range, or more than a picture.
    #[error("{0}")]
    Calls(PictureFault),
}

impl From<PerformFault> for DrawFault {
    ghost use Rattle.std.specs.Prelude.{◌≡◌};
    ghost use Rattle.ob_object_perform.specs.declared.drawing.DrawFault.TheVariants as Faults;

    ghost from_gives = { λ e f. f ≡ Faults.Run e };

    fn from(fault: PerformFault) -> DrawFault {
        DrawFault::Run(fault)
    }
}

impl From<PictureFault> for DrawFault {
    ghost use Rattle.std.specs.Prelude.{◌≡◌};
    ghost use Rattle.ob_object_perform.specs.Pictured.{of_picture};

    ghost from_gives = { λ e f. f ≡ of_picture e };

    fn from(fault: PictureFault) -> DrawFault {
        match fault {
            PictureFault::NoMemory => DrawFault::Run(PerformFault::NoMemory),
            other => DrawFault::Calls(other),
        }
    }
}

impl From<AllocError> for DrawFault {
    ghost use Rattle.std.specs.Prelude.{◌≡◌};
    ghost use Rattle.ob_object_perform.specs.declared.drawing.DrawFault.TheVariants as Faults;
    ghost use Rattle.ob_object_perform.specs.declared.performing.PerformFault.TheVariants as Perform;

    ghost from_gives = { λ _ f. f ≡ Faults.Run Perform.NoMemory };

    fn from(_: AllocError) -> DrawFault {
        DrawFault::Run(PerformFault::NoMemory)
    }
}

/// The picture of the calls of a range of the run that texts make, or of all: an SVG.
pub fn draw_text(
    alloc: Global,
    texts: Texts<'_>,
    calls: Option<CallRange>,
) -> Result<String, DrawFault>
    ensures picture { IfOk result (λ lines. IsPicturePrinted (texts_of texts.entry) calls (string_bytes lines)) }
    ensures refused { IfErr result (IsDrawRefusal (texts_of texts.entry) calls) }
    ensures at_once { TellsAtOnce (texts_of texts.entry).asked (λ e. result ≡ Err (DrawFault.Run (PerformFault.Compile e))) }
{
    let (checked, record, makers) = with_makers(alloc, texts)?;
    let moments = seen_moments(alloc, record.history.events(), &makers)?;
    let processes = texts.asked.processes;
    Ok(draw(
        alloc,
        checked.exports(),
        processes,
        &moments,
        &record.order,
        calls,
    )?)
}

/// The record of a run, with the checked module, and of each event the process whose step showed it.
fn with_makers(
    alloc: Global,
    texts: Texts<'_>,
) -> Result<(Checked, Record, Vec<usize>), PerformFault>
    ensures run { IfOk result (λ r. IsWithMakers (texts_of texts.entry) (program_in r.0) (record_of r.1) r.2.items) }
    ensures few { OnOk result (texts.entry.asked.processes ≤ MOST_PROCESSES) }
    ensures refused { IfErr result (IsRefusal IsShort (texts_of texts.entry)) }
    ensures at_once { TellsAtOnce (texts_of texts.entry).asked (λ e. result ≡ Err (PerformFault.Compile e)) }
{
    let (object, calls, items) = read_texts(alloc, texts)?;
    Ok(run_with_makers(alloc, object, calls, items)?)
}
