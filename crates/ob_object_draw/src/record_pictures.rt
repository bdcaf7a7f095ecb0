//! Records as pictures.

ghost use Rattle.std.specs.Prelude.{◌≡◌, ◌<◌, ◌≤◌, Err, IfErr, IfOk, length, option_map, string_bytes};
ghost use Rattle.ob_checked.specs.CheckedModule.{program_in};
ghost use Rattle.ob_interface.specs.Processes.{most_processes};
ghost use Rattle.ob_object_draw.specs.RecordPictures.{HasNoPicture, IsDrawRecordFault, IsDrawn, IsNumbered, IsRecordPicture, TellsMemoryApart, moments_of};
ghost use Rattle.ob_checked.specs.Exports.{signatures};
ghost use Rattle.ob_picture_chart.specs.Charts.{begun};
ghost use Rattle.ob_picture_chart.specs.Faults.{IsRangeFault};
ghost use Rattle.ob_picture_chart.specs.ChartView.{mark_of};
ghost use Rattle.ob_text_reading.specs.RecordLines.{IsRecord, IsRecordFault, Told};
ghost use Rattle.ob_text_reading.specs.RecordContents.{told_of};

use crate::marking::{mark_of, marked_call};
use ob_check::module_text::{TextFault, checked_text};
use ob_checked::checked::Checked;
use ob_mean::openings::OpenFault;
use ob_picture::picture;
use ob_picture_chart::{CallRange, Mark, PictureFault, chart_of, placed_moments};
use ob_scan::ScanFault;
use ob_scan::scanner::LONGEST_TEXT;
use ob_text_reading::{ReadRecord, RecordFault, read_record};
use std::alloc::{AllocError, Global};
use thiserror::Error;

/// Why there is no picture of a record: the first fault, in the order of the variants.
#[derive(Clone, Copy, Debug, Error)]
pub enum DrawRecordFault {
    /// The module's text is none.
    #[error("{0}")]
    Text(TextFault),
    /// F1: the record's line is missing, or not of its form or place. Lines count from 1.
    #[error("F1 line {0}")]
    Form(usize),
    /// O2: the module has no opening state, and no values were carried over.
    #[error("{0}")]
    Open(OpenFault),
    /// I1 or I2: the record has no calls of the range, or more than a picture.
    #[error("{0}")]
    Calls(PictureFault),
    /// Want of memory.
    #[error("NoMemory")]
    NoMemory,
}

impl From<TextFault> for DrawRecordFault {
    ghost use Rattle.std.specs.Prelude.{◌≡◌};
    ghost use Rattle.ob_object_draw.specs.RecordPictures.{of_text};

    ghost from_gives = { λ e f. f ≡ of_text e };

    fn from(fault: TextFault) -> DrawRecordFault {
        match fault {
            TextFault::NoMemory => DrawRecordFault::NoMemory,
            other => DrawRecordFault::Text(other),
        }
    }
}

impl From<RecordFault> for DrawRecordFault {
    ghost use Rattle.std.specs.Prelude.{◌≡◌};
    ghost use Rattle.ob_object_draw.specs.RecordPictures.{of_record};

    ghost from_gives = { λ e f. f ≡ of_record e };

    fn from(fault: RecordFault) -> DrawRecordFault {
        match fault {
            RecordFault::Form(line) => DrawRecordFault::Form(line),
            RecordFault::NoMemory => DrawRecordFault::NoMemory,
        }
    }
}

impl From<PictureFault> for DrawRecordFault {
    ghost use Rattle.std.specs.Prelude.{◌≡◌};
    ghost use Rattle.ob_object_draw.specs.RecordPictures.{of_picture};

    ghost from_gives = { λ e f. f ≡ of_picture e };

    fn from(fault: PictureFault) -> DrawRecordFault {
        match fault {
            PictureFault::NoMemory => DrawRecordFault::NoMemory,
            other => DrawRecordFault::Calls(other),
        }
    }
}

impl From<AllocError> for DrawRecordFault {
    ghost use Rattle.std.specs.Prelude.{◌≡◌};
    ghost use Rattle.ob_object_draw.specs.declared.record_pictures.DrawRecordFault.TheVariants as Faults;

    ghost from_gives = { λ _ f. f ≡ Faults.NoMemory };

    fn from(_: AllocError) -> DrawRecordFault {
        DrawRecordFault::NoMemory
    }
}

/// The picture of the calls of a range of a record of a module's object, or of all: an SVG. When calls took effect is told by
/// the record's order alone, and by whose step isn't told. Where that order is no legal one, the call of its fault is marked.
pub fn draw_record_text(
    alloc: Global,
    module: &[u8],
    record: &[u8],
    calls: Option<CallRange>,
) -> Result<String, DrawRecordFault>
    ensures picture { IfOk result (λ lines. IsRecordPicture «module».now «record».now calls (string_bytes lines)) }
    ensures fault { IfErr result (IsDrawRecordFault «module».now «record».now calls) }

    // With a fault that has a number the texts have no such picture.
    ensures none { IfErr result (λ e. IsNumbered e → HasNoPicture «module».now «record».now calls) }

    // Want of memory is told by its own variant alone.
    ensures memory { IfErr result TellsMemoryApart }

    // A module's text over the scanner's bound is refused, whatever it says.
    ensures too_long { LONGEST_TEXT < length «module».now → result ≡ Err (DrawRecordFault.Text (TextFault.Scan ScanFault.TooLong)) }
{
    let marked = marked_call(alloc, module, record)?;
    let checked = checked_text(alloc, module)?;
    let read = read_few(alloc, &checked, record)?;
    let mark = mark_of(&marked);
    Ok(drawn(alloc, &checked, &read, mark, calls)?)
}

/// The picture of what a record tells, with a mark.
fn drawn(
    alloc: Global,
    checked: &Checked,
    read: &ReadRecord,
    mark: Option<Mark>,
    calls: Option<CallRange>,
) -> Result<String, PictureFault>
    requires { read.now.processes ≤ most_processes }
    ensures picture { IfOk result (λ text. IsDrawn (signatures (program_in checked.now)) (told_of read.now) (option_map mark_of mark.entry) calls (string_bytes text)) }
    ensures fault { IfErr result (IsRangeFault (length (begun (moments_of (told_of read.now)))) calls) }
{
    let moments = placed_moments(alloc, read.history.events(), &read.order)?;
    let mut chart = chart_of(alloc, read.processes, &moments, &read.order, calls)?;
    chart.mark = mark;
    Ok(picture(alloc, checked.exports(), &chart)?)
}

/// What a record tells, whose processes are no more than an object has.
fn read_few(alloc: Global, checked: &Checked, text: &[u8]) -> Result<ReadRecord, RecordFault>
    ensures record { IfOk result (λ r. IsRecord (program_in checked.now) text.now (told_of «r»)) }
    ensures alone { IfOk result (λ r. (other : Told) → IsRecord (program_in checked.now) text.now other → other ≡ told_of «r») }
    ensures few { IfOk result (λ r. r.processes ≤ most_processes) }
    ensures fault { IfErr result (λ e. IsRecordFault (program_in checked.now) text.now e) }
{
    let read = read_record(alloc, checked, text)?;
    Ok(read)
}
