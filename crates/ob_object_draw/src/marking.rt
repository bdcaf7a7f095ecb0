//! Which call is marked in the picture of a record, and why.

ghost use Rattle.std.specs.Prelude.{◌≡◌, ◌<◌, Err, IfErr, IfOk, length, option_map};
ghost use Rattle.ob_object_draw.specs.Marks.{IsCallMarked, IsOf, id_of, marks_of, of_verify};
ghost use Rattle.ob_object_draw.specs.RecordPictures.{IsRefusal};
ghost use Rattle.ob_picture_chart.specs.ChartView as View;

use crate::record_pictures::DrawRecordFault;
use ob_check::module_text::TextFault;
use ob_object_calls::{VerifyFault, verify_text};
use ob_object_run::OrderFault;
use ob_picture_chart::Mark;
use ob_scan::ScanFault;
use ob_scan::scanner::LONGEST_TEXT;
use std::alloc::{AllocError, Global};
use wf_history::CallId;

/// A call that is marked, and a line that says why.
#[derive(Drop)]
pub struct Marked {
    pub id: CallId,
    pub words: String,
}

/// The call of the fault of a record's order, where that is no legal one.
pub(crate) fn marked_call(
    alloc: Global,
    module: &[u8],
    record: &[u8],
) -> Result<Option<Marked>, DrawRecordFault>
    ensures call { IfOk result (λ marked. IsCallMarked «module».now «record».now (option_map id_of marked)) }
    ensures refused { IfErr result (IsRefusal «module».now «record».now) }
    // A module's text over the scanner's bound is refused, whatever it says.
    ensures too_long { LONGEST_TEXT < length «module».now → result ≡ Err (DrawRecordFault.Text (TextFault.Scan ScanFault.TooLong)) }
{
    match verify_text(alloc, module, record) {
        Ok(()) => Ok(None),
        Err(VerifyFault::Order(fault)) => {
            let marked = marked_by(alloc, fault)?;
            Ok(Some(marked))
        }
        Err(other) => Err(of_verify(other)),
    }
}

/// A fault of a record but for one of its order.
fn of_verify(fault: VerifyFault) -> DrawRecordFault
    ensures { result ≡ of_verify fault }
{
    match fault {
        VerifyFault::Text(fault) => DrawRecordFault::Text(fault),
        VerifyFault::Form(line) => DrawRecordFault::Form(line),
        VerifyFault::Open(fault) => DrawRecordFault::Open(fault),
        VerifyFault::Order(_) => DrawRecordFault::NoMemory,
        VerifyFault::NoMemory => DrawRecordFault::NoMemory,
    }
}

/// The call of a fault, which has a number.
fn marked_by(alloc: Global, fault: OrderFault) -> Result<Marked, AllocError>
    ensures { IfOk result (λ marked. IsOf fault marked.id) }
{
    let (id, why) = match fault {
        OrderFault::Missing(id) => (id, "this call has ended, and the order lacks it"),
        OrderFault::Unknown(id) => (id, "the order names it twice, or it never began"),
        OrderFault::TooEarly(id) => (id, "in the order before a call that ended before it began"),
        OrderFault::OtherReply(id) => (id, "made in its turn, it ends with another reply"),
        OrderFault::NoMemory => return Err(AllocError),
    };
    let words = format!(in alloc; "{fault}: {why}")?;
    Ok(Marked { id, words })
}

/// The mark of a picture.
pub fn mark_of(marked: &Option<Marked>) -> Option<Mark<'_>>
    ensures { option_map View.mark_of result ≡ marks_of marked.now }
{
    match marked {
        Some(marked) => Some(Mark {
            id: marked.id,
            words: marked.words.as_str(),
        }),
        None => None,
    }
}
