//! What a call of a record's order comes to, from the bytes of a module and of the record.

ghost use Rattle.std.specs.Prelude.{◌≡◌, false, IfOk, OnOk, option_map};
ghost use Rattle.ob_check.specs.CheckedText.{is_text_memory};
ghost use Rattle.ob_checked.specs.CheckedModule.{program_in};
ghost use Rattle.ob_object_calls.specs.RecordCalls.{IsCallFound, IsCallOvertaken, IsFoundIn, IsOvertakenFoundIn};
ghost use Rattle.ob_object_calls.specs.View.{made_of};

use crate::beginning::beginning;
use crate::call_outcome::{MadeCall, made_call};
use crate::overtaking::overtaken;
use ob_check::module_text::{TextFault, checked_text};
use ob_checked::checked::Checked;
use ob_interface::NoMemory;
use ob_mean::openings::OpenFault;
use ob_text_reading::{RecordFault, read_record};
use std::alloc::Global;
use wf_history::CallId;

/// What a call of a record comes to, where it and the calls before it in the record's order are made one at a time from the values that
/// were carried over, or else from the module's opening, each with the record's budget. There is one where `verify_text` tells H4 of the call.
pub fn call_made(
    alloc: Global,
    object: &[u8],
    text: &[u8],
    id: CallId,
) -> Result<Option<MadeCall>, NoMemory>
    ensures { IfOk result (λ made. IsCallFound object.now text.now id (option_map made_of made)) }
{
    match checked_text(alloc, object) {
        Ok(checked) => call_in_record(alloc, &checked, text, id),
        Err(fault) => {
            not_for_memory(fault)?;
            Ok(None)
        }
    }
}

/// That a text is no module for no want of memory.
fn not_for_memory(fault: TextFault) -> Result<(), NoMemory>
    ensures { OnOk result (is_text_memory fault ≡ false) }
{
    match fault {
        TextFault::NoMemory => Err(NoMemory),
        TextFault::Scan(_) => Ok(()),
        TextFault::Parse(_) => Ok(()),
        TextFault::Check(_) => Ok(()),
    }
}

/// The same, of a checked module, where variables go by their positions.
fn call_in_record(
    alloc: Global,
    checked: &Checked,
    text: &[u8],
    id: CallId,
) -> Result<Option<MadeCall>, NoMemory>
    ensures { IfOk result (λ made. IsFoundIn (program_in checked.now) text.now id (option_map made_of made)) }
{
    let read = match read_record(alloc, checked, text) {
        Ok(read) => read,
        Err(RecordFault::NoMemory) => return Err(NoMemory),
        Err(RecordFault::Form(_)) => return Ok(None),
    };
    let begun = match beginning(alloc, checked, read.carried) {
        Ok(begun) => begun,
        Err(OpenFault::NoMemory) => return Err(NoMemory),
        Err(OpenFault::Trap(_)) => return Ok(None),
    };
    made_call(
        alloc,
        &read.history,
        &read.order,
        checked,
        &begun,
        read.budget,
        id,
    )
}

/// The call of a record before which another one stands too early in its order: it had ended when that one began. There is one where
/// `verify_text` tells H3 of the call.
pub fn call_overtaken(
    alloc: Global,
    object: &[u8],
    text: &[u8],
    id: CallId,
) -> Result<Option<CallId>, NoMemory>
    ensures { IfOk result (IsCallOvertaken object.now text.now id) }
{
    match checked_text(alloc, object) {
        Ok(checked) => overtaken_in_record(alloc, &checked, text, id),
        Err(fault) => {
            not_for_memory(fault)?;
            Ok(None)
        }
    }
}

/// The same, of a checked module.
fn overtaken_in_record(
    alloc: Global,
    checked: &Checked,
    text: &[u8],
    id: CallId,
) -> Result<Option<CallId>, NoMemory>
    ensures { IfOk result (IsOvertakenFoundIn (program_in checked.now) text.now id) }
{
    match read_record(alloc, checked, text) {
        Ok(read) => overtaken(alloc, &read.history, &read.order, id),
        Err(RecordFault::NoMemory) => Err(NoMemory),
        Err(RecordFault::Form(_)) => Ok(None),
    }
}
