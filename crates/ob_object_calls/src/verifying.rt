//! Records verified: whether a record's order is a legal order of its history.

ghost use Rattle.std.specs.Prelude.{◌≡◌, ◌<◌, Err, OnOk, IfErr, length};
ghost use Rattle.ob_checked.specs.CheckedModule.{program_in};
ghost use Rattle.ob_code_scheme.specs.WellFormed.{IsWellFormed};
ghost use Rattle.ob_object_run.specs.LegalOrder.{CallEnds};
ghost use Rattle.ob_object_calls.specs.Beginnings.{BeginsPlaced, TrapsPlaced};
ghost use Rattle.ob_object_calls.specs.Verified.{IsLegalRecord, IsVerified};
ghost use Rattle.ob_object_calls.specs.VerifyFaults.{HasRecordFault, IsFaultOfRecord, IsNumbered, IsVerifyFault, TellsFault, TellsMemoryApart, too_long};
ghost use Rattle.ob_object_calls.specs.declared.verifying.VerifyFault.{VerifyFault};
ghost use Rattle.ob_object_calls.specs.declared.verifying.VerifyFault.TheVariants as Faults;

use crate::beginning::beginning;
use crate::coded_verifying::by_code;
use ob_check::module_text::{TextFault, checked_text};
use ob_checked::checked::Checked;
use ob_code_correct::kept_laws::openings_are_states;
use ob_code_correct::well_formed_laws::modules_are_well_formed;
use ob_interface::NoMemory;
use ob_mean::openings::OpenFault;
use ob_object_run::{OrderFault, check_order, check_order_by};
use ob_scan::scanner::LONGEST_TEXT;
use ob_text_reading::{RecordFault, read_record};
use std::alloc::Global;
use thiserror::Error;

/// Why a record isn't verified: the first fault, in the order of the variants.
#[derive(Clone, Copy, Debug, Error)]
pub enum VerifyFault {
    /// The module's text is none.
    #[error("{0}")]
    Text(TextFault),
    /// F1: the record's line is missing, or not of its form or place. Lines count from 1.
    #[error("F1 line {0}")]
    Form(usize),
    /// O2: the module has no opening state, and no values were carried over.
    #[error("{0}")]
    Open(OpenFault),
    /// H1 to H4: the record's order is no legal order of its history.
    #[error("{0}")]
    Order(OrderFault),
    /// Want of memory.
    #[error("NoMemory")]
    NoMemory,
}

impl From<TextFault> for VerifyFault {
    ghost use Rattle.std.specs.Prelude.{◌≡◌};
    ghost use Rattle.ob_object_calls.specs.VerifyFaults.{of_text};

    ghost from_gives = { λ e f. f ≡ of_text e };

    fn from(fault: TextFault) -> VerifyFault {
        match fault {
            TextFault::NoMemory => VerifyFault::NoMemory,
            other => VerifyFault::Text(other),
        }
    }
}

impl From<RecordFault> for VerifyFault {
    ghost use Rattle.std.specs.Prelude.{◌≡◌};
    ghost use Rattle.ob_object_calls.specs.VerifyFaults.{of_record};

    ghost from_gives = { λ e f. f ≡ of_record e };

    fn from(fault: RecordFault) -> VerifyFault {
        match fault {
            RecordFault::Form(line) => VerifyFault::Form(line),
            RecordFault::NoMemory => VerifyFault::NoMemory,
        }
    }
}

impl From<OpenFault> for VerifyFault {
    ghost use Rattle.std.specs.Prelude.{◌≡◌};
    ghost use Rattle.ob_object_calls.specs.VerifyFaults.{of_open};

    ghost from_gives = { λ e f. f ≡ of_open e };

    fn from(fault: OpenFault) -> VerifyFault {
        match fault {
            OpenFault::NoMemory => VerifyFault::NoMemory,
            other => VerifyFault::Open(other),
        }
    }
}

impl From<OrderFault> for VerifyFault {
    ghost use Rattle.std.specs.Prelude.{◌≡◌};
    ghost use Rattle.ob_object_calls.specs.VerifyFaults.{of_order};

    ghost from_gives = { λ e f. f ≡ of_order e };

    fn from(fault: OrderFault) -> VerifyFault {
        match fault {
            OrderFault::NoMemory => VerifyFault::NoMemory,
            other => VerifyFault::Order(other),
        }
    }
}

impl From<NoMemory> for VerifyFault {
    ghost use Rattle.std.specs.Prelude.{◌≡◌};
    ghost use Rattle.ob_object_calls.specs.declared.verifying.VerifyFault.TheVariants as Faults;

    ghost from_gives = { λ _ f. f ≡ Faults.NoMemory };

    fn from(_: NoMemory) -> VerifyFault {
        VerifyFault::NoMemory
    }
}

/// Whether a text is a record of a module's object, and its order a legal order of its history: made one at a time from the values that
/// were carried over, or else from the module's opening, each with the record's budget of turns, the calls give the record's replies.
pub fn verify_text(alloc: Global, module: &[u8], record: &[u8]) -> Result<(), VerifyFault>
    ensures verified { OnOk result (IsVerified «module».now «record».now) }
    ensures fault { IfErr result (IsVerifyFault «module».now «record».now) }

    // With a fault that has a number there is no such order.
    ensures none { IfErr result (λ e. IsNumbered e → IsVerified «module».now «record».now → ⊥) }

    // A legal order is never refused but for want of memory.
    ensures lawful { IsVerified «module».now «record».now → IfErr result (λ e. e ≡ Faults.NoMemory) }

    // The fault of the record that stands there is answered, want of memory aside.
    ensures exact { (fault : VerifyFault) → IsNumbered fault → IsFaultOfRecord «module».now «record».now fault → TellsFault result fault }

    // Want of memory is told by its own variant alone.
    ensures memory { IfErr result TellsMemoryApart }

    // A module's text over the scanner's bound is refused, whatever it says.
    ensures too_long { LONGEST_TEXT < length «module».now → result ≡ Err too_long }
{
    modules_are_well_formed();
    let checked = checked_text(alloc, module)?;
    verify_record(alloc, &checked, record)
}

/// The same, of a checked module, where variables go by their positions. The calls are made by the module's code, where it has any.
fn verify_record(alloc: Global, checked: &Checked, text: &[u8]) -> Result<(), VerifyFault>
    requires { IsWellFormed (program_in checked.now) }
    ensures legal { OnOk result (IsLegalRecord BeginsPlaced CallEnds (program_in checked.now) text.now) }
    ensures fault { IfErr result (HasRecordFault BeginsPlaced TrapsPlaced CallEnds (program_in checked.now) text.now) }
    ensures lawful { IsLegalRecord BeginsPlaced CallEnds (program_in checked.now) text.now → IfErr result (λ e. e ≡ Faults.NoMemory) }
    ensures exact { (fault : VerifyFault) → IsNumbered fault → HasRecordFault BeginsPlaced TrapsPlaced CallEnds (program_in checked.now) text.now fault
        → TellsFault result fault }
    ensures memory { IfErr result TellsMemoryApart }
{
    openings_are_states();
    let read = read_record(alloc, checked, text)?;
    let begun = beginning(alloc, checked, read.carried)?;
    if let Some(mut code) = by_code(alloc, checked, &begun, read.budget)? {
        check_order_by(alloc, &read.history, &read.order, &mut code)?;
        return Ok(());
    }
    check_order(
        alloc,
        &read.history,
        &read.order,
        checked,
        &begun,
        read.budget,
    )?;
    Ok(())
}
