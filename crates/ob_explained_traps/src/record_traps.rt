//! Where the calls of a record's order trap: from the bytes of a module and of a record to the bytes that are printed.

ghost use Rattle.std.specs.Prelude.{◌≡◌, IfErr, IfOk, length, map, string_bytes};
ghost use Rattle.ob_checked.specs.CheckedModule.{program_in, tree_in};
ghost use Rattle.ob_explained.specs.Sources.{source_of};
ghost use Rattle.ob_explained_traps.specs.RecordTraps.{IsRecordTrapsText, IsToldOf, order_text};
ghost use Rattle.ob_mean.specs.View.{call_of};
ghost use Rattle.ob_object_calls.specs.Beginnings.{BeginsPlaced};
ghost use Rattle.ob_object_calls.specs.Verified.{IsLegalRecord, IsVerified};
ghost use Rattle.ob_object_calls.specs.declared.verifying.VerifyFault.TheVariants as Faults;
ghost use Rattle.ob_object_run.specs.LegalOrder.{CallEnds};
ghost use Rattle.ob_store.specs.View.{state_of};
ghost use Rattle.ob_trap_places.specs.Sequence.{sites_from};

use crate::order_calls::order_calls;
use crate::told_calls::Calls;
use crate::trap_lines::{Setting, traps_told};
use ob_check::module_text::checked_text;
use ob_checked::checked::Checked;
use ob_explained::Source;
use ob_interface::NoMemory;
use ob_mean::call::Call;
use ob_object_calls::VerifyFault;
use ob_object_calls::beginning::beginning;
use ob_store::state::State;
use ob_text_reading::read_record;
use ob_trap_places::sequence::sites_in_turn;
use std::alloc::Global;
use wf_history::CallId;

/// The calls of an order, with their names and the budget of each.
#[derive(Clone, Copy)]
struct Ordered<'a> {
    calls: &'a [Call],
    order: &'a [CallId],
    budget: u64,
}

/// What is told of the calls of a record's order that trap, made one at a time from the values that were carried over, or else from the
/// module's opening, each with the record's budget: of each place in the module's text the first call that traps there, the line of the
/// operation, what could not be done, and how many calls trap there.
pub fn record_traps_text(
    alloc: Global,
    object: Source<'_>,
    record: &[u8],
) -> Result<String, VerifyFault>
    ensures told { IfOk result (λ text. IsRecordTrapsText (source_of object.entry) «record».now (string_bytes text)) }

    // Where the order of the record is legal, it is told, want of memory aside.
    ensures lawful { IsVerified object.entry.text.now «record».now → IfErr result (λ e. e ≡ Faults.NoMemory) }
{
    let checked = checked_text(alloc, object.text)?;
    told_of(alloc, object, &checked, record)
}

/// The same, of a checked module.
fn told_of(
    alloc: Global,
    object: Source<'_>,
    checked: &Checked,
    text: &[u8],
) -> Result<String, VerifyFault>
    ensures told { IfOk result (λ told. IsToldOf (source_of object.entry) (tree_in checked.now) (program_in checked.now) text.now (string_bytes told)) }
    ensures lawful { IsLegalRecord BeginsPlaced CallEnds (program_in checked.now) text.now → IfErr result (λ e. e ≡ Faults.NoMemory) }
{
    let read = read_record(alloc, checked, text)?;
    let begun = beginning(alloc, checked, read.carried)?;
    let calls = order_calls(alloc, read.history.events(), &read.order)?;
    let made = Ordered {
        calls: &calls,
        order: &read.order,
        budget: read.budget,
    };
    Ok(told_from(alloc, object, checked, begun, made)?)
}

/// What is told of calls that are made from a state, which is given up.
fn told_from(
    alloc: Global,
    object: Source<'_>,
    checked: &Checked,
    begun: State,
    made: Ordered<'_>,
) -> Result<String, NoMemory>
    requires { length made.order.now ≡ length made.calls.now }
    ensures { IfOk result (λ told. string_bytes told
        ≡ order_text (source_of object.entry) (tree_in checked.now) made.entry.budget made.entry.order.now
        (sites_from (program_in checked.now) made.entry.budget (state_of begun) (map call_of made.entry.calls.now))) }
{
    let sites = sites_in_turn(alloc, checked, begun, made.calls, made.budget)?;
    let setting = Setting {
        object,
        tree: checked.tree(),
        calls: Calls::OfRecord(made.order),
        budget: made.budget,
    };
    Ok(traps_told(alloc, setting, &sites)?)
}
