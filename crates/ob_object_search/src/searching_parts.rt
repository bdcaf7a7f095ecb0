//! Legal orders of the parts of a history, from the bytes of a module and of the history.

ghost use Rattle.std.specs.Prelude.{◌≡◌, ◌≢◌, ◌<◌, ◌-◌, ◌++◌, ◌∷◌, [], ℕ, List, Err, IfOk, IfErr, OnOk, get_or, length, map};
ghost use Rattle.ob_checked.specs.CheckedModule.{program_in};
ghost use Rattle.ob_object_run.specs.LegalOrder.{CallEnds};
ghost use Rattle.ob_object_search.specs.Found.{IsEnoughHere};
ghost use Rattle.ob_object_search.specs.Searched.{HasEnough, IsEnough};
ghost use Rattle.ob_object_search.specs.NumberedParts.{AreEnoughHere, ArePartsHere, IsFoundHere, IsPartFault, IsPartHere, IsShortHere, named_call};
ghost use Rattle.ob_object_search.specs.Objects.{AreOrdersIn, IsFaultIn};
ghost use Rattle.ob_object_search.specs.Parted.{AreLegalOrders, AreNeededOrders, HasNeededOrders, HasPartOrders, PartOrder};
ghost use Rattle.ob_object_search.specs.declared.fault.PartsFault.TheVariants as Faults;
ghost use Rattle.ob_object_search.specs.PartedFaults.{HasPartsFault, IsPartsFault, IsUndecided, TellsMemoryApart, too_long};
ghost use Rattle.ob_object_search.specs.View.{order_in, orders_in};
ghost use Rattle.ob_object_calls.specs.Beginnings.{BeginsPlaced, TrapsPlaced};
ghost use Rattle.ob_store.specs.View.{state_of};
ghost use Rattle.ob_text_reading.specs.Names.{AreApart};
ghost use Rattle.wf_order.specs.Rows.{row_of};
ghost use Rattle.wf_parts.specs.Numbering.{ArePartsOf};
ghost use Rattle.wf_parts.specs.View.{part_in, parts_in, rows_in};

use crate::fault::PartsFault;
use crate::searching::{budget_of, named};
use crate::{ModuleObject, Search};
use ob_check::module_text::checked_text;
use ob_checked::checked::Checked;
use ob_interface::NoMemory;
use ob_interface::scalar::Scalar;
use ob_object_calls::beginning::beginning;
use ob_scan::scanner::LONGEST_TEXT;
use ob_text_reading::read_history;
use std::alloc::Global;
use wf_history::{CallId, History};
use wf_needed::needed_order;
use wf_order::{Verdict, find_order};
use wf_parts::parts_of;

/// A legal order of the calls that have this value as an argument, by the names that the history has for them.
#[derive(Drop)]
pub struct Part {
    pub value: Scalar,
    pub order: Vec<CallId>,
}

/// Legal orders of the parts of a history of a module's object, one for each value that calls have as this argument, where value arguments
/// count from 1; by the names that the text has for calls. Each part begins with the values that were carried over, or else with the
/// module's opening.
pub fn search_parts_text(
    alloc: Global,
    module: &[u8],
    history: &[u8],
    by: usize,
    search: &Search,
) -> Result<Vec<Part>, PartsFault>
    ensures orders { IfOk result (λ parts. AreLegalOrders «module».now history.now search.now.budget by (orders_in parts.items)) }
    // No open call of an order can be left out.
    ensures needed { IfOk result (λ parts. AreNeededOrders «module».now history.now search.now.budget by (orders_in parts.items)) }
    ensures fault { IfErr result (IsPartsFault «module».now history.now search.now.budget by search.now.most) }

    // Where there are no orders but for X2 and want of memory, not all parts have legal ones.
    ensures none { IfErr result (λ e. ¬ IsUndecided e → (parts : List PartOrder) → ¬ AreLegalOrders «module».now history.now search.now.budget by parts) }

    // A history all of whose parts have legal orders is refused with X2 alone, or for want of memory.
    ensures lawful { (parts : List PartOrder) → AreLegalOrders «module».now history.now search.now.budget by parts → IfErr result IsUndecided }

    // With enough configurations no part is left undecided.
    ensures decided { IsEnough «module».now history.now search.now.most → IfErr result (λ e. e ≢ Faults.TooMany) }

    // Want of memory is told by its own variant alone.
    ensures memory { IfErr result TellsMemoryApart }

    // A module's text over the scanner's bound is refused, whatever it says.
    ensures too_long { LONGEST_TEXT < length «module».now → result ≡ Err too_long }
{
    let checked = checked_text(alloc, module)?;
    search_parts(alloc, &checked, history, by, search)
}

/// The same, of a checked module, where variables go by their positions.
fn search_parts(
    alloc: Global,
    checked: &Checked,
    text: &[u8],
    by: usize,
    search: &Search,
) -> Result<Vec<Part>, PartsFault>
    ensures orders { IfOk result (λ parts. HasPartOrders BeginsPlaced CallEnds (program_in checked.now) text.now search.now.budget by (orders_in parts.items)) }
    ensures needed { IfOk result (λ parts. HasNeededOrders BeginsPlaced CallEnds (program_in checked.now) text.now search.now.budget by (orders_in parts.items)) }
    ensures fault { IfErr result (HasPartsFault BeginsPlaced TrapsPlaced CallEnds (program_in checked.now) text.now search.now.budget by search.now.most) }
    ensures lawful { (parts : List PartOrder) → HasPartOrders BeginsPlaced CallEnds (program_in checked.now) text.now search.now.budget by parts → IfErr result IsUndecided }
    ensures decided { HasEnough (program_in checked.now) text.now search.now.most → IfErr result (λ e. e ≢ Faults.TooMany) }
    ensures memory { IfErr result TellsMemoryApart }
{
    let read = read_history(alloc, checked, text)?;
    let budget = budget_of(search.budget, read.budget);
    let opening = beginning(alloc, checked, read.carried)?;
    let object = ModuleObject::new(alloc, checked, &opening, budget)?;
    let names = read.processes.as_slice();
    let parts = named_parts(alloc, &read.history, names, by)?;
    orders_found(alloc, &object, parts.as_slice(), names, search)
}

/// The parts of a history, whose processes have these names.
fn named_parts(
    alloc: Global,
    history: &History,
    names: &[usize],
    by: usize,
) -> Result<Vec<wf_parts::Part>, PartsFault>
    ensures parts { IfOk result (λ parts. ArePartsOf history.now by (parts_in parts.items)) }
    ensures fault { IfErr result (IsShortHere history.now names.now by) }
{
    match parts_of(alloc, history, by) {
        Ok(parts) => Ok(parts),
        Err(wf_parts::PartsFault::Short(id)) => Err(PartsFault::Short(named(names, id))),
        Err(wf_parts::PartsFault::NoMemory) => Err(PartsFault::NoMemory),
    }
}

/// Appends an order.
fn push_part(found: &mut Vec<Part>, part: Part) -> Result<(), NoMemory>
    ensures { OnOk result (orders_in found.new.items ≡ orders_in found.old.items ++ order_in «part» ∷ []) }
{
    found.push(part)?;
    Ok(())
}

/// A legal order of each part.
fn orders_found(
    alloc: Global,
    object: &ModuleObject,
    parts: &[wf_parts::Part],
    names: &[usize],
    search: &Search,
) -> Result<Vec<Part>, PartsFault>
    requires apart { AreApart names.now }
    requires here { ArePartsHere names.now (parts_in parts.now) }
    ensures orders { IfOk result (λ found. AreOrdersIn object.now names.now (parts_in parts.now) (orders_in found.items)) }
    ensures fault { IfErr result (IsFaultIn object.now names.now search.now.most (parts_in parts.now)) }
    ensures decided { AreEnoughHere (parts_in parts.now) names.now search.now.most → IfErr result (λ e. e ≢ Faults.TooMany) }
{
    let mut found = Vec::new(alloc);
    for part in parts {
        match part_order(alloc, object, part, names, search) {
            Ok(order) => {
                let value = part.value;
                push_part(&mut found, Part { value, order })?;
            }
            Err(fault) => return Err(fault),
        }
    }
    Ok(found)
}

/// A legal order of a part. No open call of it can be left out.
fn part_order(
    alloc: Global,
    object: &ModuleObject,
    part: &wf_parts::Part,
    names: &[usize],
    search: &Search,
) -> Result<Vec<CallId>, PartsFault>
    requires apart { AreApart names.now }
    requires here { IsPartHere names.now (part_in part.now) }
    ensures order { IfOk result (λ order. IsFoundHere (program_in object.now.checked.now) object.now.budget (state_of object.now.opening.now) names.now (part_in part.now) order.items) }
    ensures fault { IfErr result (IsPartFault (program_in object.now.checked.now) object.now.budget (state_of object.now.opening.now) names.now search.now.most (part_in part.now)) }
    ensures decided { IsEnoughHere (part_in part.now).events names.now search.now.most → IfErr result (λ e. e ≢ Faults.TooMany) }
{
    let numbers = part.numbers.as_slice();
    match find_order(alloc, &part.history, object, search.most, search.keys)? {
        Verdict::Legal(order) => {
            let needed = needed_order(alloc, &part.history, object, order.as_slice())?;
            Ok(calls_named(alloc, names, numbers, needed.as_slice())?)
        }
        Verdict::Illegal(id, _) => {
            let call = call_named(names, numbers, id);
            Err(PartsFault::Illegal(call, part.value))
        }
        Verdict::TooMany => Err(PartsFault::TooMany),
    }
}

/// Calls of a part by the names of their processes, and by their numbers in the whole history.
fn calls_named(
    alloc: Global,
    names: &[usize],
    numbers: &[Vec<u64>],
    ids: &[CallId],
) -> Result<Vec<CallId>, NoMemory>
    ensures { IfOk result (λ named. named.items ≡ map (named_call names.now (rows_in numbers.now)) ids.now) }
{
    let named = ids
        .iter()
        .map(|id| call_named(names, numbers, *id))
        .collect(alloc)?;
    Ok(named)
}

/// A call of a part by the name of its process, and by its number in the whole history.
fn call_named(names: &[usize], numbers: &[Vec<u64>], id: CallId) -> CallId
    ensures { result ≡ named_call names.now (rows_in numbers.now) id }
{
    let process = id.process;
    let number = number_of(numbers, id);
    named(names, CallId { process, number })
}

/// The number that a call of a part has in the whole history.
fn number_of(numbers: &[Vec<u64>], id: CallId) -> u64
    ensures { result ≡ get_or (row_of (rows_in numbers.now) id.process) (id.number - 1) 0 }
{
    let Some(row) = numbers.get(id.process) else {
        return 0;
    };
    let place = id.number.saturating_sub(1) as usize;
    row.get(place).copied().unwrap_or(0)
}
