//! Histories as records with a legal order that was found.

ghost use Rattle.std.specs.Prelude.{◌≡◌, ◌≢◌, ◌<◌, ℕ, List, Err, IfErr, IfOk, length, option_map, string_bytes};
ghost use Rattle.ob_checked.specs.CheckedModule.{program_in};
ghost use Rattle.ob_object_run.specs.LegalOrder.{CallEnds};
ghost use Rattle.ob_text_record.specs.Record.{record_of};
ghost use Rattle.ob_object_search.specs.Searched.{HasEnough, HasOrder, IsEnough, IsLegalOrder};
ghost use Rattle.ob_object_search.specs.SearchFaults.{HasSearchFault, IsUndecided, TellsMemoryApart as TellsSearchMemoryApart};
ghost use Rattle.ob_object_search.specs.declared.searching.SearchFault.TheVariants as SearchFaults;
ghost use Rattle.ob_object_search.specs.Heard.{IsHeard};
ghost use Rattle.ob_object_search.specs.RecordingFaults.{HasRecordingFault, IsRecordingFault, SaysNoOrder, TellsMemoryApart, too_long, too_many};
ghost use Rattle.ob_object_search.specs.SearchRecords.{IsHistoryRecord, IsRecordFound, IsSame};
ghost use Rattle.ob_object_calls.specs.Beginnings.{BeginsPlaced, TrapsPlaced};
ghost use Rattle.ob_meaning.specs.ByPositionStore.{Activation};
ghost use Rattle.ob_store.specs.View.{state_of};
ghost use Rattle.ob_text_reading.specs.RecordContents.{carried_of};
ghost use Rattle.wf_history.specs.Legal.{IsLegal};
ghost use Rattle.wf_history.specs.declared.event.CallId.{CallId};

use crate::naming_history::named_history;
use crate::searching::{budget_of, order_found};
use crate::{ModuleObject, Search, SearchFault};
use ob_check::module_text::{TextFault, checked_text};
use ob_checked::checked::Checked;
use ob_interface::NoMemory;
use ob_object_calls::beginning::beginning;
use ob_object_run::{OrderFault, check_order};
use ob_scan::scanner::LONGEST_TEXT;
use ob_store::state::State;
use ob_text_reading::{ReadHistory, read_history};
use ob_text_record::{Record, write_record};
use std::alloc::{AllocError, Global};
use wf_history::{CallId, History};
use wf_lookup::process_count;

/// Why there is no record.
#[derive(Clone, Copy)]
pub enum RecordingFault {
    /// No order was found.
    Search(SearchFault),
    /// N1: a process is over 15, and a record has 16 processes at most. It is told behind the faults of the module, its opening and the
    /// history, and before an order is looked for.
    Processes,
}

impl From<SearchFault> for RecordingFault {
    ghost use Rattle.std.specs.Prelude.{◌≡◌};
    ghost use Rattle.ob_object_search.specs.declared.order_recording.RecordingFault.TheVariants as Faults;

    ghost from_gives = { λ e f. f ≡ Faults.Search e };

    fn from(fault: SearchFault) -> RecordingFault {
        RecordingFault::Search(fault)
    }
}

impl From<TextFault> for RecordingFault {
    ghost use Rattle.std.specs.Prelude.{◌≡◌};
    ghost use Rattle.ob_object_search.specs.RecordingFaults.{of_module};

    ghost from_gives = { λ e f. f ≡ of_module e };

    fn from(fault: TextFault) -> RecordingFault {
        RecordingFault::Search(SearchFault::from(fault))
    }
}

impl From<NoMemory> for RecordingFault {
    ghost use Rattle.std.specs.Prelude.{◌≡◌};
    ghost use Rattle.ob_object_search.specs.RecordingFaults.{no_memory};

    ghost from_gives = { λ _ f. f ≡ no_memory };

    fn from(_: NoMemory) -> RecordingFault {
        RecordingFault::Search(SearchFault::NoMemory)
    }
}

impl From<AllocError> for RecordingFault {
    ghost use Rattle.std.specs.Prelude.{◌≡◌};
    ghost use Rattle.ob_object_search.specs.RecordingFaults.{no_memory};

    ghost from_gives = { λ _ f. f ≡ no_memory };

    fn from(_: AllocError) -> RecordingFault {
        RecordingFault::Search(SearchFault::NoMemory)
    }
}

/// What is heard of a history, the state with which its calls begin and the budget of each.
#[derive(Drop)]
pub struct Heard {
    pub read: ReadHistory,
    pub opening: State,
    pub budget: u64,
}

/// The text of the record of a history of a module's object, with a legal order that was found: the events, the order, no schedule, and
/// the variables that the order leads to.
pub fn record_of_text(
    alloc: Global,
    module: &[u8],
    history: &[u8],
    search: &Search,
) -> Result<String, RecordingFault>
    ensures written { IfOk result (λ text. IsRecordFound «module».now history.now search.now.budget (string_bytes text)) }
    ensures fault { IfErr result (IsRecordingFault «module».now history.now search.now.budget search.now.most) }

    // A history that has a legal order is refused with X2 or N1 alone, or for want of memory.
    ensures lawful { (order : List CallId) → IsLegalOrder «module».now history.now search.now.budget order → IfErr result SaysNoOrder }

    // With enough configurations no history is left undecided.
    ensures decided { IsEnough «module».now history.now search.now.most → IfErr result (λ e. e ≢ too_many) }

    // Want of memory is told by its own variant alone.
    ensures memory { IfErr result TellsMemoryApart }

    // A module's text over the scanner's bound is refused, whatever it says.
    ensures too_long { LONGEST_TEXT < length «module».now → result ≡ Err too_long }
{
    let checked = checked_text(alloc, module)?;
    let found = record_of_checked(alloc, &checked, history, search)?;
    Ok(write_record(alloc, &checked, &found)?)
}

/// The record, of a checked module, where variables go by their positions.
fn record_of_checked(
    alloc: Global,
    checked: &Checked,
    text: &[u8],
    search: &Search,
) -> Result<Record, RecordingFault>
    ensures made { IfOk result (λ r. IsHistoryRecord BeginsPlaced CallEnds IsSame (program_in checked.now) text.now search.now.budget (record_of «r»)) }
    ensures fault { IfErr result (HasRecordingFault BeginsPlaced TrapsPlaced CallEnds (program_in checked.now) text.now search.now.budget search.now.most) }
    ensures lawful { (order : List CallId) → HasOrder BeginsPlaced CallEnds (program_in checked.now) text.now search.now.budget order → IfErr result SaysNoOrder }
    ensures decided { HasEnough (program_in checked.now) text.now search.now.most → IfErr result (λ e. e ≢ too_many) }
    ensures memory { IfErr result TellsMemoryApart }
{
    let heard = hear(alloc, checked, text, search.budget)?;
    record_of_heard(alloc, checked, heard, text, search)
}

/// What the text of a history tells, with the state with which its calls begin.
pub fn hear(
    alloc: Global,
    checked: &Checked,
    text: &[u8],
    asked: Option<u64>,
) -> Result<Heard, SearchFault>
    ensures heard { IfOk result (IsHeard (program_in checked.now) text.now asked) }
    ensures fault { (most : ℕ) → IfErr result (HasSearchFault BeginsPlaced TrapsPlaced CallEnds (program_in checked.now) text.now asked most) }
    ensures lawful { (order : List CallId) → HasOrder BeginsPlaced CallEnds (program_in checked.now) text.now asked order → IfErr result IsUndecided }
    ensures decided { IfErr result (λ e. e ≢ SearchFaults.TooMany) }
    // No order is looked for yet.
    ensures unsearched { IfErr result (λ e. (id : CallId) → e ≢ SearchFaults.Illegal id) }
    ensures memory { IfErr result TellsSearchMemoryApart }
{
    let read = read_history(alloc, checked, text)?;
    let carried = copied(alloc, &read.carried)?;
    let opening = beginning(alloc, checked, carried)?;
    let budget = budget_of(asked, read.budget);
    Ok(Heard {
        read,
        opening,
        budget,
    })
}

/// The values that were carried over, if there are any.
fn copied(alloc: Global, carried: &Option<State>) -> Result<Option<State>, AllocError>
    ensures { IfOk result (λ copy. carried_of copy ≡ carried_of carried.now) }
{
    match carried {
        Some(state) => Ok(Some(state.copy(alloc)?)),
        None => Ok(None),
    }
}

/// The record of what is heard of a text.
fn record_of_heard(
    alloc: Global,
    checked: &Checked,
    heard: Heard,
    _text: &[u8],
    search: &Search,
) -> Result<Record, RecordingFault>
    requires { IsHeard (program_in checked.now) _text.now search.now.budget heard }
    ensures made { IfOk result (λ r. IsHistoryRecord BeginsPlaced CallEnds IsSame (program_in checked.now) _text.now search.now.budget (record_of «r»)) }
    ensures fault { IfErr result (HasRecordingFault BeginsPlaced TrapsPlaced CallEnds (program_in checked.now) _text.now search.now.budget search.now.most) }
    ensures lawful { (order : List CallId) → HasOrder BeginsPlaced CallEnds (program_in checked.now) _text.now search.now.budget order → IfErr result SaysNoOrder }
    ensures decided { HasEnough (program_in checked.now) _text.now search.now.most → IfErr result (λ e. e ≢ too_many) }
    ensures memory { IfErr result TellsMemoryApart }
{
    let Heard {
        read,
        opening,
        budget,
    } = heard;
    let names = read.processes.as_slice();
    let history = named_history(alloc, names, &read.history)?;
    let Some(processes) = process_count(history.events()) else {
        return Err(RecordingFault::Processes);
    };
    let object = ModuleObject::new(alloc, checked, &opening, budget)?;
    let order = order_found(alloc, &object, &read.history, names, search)?;
    let state = last_state(alloc, &object, &history, &order)?;
    let schedule = Vec::new(alloc);
    Ok(Record {
        processes,
        budget,
        carried: read.carried,
        history,
        order,
        schedule,
        state,
    })
}

/// The state to which a legal order leads.
fn last_state(
    alloc: Global,
    object: &ModuleObject,
    history: &History,
    order: &[CallId],
) -> Result<State, NoMemory>
    requires { (last : Activation) × IsLegal (CallEnds (program_in object.now.checked.now) object.now.budget) (state_of object.now.opening.now) history.now order.now last }
    ensures { IfOk result (λ last. IsLegal (CallEnds (program_in object.now.checked.now) object.now.budget) (state_of object.now.opening.now) history.now order.now (state_of last)) }
{
    match check_order(
        alloc,
        history,
        order,
        object.checked,
        object.opening,
        object.budget,
    ) {
        Ok(last) => Ok(last),
        Err(fault) => match fault {
            OrderFault::NoMemory => Err(NoMemory),
            _ => unreachable!(),
        },
    }
}
