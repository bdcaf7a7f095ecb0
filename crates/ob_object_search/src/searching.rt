//! A legal order of a history, from the bytes of a module and of the history.

ghost use Rattle.std.specs.Prelude.{◌≡◌, ◌≢◌, ◌<◌, ◌≤◌, ℕ, List, Err, IfOk, IfErr, length, map};
ghost use Rattle.ob_checked.specs.CheckedModule.{program_in};
ghost use Rattle.ob_object_run.specs.LegalOrder.{CallEnds};
ghost use Rattle.ob_object_search.specs.Found.{HasOrderHere, IsFaultHere, IsEnoughHere, IsNeededHere};
ghost use Rattle.ob_object_search.specs.Searched.{HasEnough, HasOrder, HasNoneNeedless, IsEnough, IsLegalOrder, NoneIsNeedless, budget_of};
ghost use Rattle.ob_object_search.specs.SearchFaults.{HasSearchFault, IsNumbered, IsSearchFault, IsUndecided, TellsMemoryApart, too_long};
ghost use Rattle.ob_object_search.specs.declared.searching.SearchFault.TheVariants as Faults;
ghost use Rattle.ob_object_calls.specs.Beginnings.{BeginsPlaced, TrapsPlaced};
ghost use Rattle.ob_store.specs.View.{state_of};
ghost use Rattle.ob_text_reading.specs.Names.{AreApart, AreBelow, named_id};
ghost use Rattle.wf_history.specs.declared.event.CallId.{CallId};

use crate::instance::ModuleObject;
use ob_check::module_text::{TextFault, checked_text};
use ob_checked::checked::Checked;
use ob_interface::NoMemory;
use ob_mean::openings::OpenFault;
use ob_object_calls::beginning::beginning;
use ob_scan::scanner::LONGEST_TEXT;
use ob_text_reading::{ReadHistory, RecordFault, read_history};
use std::alloc::{AllocError, Global};
use std::hash::RandomState;
use thiserror::Error;
use wf_history::{CallId, History};
use wf_needed::needed_order;
use wf_order::{Verdict, find_order};

/// What a search is to go by.
#[derive(Clone, Copy)]
pub struct Search {
    /// How many turns each call has; where it isn't given, so many as the history tells, or else `DEFAULT_BUDGET`.
    pub budget: Option<u64>,
    /// The most configurations to be looked at.
    pub most: usize,
    /// The keys of the table of those that were found.
    pub keys: RandomState,
}

/// How many turns each call has, where nobody says.
pub const DEFAULT_BUDGET: u64 = 100_000;

/// Why there is no order.
#[derive(Clone, Copy, Debug, Error)]
pub enum SearchFault {
    /// The module's text is none.
    #[error("{0}")]
    Text(TextFault),
    /// F1: the history's line is missing, or not of its form or place. Lines count from 1.
    #[error("F1 line {0}")]
    Form(usize),
    /// O2: the module has no opening state, and no values were carried over.
    #[error("{0}")]
    Open(OpenFault),
    /// X1: up to the end of this call the history has no legal order, and before it has one.
    #[error("X1 {0}")]
    Illegal(CallId),
    /// X2: there are more configurations than were to be looked at.
    #[error("X2")]
    TooMany,
    /// Want of memory.
    #[error("NoMemory")]
    NoMemory,
}

impl From<TextFault> for SearchFault {
    ghost use Rattle.std.specs.Prelude.{◌≡◌};
    ghost use Rattle.ob_object_search.specs.SearchFaults.{of_text};

    ghost from_gives = { λ e f. f ≡ of_text e };

    fn from(fault: TextFault) -> SearchFault {
        match fault {
            TextFault::NoMemory => SearchFault::NoMemory,
            other => SearchFault::Text(other),
        }
    }
}

impl From<RecordFault> for SearchFault {
    ghost use Rattle.std.specs.Prelude.{◌≡◌};
    ghost use Rattle.ob_object_search.specs.SearchFaults.{of_reading};

    ghost from_gives = { λ e f. f ≡ of_reading e };

    fn from(fault: RecordFault) -> SearchFault {
        match fault {
            RecordFault::Form(line) => SearchFault::Form(line),
            RecordFault::NoMemory => SearchFault::NoMemory,
        }
    }
}

impl From<OpenFault> for SearchFault {
    ghost use Rattle.std.specs.Prelude.{◌≡◌};
    ghost use Rattle.ob_object_search.specs.SearchFaults.{of_open};

    ghost from_gives = { λ e f. f ≡ of_open e };

    fn from(fault: OpenFault) -> SearchFault {
        match fault {
            OpenFault::NoMemory => SearchFault::NoMemory,
            other => SearchFault::Open(other),
        }
    }
}

impl From<NoMemory> for SearchFault {
    ghost use Rattle.std.specs.Prelude.{◌≡◌};
    ghost use Rattle.ob_object_search.specs.declared.searching.SearchFault.TheVariants as Faults;

    ghost from_gives = { λ _ e. e ≡ Faults.NoMemory };

    fn from(_: NoMemory) -> SearchFault {
        SearchFault::NoMemory
    }
}

impl From<AllocError> for SearchFault {
    ghost use Rattle.std.specs.Prelude.{◌≡◌};
    ghost use Rattle.ob_object_search.specs.declared.searching.SearchFault.TheVariants as Faults;

    ghost from_gives = { λ _ e. e ≡ Faults.NoMemory };

    fn from(_: AllocError) -> SearchFault {
        SearchFault::NoMemory
    }
}

/// A legal order of a history of a module's object, by the names that the text has for its calls: made one at a time from the values that
/// were carried over, or else from the module's opening, the calls give the history's replies.
pub fn search_text(
    alloc: Global,
    module: &[u8],
    history: &[u8],
    search: &Search,
) -> Result<Vec<CallId>, SearchFault>
    ensures order { IfOk result (λ order. IsLegalOrder «module».now history.now search.now.budget order.items) }
    // No open call of the order can be left out.
    ensures needed { IfOk result (λ order. NoneIsNeedless «module».now history.now search.now.budget order.items) }
    ensures fault { IfErr result (IsSearchFault «module».now history.now search.now.budget search.now.most) }

    // Where there is no order but for X2 and want of memory, no order is legal.
    ensures none { IfErr result (λ e. ¬ IsUndecided e → (order : List CallId) → ¬ IsLegalOrder «module».now history.now search.now.budget order) }

    // A history that has a legal order is refused with X2 alone, or for want of memory.
    ensures lawful { (order : List CallId) → IsLegalOrder «module».now history.now search.now.budget order → IfErr result IsUndecided }

    // With enough configurations no history is left undecided.
    ensures decided { IsEnough «module».now history.now search.now.most → IfErr result (λ e. e ≢ Faults.TooMany) }

    // Want of memory is told by its own variant alone.
    ensures memory { IfErr result TellsMemoryApart }

    // A module's text over the scanner's bound is refused, whatever it says.
    ensures too_long { LONGEST_TEXT < length «module».now → result ≡ Err too_long }
{
    let checked = checked_text(alloc, module)?;
    search_checked(alloc, &checked, history, search)
}

/// The same, of a checked module, where variables go by their positions.
fn search_checked(
    alloc: Global,
    checked: &Checked,
    text: &[u8],
    search: &Search,
) -> Result<Vec<CallId>, SearchFault>
    ensures order { IfOk result (λ order. HasOrder BeginsPlaced CallEnds (program_in checked.now) text.now search.now.budget order.items) }
    ensures needed { IfOk result (λ order. HasNoneNeedless BeginsPlaced CallEnds (program_in checked.now) text.now search.now.budget order.items) }
    ensures fault { IfErr result (HasSearchFault BeginsPlaced TrapsPlaced CallEnds (program_in checked.now) text.now search.now.budget search.now.most) }
    ensures lawful { (order : List CallId) → HasOrder BeginsPlaced CallEnds (program_in checked.now) text.now search.now.budget order → IfErr result IsUndecided }
    ensures decided { HasEnough (program_in checked.now) text.now search.now.most → IfErr result (λ e. e ≢ Faults.TooMany) }
    ensures memory { IfErr result TellsMemoryApart }
{
    let read = read_history(alloc, checked, text)?;
    let budget = budget_of(search.budget, read.budget);
    let opening = beginning(alloc, checked, read.carried)?;
    let object = ModuleObject::new(alloc, checked, &opening, budget)?;
    order_found(
        alloc,
        &object,
        &read.history,
        read.processes.as_slice(),
        search,
    )
}

/// The turns of each call.
pub fn budget_of(asked: Option<u64>, told: Option<u64>) -> u64
    ensures { result ≡ budget_of asked told }
{
    asked.or(told).unwrap_or(DEFAULT_BUDGET)
}

/// A legal order of a history, whose processes have these names, by the names. No open call of it can be left out.
pub fn order_found(
    alloc: Global,
    object: &ModuleObject,
    history: &History,
    names: &[usize],
    search: &Search,
) -> Result<Vec<CallId>, SearchFault>
    requires apart { AreApart names.now }
    requires below { AreBelow (length names.now) history.now }
    ensures order { IfOk result (λ order. HasOrderHere (program_in object.now.checked.now) object.now.budget (state_of object.now.opening.now) history.now names.now order.items) }
    ensures needed { IfOk result (λ order. IsNeededHere (program_in object.now.checked.now) object.now.budget (state_of object.now.opening.now) history.now names.now order.items) }
    ensures fault { IfErr result (IsFaultHere (program_in object.now.checked.now) object.now.budget (state_of object.now.opening.now) history.now names.now search.now.most) }
    ensures decided { IsEnoughHere history.now names.now search.now.most → IfErr result (λ e. e ≢ Faults.TooMany) }
{
    match find_order(alloc, history, object, search.most, search.keys)? {
        Verdict::Legal(order) => {
            let needed = needed_order(alloc, history, object, order.as_slice())?;
            Ok(named_all(alloc, names, needed.as_slice())?)
        }
        Verdict::Illegal(id, _) => Err(SearchFault::Illegal(named(names, id))),
        Verdict::TooMany => Err(SearchFault::TooMany),
    }
}

/// The calls, by the names of their processes.
fn named_all(alloc: Global, names: &[usize], ids: &[CallId]) -> Result<Vec<CallId>, AllocError>
    ensures { IfOk result (λ named. named.items ≡ map (named_id names.now) ids.now) }
{
    ids.iter().map(|id| named(names, *id)).collect(alloc)
}

/// The call, by the name of its process.
pub fn named(names: &[usize], id: CallId) -> CallId
    ensures { result ≡ named_id names.now id }
{
    let process = names.get(id.process).copied().unwrap_or(0);
    CallId {
        process,
        number: id.number,
    }
}
