//! What shows that a call can't have ended as it did.

ghost use Rattle.std.specs.Prelude.{IfErr, IfOk, MatchOption};
ghost use Rattle.ob_checked.specs.CheckedModule.{program_in};
ghost use Rattle.ob_object_run.specs.LegalOrder.{CallEnds};
ghost use Rattle.ob_object_search.specs.SearchFaults.{HasSearchFault, IsSearchFault};
ghost use Rattle.ob_object_search.specs.EndEvidence.{HasEvidence, IsEvidence, IsNoEnd, NeverEnds};
ghost use Rattle.ob_object_search.specs.Heard.{IsHeard};
ghost use Rattle.ob_object_calls.specs.Beginnings.{BeginsPlaced, TrapsPlaced};

use crate::call_end::end_of;
use crate::candidates::Calls;
use crate::naming_history::named_history;
use crate::order_recording::{Heard, hear};
use crate::possible::possible_replies;
use crate::searching::order_found;
use crate::{ModuleObject, Search, SearchFault};
use ob_check::module_text::checked_text;
use ob_checked::checked::Checked;
use ob_interface::call::Reply;
use std::alloc::Global;
use wf_history::CallId;
use wf_lookup::open_calls;
use wf_parts::copied;

/// What there is of the events before a call's end.
#[derive(Drop)]
pub struct Evidence {
    /// A legal order of them, of which no open call can be left out.
    pub order: Vec<CallId>,
    /// The calls that have begun and not ended, in the order in which they began; the call itself is one of them.
    pub open_calls: Vec<CallId>,
    /// Replies with which the call could have ended there, as far as was searched.
    pub replies: Vec<Reply>,
}

/// What there is of the events before the end of a call, in a history of a module's object; `None` where the call does not end. A fault is
/// one of both texts, as a search for an order tells it.
pub fn evidence_of_text(
    alloc: Global,
    module: &[u8],
    history: &[u8],
    id: CallId,
    search: &Search,
) -> Result<Option<Evidence>, SearchFault>
    ensures evidence { IfOk result (λ found. MatchOption found (NeverEnds «module».now history.now id) (IsEvidence «module».now history.now search.now.budget id)) }
    ensures fault { IfErr result (IsSearchFault «module».now history.now search.now.budget search.now.most) }
{
    let checked = checked_text(alloc, module)?;
    evidence_of_checked(alloc, &checked, history, id, search)
}

/// The same, of a checked module, where variables go by their positions.
fn evidence_of_checked(
    alloc: Global,
    checked: &Checked,
    text: &[u8],
    id: CallId,
    search: &Search,
) -> Result<Option<Evidence>, SearchFault>
    ensures evidence { IfOk result (λ found.
        MatchOption found (IsNoEnd (program_in checked.now) text.now id) (HasEvidence BeginsPlaced CallEnds (program_in checked.now) text.now search.now.budget id)) }
    ensures fault { IfErr result (HasSearchFault BeginsPlaced TrapsPlaced CallEnds (program_in checked.now) text.now search.now.budget search.now.most) }
{
    let heard = hear(alloc, checked, text, search.budget)?;
    evidence_of_heard(alloc, checked, &heard, text, id, search)
}

/// The same of what is heard of a text.
fn evidence_of_heard(
    alloc: Global,
    checked: &Checked,
    heard: &Heard,
    _text: &[u8],
    id: CallId,
    search: &Search,
) -> Result<Option<Evidence>, SearchFault>
    requires { IsHeard (program_in checked.now) _text.now search.now.budget heard.now }
    ensures evidence { IfOk result (λ found.
        MatchOption found (IsNoEnd (program_in checked.now) _text.now id) (HasEvidence BeginsPlaced CallEnds (program_in checked.now) _text.now search.now.budget id)) }
    ensures fault { IfErr result (HasSearchFault BeginsPlaced TrapsPlaced CallEnds (program_in checked.now) _text.now search.now.budget search.now.most) }
{
    let names = heard.read.processes.as_slice();
    let events = heard.read.history.events();
    let Some((place, end)) = end_of(names, events, id) else {
        return Ok(None);
    };
    let object = ModuleObject::new(alloc, checked, &heard.opening, heard.budget)?;
    let before = copied(alloc, &events[..place])?;
    let order = order_found(alloc, &object, &before, names, search)?;
    let told = named_history(alloc, names, &before)?;
    let open_calls = open_calls(alloc, told.events())?;
    let calls = Calls {
        names,
        before: before.events(),
        order: &order,
    };
    let replies = possible_replies(alloc, &object, &calls, end, search)?;
    Ok(Some(Evidence {
        order,
        open_calls,
        replies,
    }))
}
