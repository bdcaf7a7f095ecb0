//! What a call of an order comes to.

ghost use Rattle.std.specs.Prelude.{IfOk, option_map};
ghost use Rattle.ob_checked.specs.CheckedModule.{program_in};
ghost use Rattle.ob_object_run.specs.LegalOrder.{CallEnds};
ghost use Rattle.ob_object_calls.specs.MadeCalls.{IsFound};
ghost use Rattle.ob_object_calls.specs.View.{made_of};
ghost use Rattle.ob_store.specs.View.{state_of};

use crate::call_names::place_in;
use crate::history_calls::meant_reply;
use crate::history_ends::told_reply;
use ob_checked::checked::Checked;
use ob_interface::NoMemory;
use ob_mean::call::Reply;
use ob_store::state::State;
use std::alloc::Global;
use wf_history::{CallId, History};

/// A call of an order, and what it comes to.
#[derive(Drop)]
pub struct MadeCall {
    /// The calls before it in the order.
    pub before: Vec<CallId>,
    /// Its reply in the history.
    pub told: Reply,
    /// The reply that it has when these calls and it are made one at a time.
    pub meant: Reply,
}

/// What a call of an order comes to, where it and the calls before it are made one at a time from the opening state, each with the budget
/// of turns. There is one where `check_order` tells of another reply.
pub fn made_call(
    alloc: Global,
    history: &History,
    order: &[CallId],
    checked: &Checked,
    opening: &State,
    budget: u64,
    id: CallId,
) -> Result<Option<MadeCall>, NoMemory>
    ensures { IfOk result (λ made. IsFound (CallEnds (program_in checked.now) budget) (state_of opening.now) history.now order.now id (option_map made_of made)) }
{
    let events = history.events();
    let Some(place) = place_in(order, id) else {
        return Ok(None);
    };
    let before = &order[..place];
    let Some(meant) = meant_reply(alloc, events, before, checked, opening, budget, id)? else {
        return Ok(None);
    };
    let Some(told) = told_reply(alloc, events, id)? else {
        return Ok(None);
    };
    let before = Vec::from_slice(alloc, before)?;
    Ok(Some(MadeCall {
        before,
        told,
        meant,
    }))
}
