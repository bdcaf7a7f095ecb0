//! Calls one at a time, each with the site of its trap.

ghost use Rattle.std.specs.Prelude.{◌≡◌, IfOk, map, option_map};
ghost use Rattle.ob_checked.specs.CheckedModule.{program_in};
ghost use Rattle.ob_mean.specs.View.{call_of, reply_of};
ghost use Rattle.ob_meaning.specs.ByPositionObject.{effect};
ghost use Rattle.ob_store.specs.View.{state_of};
ghost use Rattle.ob_trap_places.specs.TrapOfCall as Sites;
ghost use Rattle.ob_trap_places.specs.Reaching.{site_of};
ghost use Rattle.ob_trap_places.specs.Sequence.{IsSiteBehind, sites_from};

use crate::call_site::site_of_call;
use crate::site::Site;
use ob_checked::checked::Checked;
use ob_interface::NoMemory;
use ob_mean::call::{Call, Reply};
use ob_mean::outside_call::step;
use ob_store::state::State;
use std::alloc::Global;

/// Of calls made one at a time from a state, each with the budget: where the trap of each comes from, if it traps.
pub fn sites_in_turn(
    alloc: Global,
    checked: &Checked,
    begun: State,
    calls: &[Call],
    budget: u64,
) -> Result<Vec<Option<Site>>, NoMemory>
    ensures { IfOk result (λ sites. map (option_map site_of) sites.items
        ≡ sites_from (program_in checked.now) budget (state_of begun) (map call_of calls.now)) }
{
    let mut state = begun;
    let mut sites = Vec::new(alloc);
    for call in calls {
        let (next, site) = step_sited(alloc, checked, state, call, budget)?;
        state = next;
        sites.push(site)?;
    }
    Ok(sites)
}

/// What one call leaves of a state that is given up, and where its trap comes from, if it traps.
fn step_sited(
    alloc: Global,
    checked: &Checked,
    state: State,
    call: &Call,
    budget: u64,
) -> Result<(State, Option<Site>), NoMemory>
    ensures state { IfOk result (λ made. state_of made.0 ≡ (effect (program_in checked.now) (call_of call.now) budget (state_of state)).state) }
    ensures site { IfOk result (λ made. option_map site_of made.1 ≡ Sites.site_of_call (program_in checked.now) (call_of call.now) budget (state_of state)) }
{
    let (next, reply) = step(alloc, checked.program(), state, call, budget)?;
    let site = site_behind(alloc, checked, &next, &reply, call, budget)?;
    Ok((next, site))
}

/// Where the trap of a call comes from that left this state and this reply, if it traps. A call that traps leaves the state as
/// it was, so that it can be made again for the site.
fn site_behind(
    alloc: Global,
    checked: &Checked,
    state: &State,
    reply: &Reply,
    call: &Call,
    budget: u64,
) -> Result<Option<Site>, NoMemory>
    ensures { IfOk result (λ site.
        IsSiteBehind (program_in checked.now) (call_of call.now) budget (state_of state.now) (reply_of reply.now) (option_map site_of site)) }
{
    match reply {
        Reply::Answers(_) => Ok(None),
        Reply::Trapped(_) => site_of_call(alloc, checked, state, call, budget),
    }
}
