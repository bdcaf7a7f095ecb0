//! The turns of calls, found by making each with other budgets.

ghost use Rattle.std.specs.Prelude.{◌≡◌, IfOk, map};
ghost use Rattle.ob_checked.specs.CheckedModule.{program_in};
ghost use Rattle.ob_mean.specs.Sequences.{replies_to};
ghost use Rattle.ob_mean.specs.View.{call_of, reply_of};
ghost use Rattle.ob_meaning.specs.ByPositionObject.{effect};
ghost use Rattle.ob_store.specs.View.{state_of};
ghost use Rattle.ob_mean.specs.Turns.{IsLeastBudget, all_turns_at, is_out_of_turns, turns_at};

use crate::call::{Call, Reply};
use crate::outside_call::{interpret, step};
use ob_checked::checked::Checked;
use ob_checked::trap::{Trap, trap_number};
use ob_interface::NoMemory;
use ob_store::state::State;
use std::alloc::Global;

/// The turns of calls that are made one at a time.
#[derive(Drop)]
pub struct Turns {
    /// Of each call, how many it took of its budget.
    pub taken: Vec<u64>,
    /// The least budget with which all replies are the same.
    pub least: u64,
}

/// The turns of calls made one at a time from a state, which is given up, each with the budget. Each call is made some times, at most
/// twice for each doubling of the turns that it takes.
pub fn turns_in_turn(
    alloc: Global,
    checked: &Checked,
    begun: State,
    calls: &[Call],
    budget: u64,
) -> Result<Turns, NoMemory>
    ensures taken { IfOk result (λ turns. turns.taken.items ≡ all_turns_at (program_in checked.now) budget (state_of begun) (map call_of calls.now)) }
    ensures least { IfOk result (λ turns.
        IsLeastBudget (λ b. replies_to (program_in checked.now) b (state_of begun) (map call_of calls.now)) budget turns.least) }
{
    let mut state = begun;
    let mut taken = Vec::with_capacity(alloc, calls.len())?;
    let mut least = 0;
    for call in calls {
        let turns = turns_taken(alloc, checked, &state, call, budget)?;
        let (next, reply) = step(alloc, checked.program(), state, call, budget)?;
        if !is_out_of_turns(&reply) {
            least = turns.max(least);
        }
        taken.push(turns)?;
        state = next;
    }
    Ok(Turns { taken, least })
}

/// How many turns a call takes of a budget in a state.
fn turns_taken(
    alloc: Global,
    checked: &Checked,
    state: &State,
    call: &Call,
    budget: u64,
) -> Result<u64, NoMemory>
    ensures { IfOk result (λ turns. turns ≡ turns_at (program_in checked.now) (call_of call.now) budget (state_of state.now)) }
{
    let mut low = 0;
    let mut high = budget;
    while low < high {
        // (not far beyond those that were too few, as a call may use up all that it is given)
        let turns = low + low.min((high - low) / 2);
        if runs_out(alloc, checked, state, call, turns)? {
            low = turns + 1;
        } else {
            high = turns;
        }
    }
    Ok(low)
}

/// Whether a call runs out of so many turns in a state.
fn runs_out(
    alloc: Global,
    checked: &Checked,
    state: &State,
    call: &Call,
    turns: u64,
) -> Result<bool, NoMemory>
    ensures { IfOk result (λ out. out ≡ is_out_of_turns (effect (program_in checked.now) (call_of call.now) turns (state_of state.now)).reply) }
{
    let (_, reply) = interpret(alloc, checked, state, call, turns)?;
    Ok(is_out_of_turns(&reply))
}

/// Whether a reply says that no turn was left.
fn is_out_of_turns(reply: &Reply) -> bool
    ensures { result ≡ is_out_of_turns (reply_of reply.now) }
{
    match reply {
        Reply::Answers(_) => false,
        Reply::Trapped(number) => *number == trap_number(Trap::NoTurnLeft),
    }
}
