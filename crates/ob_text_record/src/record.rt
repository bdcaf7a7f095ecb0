//! What a run showed.

ghost use Rattle.std.specs.Prelude.{◌≡◌, IfOk, option_map};
ghost use Rattle.ob_text_record.specs.Record.{carried_from};
ghost use Rattle.ob_store.specs.View.{state_of};

use ob_interface::NoMemory;
use ob_store::state::State;
use std::alloc::Global;
use wf_history::{CallId, History};
use wf_table::Turns;

/// What a run showed: its events, the order of the applied calls, who stepped, and the variables that are left. Each call
/// had the budget of turns. Where the object began with values that were carried over, these are the variables with which it
/// began.
#[derive(Drop)]
pub struct Record {
    pub processes: usize,
    pub budget: u64,
    pub carried: Option<State>,
    pub history: History,
    pub order: Vec<CallId>,
    pub schedule: Vec<Turns>,
    pub state: State,
}

impl Record {
    ghost use Rattle.std.specs.Prelude.{◌≡◌, option_map};
    ghost use Rattle.ob_text_record.specs.Record.{record_of};
    ghost use Rattle.ob_store.specs.View.{state_of};

    /// The same record, of an object that began with these variables, if some were carried over.
    pub fn begun_by(self, carried: Option<State>) -> Record
        ensures { record_of result ≡ record (record_of self) { carried = option_map state_of carried } }
    {
        let mut told = self;
        told.carried = carried;
        told
    }
}

/// The state with which an object began, where it was carried over.
pub fn carried_state(opening: State, carried: bool) -> Option<State>
    ensures { option_map state_of result ≡ carried_from carried (state_of opening) }
{
    if carried { Some(opening) } else { None }
}

/// An equal one, of an object that keeps its own.
pub fn carried_copy(
    alloc: Global,
    opening: &State,
    carried: bool,
) -> Result<Option<State>, NoMemory>
    ensures { IfOk result (λ copied. option_map state_of copied ≡ carried_from carried (state_of opening.now)) }
{
    if carried {
        Ok(Some(opening.copy(alloc)?))
    } else {
        Ok(None)
    }
}
