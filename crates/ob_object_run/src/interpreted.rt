//! Calls of an order, made by the interpreter.

use crate::history_replies::{call_in, object_reply};
use crate::maker::CallMaker;
use ob_checked::checked::Checked;
use ob_interface::NoMemory;
use ob_interface::call::Reply;
use ob_mean::outside_call::step;
use ob_store::state::State;
use std::alloc::Global;
use std::mem::replace;
use wf_history::SeenCall;

/// The interpreter of a checked module, the state that the calls so far have led to, and the turns of each call.
#[derive(Drop)]
pub(crate) struct Interpreted<'a> {
    pub(crate) checked: &'a Checked,
    pub(crate) state: State,
    pub(crate) budget: u64,
}

impl<'a> CallMaker for Interpreted<'a> {
    ghost use Rattle.ob_object_run.specs.Interpreting.{IsAt};

    // It takes any call.
    ghost takes = { λ program call. Unit {0} };

    ghost stands = { IsAt };

    fn make(&mut self, alloc: Global, call: SeenCall) -> Result<Reply, NoMemory> {
        let asked = call_in(alloc, call)?;
        let before = replace(&mut self.state, State::new(Vec::new(alloc)));
        let (next, answer) = step(alloc, self.checked.program(), before, &asked, self.budget)?;
        self.state = next;
        Ok(object_reply(alloc, &answer)?)
    }
}
