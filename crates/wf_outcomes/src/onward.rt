//! Where calls lead on from a configuration.

ghost use Rattle.std.specs.Prelude.{IfOk, IfSome};

use crate::explored::Explored;
use crate::seen::Found;
use crate::step::{Task, stepped};
use ob_interface::NoMemory;
use ob_interface::call::Reply;
use std::alloc::Global;
use wf_order::Object;

/// The place of the configuration to which a call leads, and the call's reply.
#[derive(Drop)]
pub struct Onward {
    pub place: usize,
    pub reply: Reply,
}

impl<'a, O: Object> Explored<'a, O> {
    ghost use Rattle.std.specs.Prelude.{◌≡◌, ◌<◌, length, IfOk, MatchOption, option_map};
    ghost use Rattle.ob_interface.specs.View.{reply_of};
    ghost use Rattle.wf_outcomes.specs.Explored.{all_kept, calls_in, kept_in, IsWorded};
    ghost use Rattle.wf_outcomes.specs.Outcomes.{IsAtEnd, LeadsOn};

    /// To which place the next call of a process leads from a place, and its reply, if the process has one more call.
    pub fn onward(
        &self,
        alloc: Global,
        place: usize,
        process: usize,
    ) -> Result<Option<Onward>, NoMemory>
        requires place { place < length (all_kept O.meaning self.now.seen) }
        requires process { process < length self.now.scripts.now }
        ensures { IfOk result (λ next. MatchOption next (∥ IsAtEnd (O.effect self.now.object.now) (calls_in self.now.scripts.now) (all_kept O.meaning self.now.seen) place process ∥₁)
            (λ n. ∥ LeadsOn (O.effect self.now.object.now) (calls_in self.now.scripts.now) (all_kept O.meaning self.now.seen) place process (reply_of n.reply) n.place ∥₁)) }
    {
        let task = Task {
            alloc,
            object: self.object,
            scripts: self.scripts,
        };
        let Some((there, reply)) = stepped(&task, &self.seen[place], place, process)? else {
            return Ok(None);
        };
        match self.seen.get_index_of(&there) {
            Some(place) => Ok(Some(Onward { place, reply })),
            None => Err(NoMemory),
        }
    }
}
