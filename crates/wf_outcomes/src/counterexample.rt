//! The first configuration at which a call has another reply than is wanted.

ghost use Rattle.std.specs.Prelude.{◌↔◌, IfOk, IsTrue};
ghost use Rattle.wf_outcomes.specs.Questions.{IsAnswered};

use crate::explored::Explored;
use crate::step::applied;
use ob_interface::NoMemory;
use std::alloc::Global;
use wf_history::{CallId, KeptCall, KeptReply, same_reply};
use wf_order::Object;

/// What is asked at each configuration: a call that is made on its state alone, and the reply that it is to have.
#[derive(Clone, Copy)]
pub struct Question<'q> {
    pub call: &'q KeptCall,
    pub wanted: &'q KeptReply,
}

/// A configuration at which the call has another reply, by its place, and the calls that first led there.
#[derive(Drop)]
pub struct Bad {
    pub place: usize,
    pub path: Vec<CallId>,
}

/// Whether the call has the reply that is wanted.
fn answers<O: Object>(
    alloc: Global,
    object: &O,
    state: &O::State,
    question: Question,
) -> Result<bool, NoMemory>
    ensures { IfOk result (λ good. IsTrue good ↔ IsAnswered (O.effect object.now) question.entry (O.meaning state.now)) }
{
    let (_, reply) = applied(alloc, object, state, question.call)?;
    Ok(same_reply(&reply, question.wanted))
}

impl<'a, O: Object> Explored<'a, O> {
    ghost use Rattle.std.specs.Prelude.{length, IfOk, MatchOption};
    ghost use Rattle.wf_outcomes.specs.Explored.{all_kept, calls_in};
    ghost use Rattle.wf_outcomes.specs.Outcomes.{AlwaysGood, AreGood, IsFirstBad, IsFirstPlace};
    ghost use Rattle.wf_outcomes.specs.Questions.{IsAnswered};

    /// The first place at which the call has another reply.
    fn first_failing(&self, alloc: Global, question: Question) -> Result<Option<usize>, NoMemory>
        ensures { IfOk result (λ found. MatchOption found
            (AreGood (IsAnswered (O.effect self.now.object.now) question.entry) (all_kept O.meaning self.now.seen) (length (all_kept O.meaning self.now.seen)))
            (IsFirstPlace (IsAnswered (O.effect self.now.object.now) question.entry) (all_kept O.meaning self.now.seen))) }
    {
        for place in 0..self.seen.len() {
            if !answers(alloc, self.object, self.seen[place].state(), question)? {
                return Ok(Some(place));
            }
        }
        Ok(None)
    }

    /// The first configuration at which the call has another reply than is wanted, if there is one: no fewer calls lead to
    /// one. Where there is none, the call has the reply at each configuration that can be reached.
    pub fn first_bad(&self, alloc: Global, question: Question) -> Result<Option<Bad>, NoMemory>
        ensures { IfOk result (λ found. MatchOption found
            ∥ AlwaysGood (O.effect self.now.object.now) (calls_in self.now.scripts.now) (O.opening self.now.object.now)
            (IsAnswered (O.effect self.now.object.now) question.entry) ∥₁
            (λ bad. ∥ IsFirstBad (O.effect self.now.object.now) (calls_in self.now.scripts.now) (O.opening self.now.object.now) (all_kept O.meaning self.now.seen)
            (IsAnswered (O.effect self.now.object.now) question.entry) bad.place bad.path.items ∥₁)) }
    {
        let Some(place) = self.first_failing(alloc, question)? else {
            return Ok(None);
        };
        let path = self.path_to(alloc, place)?;
        Ok(Some(Bad { place, path }))
    }
}
