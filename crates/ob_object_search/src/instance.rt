//! A module's object, as a search takes it.

ghost use Rattle.std.specs.Prelude.{◌≡◌, IfOk};
ghost use Rattle.ob_checked.specs.CheckedModule.{program_in};
ghost use Rattle.ob_interface.specs.View as Objects;
ghost use Rattle.ob_mean.specs.View.{reply_of};
ghost use Rattle.ob_carry.specs.ReadOnly.{TellsReadOnly};
ghost use Rattle.ob_state_replies.specs.StateReplies.{TellsStateReplies};
ghost use Rattle.ob_object_search.specs.Code.{IsCodeOf};

use crate::coding::module_code;
use crate::kept_states::{KeptState, kept};
use ob_carry::silent_exports::read_only_exports;
use ob_checked::checked::Checked;
use ob_code_calls::{Led, Request, ScalarCalls};
use ob_interface::NoMemory;
use ob_interface::call::Reply;
use ob_mean::call as interpreter;
use ob_mean::outside_call::step;
use ob_state_replies::{is_told, state_replies};
use ob_store::state::State;
use ob_store::value::copy_all;
use smallvec::SmallVec;
use std::alloc::{AllocError, Global};
use wf_history::{SeenCall, SeenReply};
use wf_lookup::compared_replies::is_same_reply;
use wf_order::Object;
use wf_order::searched_object::Words;

/// The object of a checked module that begins with this state, each call with so many turns.
#[derive(Drop)]
pub struct ModuleObject<'a> {
    pub checked: &'a Checked,
    pub opening: &'a State,
    pub budget: u64,
    /// Of each export, whether it is known to change no variable of the module.
    read_only: Vec<bool>,
    /// Of each export, whether its reply is known to depend on no argument.
    of_state: Vec<bool>,
    /// The code of its calls, where there is any.
    code: Option<ScalarCalls>,
    ghost coded: { ∥ IsCodeOf (program_in checked.now) budget code ∥₁ },
    ghost tells: { ∥ TellsReadOnly (program_in checked.now) read_only.items ∥₁ },
    ghost tells_of_state: { ∥ TellsStateReplies (program_in checked.now) of_state.items ∥₁ },
}

impl<'a> ModuleObject<'a> {
    ghost use Rattle.std.specs.Prelude.{◌≡◌, IfOk};

    /// The object of a module that begins with a state, each call with so many turns.
    pub fn new(
        alloc: Global,
        checked: &'a Checked,
        opening: &'a State,
        budget: u64,
    ) -> Result<ModuleObject<'a>, NoMemory>
        ensures checked { IfOk result (λ o. o.checked.now ≡ checked.now) }
        ensures opening { IfOk result (λ o. o.opening.now ≡ opening.now) }
        ensures budget { IfOk result (λ o. o.budget ≡ budget) }
    {
        let read_only = read_only_exports(alloc, checked)?;
        let of_state = state_replies(alloc, checked)?;
        let code = module_code(alloc, checked, budget)?;
        Ok(ModuleObject {
            checked,
            opening,
            budget,
            read_only,
            of_state,
            code,
        })
    }
}

/// The interpreter's reply, as an object gives it.
fn object_reply(alloc: Global, reply: &interpreter::Reply) -> Result<Reply, AllocError>
    ensures { IfOk result (λ given. Objects.reply_of given ≡ reply_of reply.now) }
{
    match reply {
        interpreter::Reply::Answers(values) => {
            Ok(Reply::Done(SmallVec::from_slice(alloc, values.as_slice())?))
        }
        interpreter::Reply::Trapped(number) => Ok(Reply::Trap(*number)),
    }
}

impl<'a> ModuleObject<'a> {
    ghost use Rattle.std.specs.Prelude.{IfOk, option_map};
    ghost use Rattle.ob_checked.specs.CheckedModule.{program_in};
    ghost use Rattle.ob_object_search.specs.Objects.{ComesOf, LeadsTo};
    ghost use Rattle.ob_interface.specs.View as Objects;
    ghost use Rattle.wf_history.specs.View.{seen_call, seen_reply};

    /// What a call makes of a state by the interpreter, and what it answers. It stands apart, so that a call by code makes no room for it.
    #[inline(never)]
    fn called_by_tree(
        &self,
        alloc: Global,
        state: &KeptState,
        call: SeenCall,
    ) -> Result<(KeptState, Reply), NoMemory>
        ensures { IfOk result (λ made. LeadsTo self.now (seen_call call.entry) state.now made.0 (Objects.reply_of made.1)) }
    {
        let before = state.state(alloc)?;
        let call = interpreter::Call {
            export: call.proc,
            arguments: Vec::from_slice(alloc, call.args.lent().as_slice())?,
        };
        let (next, reply) = step(alloc, self.checked.program(), before, &call, self.budget)?;
        let given = object_reply(alloc, &reply)?;
        Ok((kept(alloc, next.into_values())?, given))
    }

    /// What comes of a call by the interpreter, where its reply is the one that is known, if one is. It stands apart for the same reason.
    #[inline(never)]
    fn outcome_by_tree(
        &self,
        alloc: Global,
        state: &KeptState,
        call: SeenCall,
        known: Option<SeenReply>,
    ) -> Result<Option<KeptState>, NoMemory>
        ensures { IfOk result (ComesOf self.now (seen_call call.entry) state.now (option_map seen_reply known.entry)) }
    {
        let (next, reply) = self.called_by_tree(alloc, state, call)?;
        match known {
            None => Ok(Some(next)),
            Some(other) => {
                if is_same_reply(&reply, other) {
                    Ok(Some(next))
                } else {
                    Ok(None)
                }
            }
        }
    }
}

impl<'a> Object for ModuleObject<'a> {
    ghost use Rattle.ob_checked.specs.CheckedModule.{program_in};
    ghost use Rattle.ob_object_run.specs.LegalOrder.{CallEnds};
    ghost use Rattle.ob_object_search.specs.Laws.{one_outcome, words_told_apart};
    ghost use Rattle.ob_object_search.specs.Kept.{kept_in};
    ghost use Rattle.ob_object_search.specs.Words.{words_of};
    ghost use Rattle.ob_meaning.specs.ByPositionStore.{Activation};
    ghost use Rattle.ob_store.specs.View.{state_of};

    type State = KeptState;

    ghost Meaning = { Activation };

    ghost meaning = { kept_in };

    ghost opening = { λ o. state_of o.opening.now };

    ghost effect = { λ o. CallEnds (program_in o.checked.now) o.budget };

    ghost words_of = { words_of };

    fn open(&self, alloc: Global) -> Result<KeptState, NoMemory> {
        let values = self.opening.copy(alloc)?.into_values();
        kept(alloc, values)
    }

    fn apply(
        &self,
        alloc: Global,
        state: &KeptState,
        call: SeenCall,
    ) -> Result<(KeptState, Reply), NoMemory> {
        if let Some(code) = &self.code
            && let KeptState::Scalars(scalars) = state
        {
            let variables = self.checked.program().variables.as_slice();
            let scalars = scalars.as_slice();
            let lent = call.args.lent();
            let made = code.called(variables, scalars, call.proc, lent.as_slice())?;
            if let Some((after, answer)) = made {
                return Ok((KeptState::Scalars(after), answer));
            }
        }
        self.called_by_tree(alloc, state, call)
    }

    fn outcome(
        &self,
        alloc: Global,
        state: &KeptState,
        call: SeenCall,
        known: Option<SeenReply>,
    ) -> Result<Option<KeptState>, NoMemory> {
        if let Some(code) = &self.code
            && let KeptState::Scalars(scalars) = state
        {
            let variables = self.checked.program().variables.as_slice();
            let scalars = scalars.as_slice();
            // What is lent is looked at at once: where it lies is then not asked twice.
            let lent = call.args.lent();
            let arguments = lent.as_slice();
            let request = Request {
                proc: call.proc,
                arguments,
                known,
            };
            let led = code.led(variables, scalars, request)?;
            match led {
                Led::To(after) => return Ok(Some(KeptState::Scalars(after))),
                Led::Elsewhere => return Ok(None),
                Led::Nowhere => {}
            }
        }
        self.outcome_by_tree(alloc, state, call, known)
    }

    fn copy(&self, alloc: Global, state: &KeptState) -> Result<KeptState, NoMemory> {
        match state {
            KeptState::Scalars(scalars) => {
                Ok(KeptState::Scalars(SmallVec::from_slice(alloc, scalars.as_slice())?))
            }
            KeptState::Values(values) => Ok(KeptState::Values(copy_all(alloc, values.as_slice())?)),
        }
    }

    fn is_same(
        &self,
        alloc: Global,
        state: &KeptState,
        other: &KeptState,
    ) -> Result<bool, NoMemory> {
        if let (KeptState::Scalars(scalars), KeptState::Scalars(others)) = (state, other) {
            return Ok(scalars.as_slice() == others.as_slice());
        }
        let words = state.words(alloc)?;
        let others = other.words(alloc)?;
        Ok(words.as_slice() == others.as_slice())
    }

    fn words(&self, alloc: Global, state: &KeptState) -> Result<Words, NoMemory> {
        state.words(alloc)
    }

    fn is_silent(&self, call: SeenCall, reply: SeenReply) -> bool {
        matches!(reply, SeenReply::Trap(_)) || is_told(&self.read_only, call.proc)
    }

    fn is_reader(&self, call: SeenCall) -> bool {
        is_told(&self.read_only, call.proc)
    }

    fn replies_by_state(&self, call: SeenCall) -> bool {
        is_told(&self.of_state, call.proc)
    }

    ghost determined = { λ o. one_outcome (program_in o.checked.now) o.budget };

    ghost told_apart = { words_told_apart };
}
