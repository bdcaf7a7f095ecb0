//! What a search asks of an object.

use ob_interface::NoMemory;
use ob_interface::call::Reply;
use smallvec::SmallVec;
use std::alloc::Global;
use wf_history::{SeenCall, SeenReply};

/// A state in words.
pub type Words = SmallVec<u64, 2>;

/// An object that is used by one call at a time. What a call does is determined by the state and the call.
pub trait Object {
    ghost use Rattle.std.specs.Prelude.{◌≡◌, ◌↔◌, ℕ, List, IfOk, IsTrue, option_map};
    ghost use Rattle.ob_interface.specs.Call.{ObjectCall, Reply};
    ghost use Rattle.ob_interface.specs.Call.{Reply as AnyReply};
    ghost use Rattle.ob_interface.specs.View.{reply_of};
    ghost use Rattle.wf_history.specs.View.{seen_call, seen_reply};
    ghost use Rattle.wf_order.specs.Rules.{IsOutcome, RepliesAlike};

    /// How a state is kept.
    type State: Drop;

    // What a state stands for.
    ghost Meaning: { Type 0 };

    ghost meaning: { Self.State → Meaning };

    // What it begins with.
    ghost opening: { Self → Meaning };

    // The call, made on the first state, leads to the second, with this reply.
    ghost effect: { Self → ObjectCall → Meaning → Meaning → Reply → Type 0 };

    // A state in words.
    ghost words_of: { Meaning → List ℕ };

    /// The state that the object begins with.
    fn open(&self, alloc: Global) -> Result<Self::State, NoMemory>
        ensures { IfOk result (λ state. meaning state ≡ opening self.now) };

    /// What a call makes of a state, and what it answers.
    fn apply(
        &self,
        alloc: Global,
        state: &Self::State,
        call: SeenCall,
    ) -> Result<(Self::State, Reply), NoMemory>
        ensures { IfOk result (λ made. effect self.now (seen_call call.entry) (meaning state.now) (meaning made.0) (reply_of made.1)) };

    /// What a call makes of a state, where its reply is the one that is known, if one is, and nothing where it is another one.
    fn outcome(
        &self,
        alloc: Global,
        state: &Self::State,
        call: SeenCall,
        known: Option<SeenReply>,
    ) -> Result<Option<Self::State>, NoMemory>
        ensures { IfOk result (λ to. IsOutcome (effect self.now (seen_call call.entry)) (meaning state.now) (option_map seen_reply known.entry) (option_map meaning to)) };

    /// A copy of a state.
    fn copy(&self, alloc: Global, state: &Self::State) -> Result<Self::State, NoMemory>
        ensures { IfOk result (λ same. meaning same ≡ meaning state.now) };

    /// Whether two states are the same.
    fn is_same(
        &self,
        alloc: Global,
        state: &Self::State,
        other: &Self::State,
    ) -> Result<bool, NoMemory>
        ensures { IfOk result (λ same. IsTrue same ↔ (meaning state.now ≡ meaning other.now)) };

    /// The state in words. No two states have the same ones.
    fn words(&self, alloc: Global, state: &Self::State) -> Result<Words, NoMemory>
        ensures { IfOk result (λ words. words.items ≡ words_of (meaning state.now)) };

    /// Whether a call leaves the state as it is, whatever the state, wherever it has this reply. Where it says no of a call
    /// that does, a search takes longer, and answers as well.
    fn is_silent(&self, call: SeenCall, reply: SeenReply) -> bool
        ensures { IsTrue result → (before after : Meaning) → effect self.now (seen_call call.entry) before after (seen_reply reply.entry) → before ≡ after };

    /// Whether a call leaves the state as it is, whatever the state and the reply. Where it says no of a call that does, a search
    /// takes longer, and answers as well.
    fn is_reader(&self, call: SeenCall) -> bool
        ensures { IsTrue result → (before after : Meaning) (reply : AnyReply) → effect self.now (seen_call call.entry) before after reply → before ≡ after };

    /// Whether the reply of a call depends on its procedure and the state alone: where another call of the procedure has a reply, this one has it
    /// too. Where it says no of a call of which this is so, a search takes longer, and answers as well.
    fn replies_by_state(&self, call: SeenCall) -> bool
        ensures { IsTrue result → (other : ObjectCall) → other.export ≡ (seen_call call.entry).export
            → RepliesAlike (effect self.now other) (effect self.now (seen_call call.entry)) };

    /// A call has one outcome.
    ghost determined: { (object : Self) (call : ObjectCall) (before after other : Meaning) (reply answer : Reply)
        → effect object call before after reply → effect object call before other answer → (after ≡ other) × (reply ≡ answer) };

    /// States with the same words are the same.
    ghost told_apart: { (a b : Meaning) → words_of a ≡ words_of b → a ≡ b };
}
