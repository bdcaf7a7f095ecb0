//! A state as words, and calls on it by code.

ghost use Rattle.std.specs.Prelude.{◌≡◌, ◌<◌, All, length, map};
ghost use Rattle.ob_code_calls.specs.Calls.{left_by_all};
ghost use Rattle.ob_code_calls.specs.Parts.{parts_in, IsRoomFor};
ghost use Rattle.ob_code_correct.specs.Compiled.{IsFitting};
ghost use Rattle.ob_code_correct.specs.Parts.{IsLawfulFor};
ghost use Rattle.ob_interface.specs.View.{call_of};

use crate::noted_calls::{made_again, noted};
use crate::{CodeCalls, Room};
use ob_interface::NoMemory;
use ob_interface::call::{Call, Reply};
use ob_layout::{Layout, encode};
use ob_store::state::State;
use std::alloc::Global;

/// The code of a module, what its calls work in, and the words of the state that they have led to.
///
/// A call that traps leaves what it has written, so the words are kept, to be put back. That is not done before each call, which would
/// cost as much as there are words: the calls since then are noted, and are made again behind the words that were kept. The words are
/// kept anew as soon as these calls took as many instructions as there are words, so neither costs more than the calls do.
#[derive(Drop)]
pub struct CodedState {
    calls: CodeCalls,
    room: Room,
    block: Vec<i64>,
    /// The words that were kept, and the calls that were made since.
    kept: Vec<i64>,
    since: Vec<Call>,
    /// How many instructions these took. Where they are as many as the words, or more, they may be others than those that are noted.
    spent: u64,
    ghost room_is: { IsRoomFor (parts_in calls) room },
    ghost lawful: { ∥ IsLawfulFor (parts_in calls) block.items ∥₁ },
    ghost as_long: { length kept.items ≡ length block.items },
    ghost fit: { All (λ call. ∥ IsFitting (parts_in calls).exports call ∥₁) (map call_of since.items) },
    ghost again: { spent < length block.items → block.items ≡ left_by_all (parts_in calls) kept.items (map call_of since.items) },
}

impl CodedState {
    ghost use Rattle.std.specs.Prelude.{ℕ, IfOk};
    ghost use Rattle.ob_layout.specs.Layout as Layouts;
    ghost use Rattle.ob_code_correct.specs.Parts.{IsCompiledTo};
    ghost use Rattle.ob_code_scheme.specs.Layout.{encoded};
    ghost use Rattle.ob_code_scheme.specs.Types.{IsStateOf};
    ghost use Rattle.ob_code_calls.specs.Keeping.{IsKept};
    ghost use Rattle.ob_code_calls.specs.Standing.{IsLaidOut, IsMade, StandsAt};
    ghost use Rattle.ob_interface.specs.View.{reply_of};
    ghost use Rattle.ob_meaning.specs.ByPositionStore.{Activation};
    ghost use Rattle.ob_store.specs.View.{state_of};
    ghost use Rattle.ob_typing.specs.Program.{Program};

    /// Calls by this code, from this state on.
    pub fn begin(alloc: Global, calls: CodeCalls, opening: &State) -> Result<CodedState, NoMemory>
        requires { ∥ IsLawfulFor (parts_in calls) (encoded (state_of opening.now)) ∥₁ }
        ensures { (program : Program) → IsCompiledTo program (parts_in calls) → IsStateOf program.variables (state_of opening.now)
            → IfOk result (StandsAt program (parts_in calls).budget (state_of opening.now)) }
    {
        let room = calls.room(alloc)?;
        let block = encode(alloc, opening)?;
        let kept = Vec::from_slice(alloc, block.as_slice())?;
        Ok(CodedState {
            calls,
            room,
            block,
            kept,
            since: Vec::new(alloc),
            spent: 0,
        })
    }

    /// Keeps the words, where the calls since they were kept took as many instructions as there are words.
    fn keep(&mut self)
        ensures { IsKept self.old self.new }
    {
        if self.spent >= self.block.len() as u64 {
            self.kept
                .as_mut_slice()
                .copy_from_slice(self.block.as_slice());
            self.since.clear();
            self.spent = 0;
        }
    }

    /// A call that is made, and its reply. Where it traps, the state is as it was.
    pub fn call(&mut self, call: &Call) -> Reply
        requires { IsFitting (parts_in self.old.calls).exports (call_of call.now) }
        ensures { (program : Program) (budget : ℕ) (before : Activation) → StandsAt program budget before self.old
            → IsMade program budget (call_of call.now) before self.new (reply_of result) }
    {
        self.keep();
        let block = self.block.as_mut_slice();
        let (reply, steps) = self.calls.call_through(&mut self.room, block, call);
        if let Reply::Trap(_) = reply {
            let block = self.block.as_mut_slice();
            let kept = self.kept.as_slice();
            let since = self.since.as_slice();
            made_again(&self.calls, &mut self.room, block, kept, since);
            self.spent = u64::MAX;
            return reply;
        }
        let spent = self.spent.saturating_add(steps);
        self.spent = noted(&mut self.since, call, spent, self.block.len());
        reply
    }

    /// The state that the calls have led to.
    pub fn state(&self, alloc: Global, layout: &Layout) -> Result<State, NoMemory>
        requires { ∥ IsLaidOut (Layouts.parts_of layout.now) self.now ∥₁ }
        ensures { (program : Program) (budget : ℕ) (state : Activation) → Layouts.parts_of layout.now ≡ Layouts.layout_of program
            → StandsAt program budget state self.now → IfOk result (λ s. state_of s ≡ state) }
    {
        match layout.decode(alloc, self.block.as_slice())? {
            Some(state) => Ok(state),
            None => unreachable!(),
        }
    }
}
