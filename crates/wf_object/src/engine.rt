//! What a machine asks of a sequential object: an engine, and the law that it meets.

use ob_interface::NoMemory;
use ob_interface::call::{Call, Reply};
use std::alloc::Global;
use wf_table::EngineTurn;

/// A sequential object whose state is a block of words. A run holds what one body keeps between
/// its steps.
pub trait Engine: Drop {
    type Run: Drop;

    ghost use Rattle.std.specs.Prelude.{◌≡◌, ◌<◌, ◌≤◌, ◌+◌, length, List, ℕ, ℤ, IfOk};
    ghost use Rattle.ob_interface.specs.Call.{ObjectCall, Reply};
    ghost use Rattle.ob_interface.specs.View.{call_of, reply_of};
    ghost use Rattle.wf_table.specs.declared.engine_turn.EngineTurn.TheVariants as Turn;
    ghost use Rattle.wf_table.specs.Meaning.{Meaning, steps};
    ghost use Rattle.wf_table.specs.Law.{IsLawful};

    /// What the engine computes: numbers of words, and what the steps of a body do.
    ghost meaning: { Self → Meaning Self.Run };

    /// The blocks that it works on.
    ghost lawful: { Self → List ℤ → Type 0 };

    /// The calls that it takes.
    ghost fits: { Self → ObjectCall → Type 0 };

    /// The runs that it can start and step without taking memory.
    ghost ready: { Self → Self.Run → Type 0 };

    /// What a call does, made alone: from this block it leads to that block, and has this reply. A
    /// call that doesn't end has no effect.
    ghost effect: { Self → ObjectCall → List ℤ → List ℤ → Reply → Type 0 };

    /// Words of a block.
    fn variable_words(&self) -> usize
        ensures { result ≡ (meaning self.now).variables };

    /// Words of a body's results.
    fn reply_words(&self) -> usize
        ensures { result ≡ (meaning self.now).replies };

    /// Words of an announced call.
    fn announce_words(&self) -> usize
        ensures { result ≡ (meaning self.now).arguments };

    /// A run to be started; it may hold anything.
    fn new_run(&self, alloc: Global) -> Result<Self::Run, NoMemory>
        ensures { IfOk result (ready self.now) };

    /// Writes a call as words.
    fn lay(&self, call: &Call, words: &mut [i64])
        requires fits { fits self.now (call_of call.now) }
        requires words { length words.old ≡ (meaning self.now).arguments }
        ensures { words.new ≡ (meaning self.now).lay (call_of call.now) };

    /// Starts the body of the call that the words hold; what the run held before is gone.
    fn start(&self, run: &mut Self::Run, words: &[i64])
        requires ready { ready self.now run.old }
        requires words { length words.now ≡ (meaning self.now).arguments }
        ensures { run.new ≡ (meaning self.now).start words.now };

    /// One step of the body on a block.
    fn step(&self, run: &mut Self::Run, block: &mut [i64]) -> EngineTurn
        requires ready { ready self.now run.old }
        requires block { length block.old ≡ (meaning self.now).variables }
        ensures turn { result ≡ ((meaning self.now).step run.old block.old).turn }
        ensures run { run.new ≡ ((meaning self.now).step run.old block.old).run }
        ensures block { block.new ≡ ((meaning self.now).step run.old block.old).block };

    /// Steps of the body on a block, at most so many, up to the first behind which it doesn't go on: how many they are, and what the
    /// last one answers. Here they are made one by one; an engine may make them in a quicker way. The function stands apart, so that
    /// what a step needs is at hand in the loop.
    #[inline(never)]
    fn steps(&self, run: &mut Self::Run, block: &mut [i64], most: u64) -> (u64, EngineTurn)
        requires ready { ready self.now run.old }
        requires block { length block.old ≡ (meaning self.now).variables }
        ensures few { result.0 ≤ most }
        ensures some { 0 < most → 0 < result.0 }
        ensures on { (j : ℕ) → j < result.0 → (steps (meaning self.now) j run.old block.old).turn ≡ Turn.On }
        ensures turn { result.1 ≡ (steps (meaning self.now) result.0 run.old block.old).turn }
        ensures run { run.new ≡ (steps (meaning self.now) result.0 run.old block.old).run }
        ensures block { block.new ≡ (steps (meaning self.now) result.0 run.old block.old).block }
    {
        for count in 0..most {
            match self.step(run, block) {
                EngineTurn::On => {}
                turn => return (count + 1, turn),
            }
        }
        (most, EngineTurn::On)
    }

    /// Result i of a body that has returned.
    fn result(&self, run: &Self::Run, i: usize) -> i64
        requires ready { ready self.now run.now }
        requires place { i < (meaning self.now).replies }
        ensures { result ≡ (meaning self.now).result run.now i };

    /// The reply to a call that a status (0, or a trap's number) and results stand for.
    fn reply(&self, call: &Call, words: &[i64]) -> Reply
        requires fits { fits self.now (call_of call.now) }
        requires words { length words.now ≡ (meaning self.now).replies + 1 }
        ensures { reply_of result ≡ (meaning self.now).reply (call_of call.now) words.now };

    /// Its steps lead to the block and the reply of each call's effect.
    ghost law: { (e : Self) → IsLawful (meaning e) (lawful e) (fits e) (ready e) (effect e) };
}
