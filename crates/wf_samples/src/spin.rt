//! Calls of several words on no variables, whose bodies may go on for ever, with runs of a size of their own.

ghost use Rattle.std.specs.Prelude.{◌<◌, ◌^◌};

use crate::scalar_words::argument;
use ob_interface::NoMemory;
use ob_interface::call::{Call, Reply};
use smallvec::SmallVec;
use std::alloc::Global;
use std::marker::Model;
use wf_object::{Engine, EngineTurn};

/// The words of the call whose body runs, in memory that was taken before.
#[derive(Drop)]
pub struct SpinRun {
    said: Vec<i64>,
}

impl Model for SpinRun {
    ghost use Rattle.std.specs.Prelude.{List, ℤ};

    ghost Value = { List ℤ };

    ghost view = { λ r. r.said.items };
}

/// A call returns where its first argument is 0, traps with number 7 where it is below 0, and else
/// goes on for ever. Its announcement has so many words.
#[derive(Drop)]
pub struct Spin {
    pub alloc: Global,
    pub words: usize,
    pub ghost some: { 0 < words },
    pub ghost few: { words < 2 ^ 32 },
}

impl Engine for Spin {
    ghost use Rattle.std.specs.Prelude.{◌≡◌, pos};
    ghost use Rattle.wf_samples.specs.Spin.{spin, Spins, IsNoWord, HasRoom};
    ghost use Rattle.wf_samples.specs.SpinLaw.{spin_lawful};

    type Run = SpinRun;

    ghost meaning = { λ e. spin e.words };

    ghost lawful = { λ _. IsNoWord };

    ghost fits = { λ _ _. Unit {0} };

    ghost ready = { λ e. HasRoom e.words };

    ghost effect = { λ _. Spins };

    fn variable_words(&self) -> usize {
        0
    }

    fn reply_words(&self) -> usize {
        0
    }

    fn announce_words(&self) -> usize {
        self.words
    }

    fn new_run(&self, alloc: Global) -> Result<SpinRun, NoMemory> {
        Ok(SpinRun {
            said: vec![in alloc; 0; self.words]?,
        })
    }

    fn lay(&self, call: &Call, words: &mut [i64]) {
        words.fill(argument(call));
    }

    fn start(&self, run: &mut SpinRun, words: &[i64]) {
        run.said.copy_from_slice(words);
    }

    fn step(&self, run: &mut SpinRun, _block: &mut [i64]) -> EngineTurn {
        let first = run.said[0];
        if first == 0 {
            EngineTurn::Returned
        } else if first < 0 {
            EngineTurn::Trapped(7)
        } else {
            EngineTurn::On
        }
    }

    // With no words of results nobody can ask for one, so it promises one to all.
    fn result(&self, _run: &SpinRun, _i: usize) -> i64
        ensures { result ≡ pos 0 }
    {
        0
    }

    fn reply(&self, _call: &Call, words: &[i64]) -> Reply {
        if words[0] != 0 {
            return Reply::Trap(7);
        }
        Reply::Done(SmallVec::new(self.alloc))
    }

    ghost law = { λ e. spin_lawful e.words e.some e.few };
}
