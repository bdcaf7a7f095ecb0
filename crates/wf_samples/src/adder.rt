//! One word, to which each call adds its argument.

use crate::scalar_words::{argument, scalar};
use ob_interface::NoMemory;
use ob_interface::call::{Call, Reply};
use smallvec::SmallVec;
use std::alloc::Global;
use wf_object::{Engine, EngineTurn};

#[derive(Clone, Copy)]
pub struct AdderRun {
    pub argument: i64,
    pub sum: i64,
}

/// Each call adds its argument to the one word and answers the sum. A body has one step.
#[derive(Drop)]
pub struct Adder {
    pub alloc: Global,
}

impl Engine for Adder {
    ghost use Rattle.wf_samples.specs.Adder.{adder, Adds, IsOneWord};
    ghost use Rattle.wf_samples.specs.AdderLaw.{adder_lawful};

    type Run = AdderRun;

    ghost meaning = { λ _. adder };

    ghost lawful = { λ _. IsOneWord };

    ghost fits = { λ _ _. Unit {0} };

    ghost ready = { λ _ _. Unit {0} };

    ghost effect = { λ _. Adds };

    fn variable_words(&self) -> usize {
        1
    }

    fn reply_words(&self) -> usize {
        1
    }

    fn announce_words(&self) -> usize {
        1
    }

    fn new_run(&self, _alloc: Global) -> Result<AdderRun, NoMemory> {
        Ok(AdderRun {
            argument: 0,
            sum: 0,
        })
    }

    fn lay(&self, call: &Call, words: &mut [i64]) {
        words[0] = argument(call);
    }

    fn start(&self, run: &mut AdderRun, words: &[i64]) {
        run.argument = words[0];
        run.sum = 0;
    }

    fn step(&self, run: &mut AdderRun, block: &mut [i64]) -> EngineTurn {
        let sum = block[0].wrapping_add(run.argument);
        block[0] = sum;
        run.sum = sum;
        EngineTurn::Returned
    }

    fn result(&self, run: &AdderRun, _i: usize) -> i64 {
        run.sum
    }

    fn reply(&self, _call: &Call, words: &[i64]) -> Reply {
        if words[0] != 0 {
            return Reply::Trap(1);
        }
        let mut values = SmallVec::new(self.alloc);
        values.push_reserved(scalar(words[1]));
        Reply::Done(values)
    }

    ghost law = { λ _. adder_lawful };
}
