//! What one can see of a machine, kept to be compared, in memory that was taken before.

ghost use Rattle.std.specs.Prelude.{◌≡◌};

use crate::printed::print_machine;
use crate::trouble::Trouble;
use std::alloc::{AllocError, Global};
use wf_object::{Label, Machine};
use wf_samples::Adder;

/// What one can see of a machine: the labels, and the printed history, order, schedule and state.
#[derive(Drop)]
pub struct Seen {
    labels: Vec<Label>,
    text: String,
}

impl Seen {
    fn new(alloc: Global) -> Result<Seen, AllocError> {
        Ok(Seen {
            labels: Vec::with_capacity(alloc, 3)?,
            text: String::with_capacity(alloc, 65536)?,
        })
    }

    pub fn look<R: Eprint>(&mut self, rt: &R, machine: &Machine<Adder>) -> Result<(), AllocError>
        requires { machine.now.sizes.processes ≡ 3 }
    {
        self.labels.clear();
        for p in 0..3 {
            self.labels.push(machine.label(p))?;
        }
        self.text.clear();
        print_machine(rt, &mut self.text, machine)
    }
}

/// What one saw before a call, and what one sees behind it.
#[derive(Drop)]
pub struct Watch {
    pub before: Seen,
    after: Seen,
}

impl Watch {
    pub fn new(alloc: Global) -> Result<Watch, AllocError> {
        Ok(Watch {
            before: Seen::new(alloc)?,
            after: Seen::new(alloc)?,
        })
    }

    pub fn is_as_before<R: Eprint>(
        &mut self,
        rt: &R,
        machine: &Machine<Adder>,
    ) -> Result<(), Trouble>
        requires { machine.now.sizes.processes ≡ 3 }
    {
        self.after.look(rt, machine)?;
        if self.after.labels.as_slice() == self.before.labels.as_slice()
            && self.after.text.as_str() == self.before.text.as_str()
        {
            Ok(())
        } else {
            Err(Trouble::Changed)
        }
    }
}
