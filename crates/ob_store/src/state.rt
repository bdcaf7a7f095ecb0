//! States of a module's object.

use crate::before::Listed;
use crate::store::Held;
use crate::value::{Value, copy_all};
use std::alloc::{AllocError, Global};

/// The values of the module's variables, in text order. Each variable has one of its own: none refers to a place.
#[derive(Drop)]
pub struct State {
    pub(crate) values: Vec<Value>,
    /// What a call that is over has left: its activations and its listed writes say nothing more, but the next call uses
    /// their memory.
    pub(crate) others: Vec<Vec<Held>>,
    pub(crate) writes: Vec<Listed>,
}

impl State {
    ghost use Rattle.std.specs.Prelude.{◌≡◌, [], IfOk};
    ghost use Rattle.ob_store.specs.View.{activation_in, variables_in, state_of};

    /// The state of these values.
    pub fn new(values: Vec<Value>) -> State
        ensures { state_of result ≡ variables_in values.items }
    {
        let alloc = *values.allocator();
        State {
            values,
            others: Vec::new(alloc),
            writes: Vec::new(alloc),
        }
    }

    /// The values, in text order.
    pub fn values(&self) -> &[Value]
        ensures { variables_in result.now ≡ state_of self.now }
    {
        self.values.as_slice()
    }

    /// The values, in text order; the state is given up.
    pub fn into_values(self) -> Vec<Value>
        ensures { variables_in result.items ≡ state_of self }
    {
        self.values
    }

    /// An empty activation for the next call, in memory that a call which is over had, where there is some left.
    pub fn spare_activation(&mut self) -> Vec<Held>
        ensures empty { activation_in result ≡ [] }
        ensures kept { state_of self.new ≡ state_of self.old }
    {
        match self.others.pop() {
            Some(mut spare) => {
                spare.clear();
                spare
            }
            None => Vec::new(*self.values.allocator()),
        }
    }

    /// An equal state.
    pub fn copy(&self, alloc: Global) -> Result<State, AllocError>
        ensures { IfOk result (λ s. state_of s ≡ state_of self.now) }
    {
        Ok(State::new(copy_all(alloc, self.values())?))
    }
}
