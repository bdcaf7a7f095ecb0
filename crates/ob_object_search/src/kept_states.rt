//! States of a module's object, as a search keeps them.

ghost use Rattle.std.specs.Prelude.{◌≡◌, IfOk, IfSome, map};
ghost use Rattle.ob_code_calls.specs.Scalars.{held_of};
ghost use Rattle.ob_object_search.specs.Kept.{kept_in};
ghost use Rattle.ob_object_search.specs.Words.{words_of};
ghost use Rattle.ob_store.specs.View.{state_of, variables_in};

use crate::state_words::{scalar_words, words_in};
use ob_code_calls::scalars::Scalars;
use ob_interface::NoMemory;
use ob_interface::scalar::Scalar;
use ob_store::state::State;
use ob_store::value::{Value, copy_all};
use smallvec::SmallVec;
use std::alloc::{AllocError, Global};
use wf_order::searched_object::Words;

/// The values of the module's variables, without the memory that a call works in.
#[derive(Drop)]
pub enum KeptState {
    /// Of variables that are all INTEGER or BOOLEAN. Of two of them and less no memory is taken.
    Scalars(Scalars),
    /// Of any others.
    Values(Vec<Value>),
}

/// The scalars that values are, where all are some.
fn scalars_in(alloc: Global, values: &[Value]) -> Result<Option<Scalars>, NoMemory>
    ensures { IfOk result (λ read. IfSome read (λ scalars. map held_of scalars.items ≡ variables_in values.now)) }
{
    let mut scalars = SmallVec::new(alloc);
    for value in values {
        match value {
            Value::Single(scalar) => scalars.push(*scalar)?,
            Value::Parts(_) => return Ok(None),
        }
    }
    Ok(Some(scalars))
}

/// The values that scalars are.
fn values_of(alloc: Global, scalars: &[Scalar]) -> Result<Vec<Value>, AllocError>
    ensures { IfOk result (λ values. variables_in values.items ≡ map held_of scalars.now) }
{
    let mut values = Vec::with_capacity(alloc, scalars.len())?;
    for scalar in scalars {
        values.push(Value::Single(*scalar))?;
    }
    Ok(values)
}

/// Values that are given up, as they are kept.
pub(crate) fn kept(alloc: Global, values: Vec<Value>) -> Result<KeptState, NoMemory>
    ensures { IfOk result (λ state. kept_in state ≡ variables_in values.items) }
{
    match scalars_in(alloc, values.as_slice())? {
        Some(scalars) => Ok(KeptState::Scalars(scalars)),
        None => Ok(KeptState::Values(values)),
    }
}

impl KeptState {
    /// The state, a copy.
    pub fn state(&self, alloc: Global) -> Result<State, AllocError>
        ensures { IfOk result (λ state. state_of state ≡ kept_in self.now) }
    {
        match self {
            KeptState::Scalars(scalars) => Ok(State::new(values_of(alloc, scalars.as_slice())?)),
            KeptState::Values(values) => Ok(State::new(copy_all(alloc, values.as_slice())?)),
        }
    }

    /// Its words.
    pub(crate) fn words(&self, alloc: Global) -> Result<Words, NoMemory>
        ensures { IfOk result (λ words. words.items ≡ words_of (kept_in self.now)) }
    {
        match self {
            KeptState::Scalars(scalars) => scalar_words(alloc, scalars.as_slice()),
            KeptState::Values(values) => words_in(alloc, values.as_slice()),
        }
    }
}
