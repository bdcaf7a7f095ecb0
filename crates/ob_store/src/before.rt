//! How the module's activation was when a call began.

ghost use Rattle.std.specs.Prelude.{◌≡◌, [], IfErr, IfOk, OnErr, OnOk};
ghost use Rattle.ob_meaning.specs.ByPositionStore as Stores;
ghost use Rattle.ob_meaning.specs.ByPositionValue as Values;
ghost use Rattle.ob_store.specs.View.{place_in, variables_in};
ghost use Rattle.ob_store.specs.Begun.{without, without_listed, taken_back, begun_by};

use crate::store::{Path, Place, overwrite};
use crate::value::{Value, copy_all};
use ob_interface::scalar::Scalar;
use smallvec::SmallVec;
use std::alloc::{AllocError, AllocFailed, Global};

/// How many writes are listed: behind so many the module's activation is copied once, so that a loop takes no memory
/// without end. No module has more words.
const MOST_WRITES: usize = 4096;

/// A write to the module's activation: where, and what was there before.
#[derive(Drop)]
pub struct Written {
    pub position: usize,
    pub path: Path,
    pub was: Value,
}

/// A write as it is listed: most are to variables that are scalars, and take little room.
#[derive(Drop)]
pub enum Listed {
    /// To a variable, which was this scalar.
    Variable { position: usize, was: Scalar },
    Part(Box<Written>),
}

/// What leads back to the module's activation as it was when the call began.
#[derive(Drop)]
pub enum Before {
    /// The writes since then, from the first to the last.
    Writes(Vec<Listed>),
    /// The activation itself.
    Whole(Vec<Value>),
}

/// An equal place.
pub fn copy_place(alloc: Global, place: &Place) -> Result<Place, AllocError>
    ensures { IfOk result (λ p. place_in p ≡ place_in place.now) }
{
    Ok(Place {
        activation: place.activation,
        position: place.position,
        path: SmallVec::from_slice(alloc, place.path.as_slice())?,
    })
}

/// Takes all writes back, from the last to the first.
fn take_all_back(variables: &mut [Value], writes: &mut Vec<Listed>)
    ensures { variables_in variables.new ≡ taken_back writes.old.items (variables_in variables.old) }
{
    'left: while let Some(listed) = writes.pop() {
        listed.take_back(variables);
    }
}

/// The module's activation as it was, copied from what it is. All writes are taken from the list.
#[cold]
#[inline(never)]
fn copied_back(
    alloc: Global,
    variables: &[Value],
    writes: &mut Vec<Listed>,
) -> Result<Vec<Value>, AllocError>
    ensures begun { IfOk result (λ begun. variables_in begun.items ≡ taken_back writes.old.items (variables_in variables.now)) }
    ensures kept { OnErr result (writes.new.items ≡ writes.old.items) }
{
    let mut begun = copy_all(alloc, variables)?;
    take_all_back(begun.as_mut_slice(), writes);
    Ok(begun)
}

/// Lists a write that was made. Where there is no memory for that, it is taken back.
fn list_in(
    alloc: Global,
    writes: &mut Vec<Listed>,
    written: Written,
    variables: &mut [Value],
) -> Result<(), AllocError>
    ensures kept { OnOk result (variables_in variables.new ≡ variables_in variables.old) }
    ensures refused { OnErr result (variables_in variables.new ≡ without written (variables_in variables.old)) }
    ensures listed { taken_back writes.new.items (variables_in variables.new)
        ≡ taken_back writes.old.items (without written (variables_in variables.old)) }
{
    let listed = match written.listed(alloc) {
        Ok(listed) => listed,
        Err(refused) => {
            refused.value.take_back(variables);
            return Err(AllocError);
        }
    };
    if let Err(refused) = writes.push(listed) {
        refused.value.take_back(variables);
        return Err(AllocError);
    }
    Ok(())
}

impl Written {
    /// Puts back what was there.
    fn take_back(self, variables: &mut [Value])
        ensures { variables_in variables.new ≡ without self (variables_in variables.old) }
    {
        let path = self.path;
        let was = self.was;
        overwrite(variables, self.position, path.as_slice(), was);
    }

    /// As it is listed.
    fn listed(self, alloc: Global) -> Result<Listed, AllocFailed<Written>>
        ensures listed { IfOk result (λ l. without_listed l ≡ without self) }
        ensures refused { IfErr result (λ e. e.value ≡ self) }
    {
        if let Value::Single(was) = &self.was
            && self.path.is_empty()
        {
            return Ok(Listed::Variable {
                position: self.position,
                was: *was,
            });
        }
        match Box::new(alloc, self) {
            Ok(part) => Ok(Listed::Part(part)),
            Err(refused) => Err(refused),
        }
    }
}

impl Listed {
    /// Puts back what was there.
    fn take_back(self, variables: &mut [Value])
        ensures { variables_in variables.new ≡ without_listed self (variables_in variables.old) }
    {
        match self {
            Listed::Variable { position, was } => {
                overwrite(variables, position, &[], Value::Single(was));
            }
            Listed::Part(written) => Box::into_inner(written).take_back(variables),
        }
    }
}

impl Before {
    /// Copies the module's activation as it was, where as many writes are listed as may be.
    #[inline]
    pub fn shorten(&mut self, alloc: Global, variables: &[Value]) -> Result<(), AllocError>
        ensures { begun_by self.new (variables_in variables.now) ≡ begun_by self.old (variables_in variables.now) }
    {
        if let Before::Writes(writes) = self
            && writes.len() >= MOST_WRITES
        {
            *self = Before::Whole(copied_back(alloc, variables, writes)?);
        }
        Ok(())
    }

    /// Lists a write that is to be made to a variable that is this scalar, where writes are listed.
    #[inline]
    pub fn list_scalar(&mut self, position: usize, was: Scalar) -> Result<(), AllocError>
        ensures listed { OnOk result ((a : Stores.Activation) → begun_by self.new a ≡ begun_by self.old (Stores.with_held a position [] (Values.Single was))) }
        ensures kept { OnErr result ((a : Stores.Activation) → begun_by self.new a ≡ begun_by self.old a) }
    {
        if let Before::Writes(writes) = self {
            writes.push(Listed::Variable { position, was })?;
        }
        Ok(())
    }

    /// Lists a write that was made, where writes are listed. Where there is no memory for that, it is taken back.
    pub fn list(
        &mut self,
        alloc: Global,
        written: Written,
        variables: &mut [Value],
    ) -> Result<(), AllocError>
        ensures kept { OnOk result (variables_in variables.new ≡ variables_in variables.old) }
        ensures refused { OnErr result (variables_in variables.new ≡ without written (variables_in variables.old)) }
        ensures begun { begun_by self.new (variables_in variables.new)
            ≡ begun_by self.old (without written (variables_in variables.old)) }
    {
        match self {
            Before::Writes(writes) => list_in(alloc, writes, written, variables),
            Before::Whole(_) => Ok(()),
        }
    }

    /// The module's activation as it was, from what it is.
    pub fn take_back(self, variables: Vec<Value>) -> Vec<Value>
        ensures { variables_in result.items ≡ begun_by self (variables_in variables.items) }
    {
        match self {
            Before::Writes(mut writes) => {
                let mut begun = variables;
                take_all_back(begun.as_mut_slice(), &mut writes);
                begun
            }
            Before::Whole(begun) => begun,
        }
    }
}
