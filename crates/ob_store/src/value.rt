//! Values of variables.

ghost use Rattle.std.specs.Prelude.{◌≡◌, ◌∷◌, IfOk, OnOk, length};
ghost use Rattle.ob_meaning.specs.ByPositionValue as Values;
ghost use Rattle.ob_store.specs.View.{value_in, values_in, value_or_zero, put_back};

use ob_interface::scalar::Scalar;
use std::alloc::{AllocError, Global};
use std::mem;

/// A scalar, or parts in their order: the elements of an array, or the fields of a record.
#[derive(Drop)]
pub enum Value {
    Single(Scalar),
    Parts(Vec<Value>),
}

impl Value {
    /// The scalar of a value that is one.
    pub fn scalar(&self) -> Scalar
        ensures { result ≡ Values.scalar_of (value_in self.now) }
    {
        match self {
            Value::Single(scalar) => *scalar,
            Value::Parts(_) => Scalar::Int(0),
        }
    }

    /// The part at a position, if there is one.
    pub fn inside(&self, position: usize) -> Option<&Value>
        ensures { value_or_zero result ≡ Values.inside (value_in self.now) position }
    {
        match self {
            Value::Single(_) => Some(self),
            Value::Parts(parts) => part_at(parts.as_slice(), position),
        }
    }

    /// The part behind positions, one within the other, if there is one.
    pub fn selected(&self, path: &[usize]) -> Option<&Value>
        ensures { value_or_zero result ≡ Values.selected (value_in self.now) path.now }
    {
        let mut value = self;
        for position in path {
            match value.inside(*position) {
                Some(part) => value = part,
                None => return None,
            }
        }
        Some(value)
    }
}

/// The part at a position, if there is one.
fn part_at(parts: &[Value], position: usize) -> Option<&Value>
    ensures { value_or_zero result ≡ Values.part_at (values_in parts.now) position }
{
    if position < parts.len() {
        Some(&parts[position])
    } else {
        None
    }
}

/// Puts a value in the place of the part behind positions, and gives the part back, if there is one.
#[cycle(replace)]
#[inline]
pub fn replace(value: &mut Value, path: &[usize], new: Value) -> Option<Value>
    ensures written { value_in value.new ≡ Values.replaced (value_in value.old) path.now (value_in new) }
    ensures back { put_back (value_in value.new) path.now result ≡ value_in value.old }
{
    match path.split_first() {
        None => Some(mem::replace(value, new)),
        Some((first, rest)) => {
            let whole = mem::replace(value, Value::Single(Scalar::Int(0)));
            let (next, was) = with_part(whole, *first, rest, new);
            *value = next;
            was
        }
    }
}

/// The value with another one in the place of the part behind a position and further ones, and that part, if there is
/// one.
#[cycle(replace)]
#[inline(never)]
fn with_part(whole: Value, first: usize, rest: &[usize], new: Value) -> (Value, Option<Value>)
    ensures written { value_in result.0 ≡ Values.replaced (value_in whole) (first ∷ rest.now) (value_in new) }
    ensures back { put_back (value_in result.0) (first ∷ rest.now) result.1 ≡ value_in whole }
{
    match whole {
        Value::Single(own) => (Value::Single(own), None),
        Value::Parts(mut parts) => {
            let was = if first < parts.len() {
                replace(&mut parts[first], rest, new)
            } else {
                None
            };
            (Value::Parts(parts), was)
        }
    }
}

/// An equal value.
#[cycle(copies)]
pub fn copy(alloc: Global, value: &Value) -> Result<Value, AllocError>
    ensures { IfOk result (λ v. value_in v ≡ value_in value.now) }
{
    match value {
        Value::Single(scalar) => Ok(Value::Single(*scalar)),
        Value::Parts(parts) => Ok(Value::Parts(copy_all(alloc, parts.as_slice())?)),
    }
}

/// Equal values.
#[cycle(copies)]
pub fn copy_all(alloc: Global, values: &[Value]) -> Result<Vec<Value>, AllocError>
    ensures { IfOk result (λ vs. values_in vs.items ≡ values_in values.now) }
{
    let mut copies = Vec::with_capacity(alloc, values.len())?;
    for value in values {
        copies.push(copy(alloc, value)?)?;
    }
    Ok(copies)
}

/// Puts an equal value in the place of another one. Where that has as many parts, no memory is taken.
#[cycle(overwriting)]
#[inline]
pub fn overwrite_with(alloc: Global, target: &mut Value, value: &Value) -> Result<(), AllocError>
    ensures { OnOk result (value_in target.new ≡ value_in value.now) }
{
    match value {
        Value::Single(scalar) => {
            *target = Value::Single(*scalar);
            Ok(())
        }
        Value::Parts(parts) => {
            let old = mem::replace(target, Value::Single(Scalar::Int(0)));
            *target = Value::Parts(parts_over(alloc, old, parts.as_slice())?);
            Ok(())
        }
    }
}

/// Parts equal to these, in the memory of a value that has as many.
#[cycle(overwriting)]
#[inline(never)]
fn parts_over(alloc: Global, old: Value, values: &[Value]) -> Result<Vec<Value>, AllocError>
    ensures { IfOk result (λ vs. values_in vs.items ≡ values_in values.now) }
{
    match old {
        Value::Single(_) => copy_all(alloc, values),
        Value::Parts(mut parts) => {
            if parts.len() != values.len() {
                return copy_all(alloc, values);
            }
            overwrite_all(alloc, parts.as_mut_slice(), values)?;
            Ok(parts)
        }
    }
}

/// Puts equal values in the places of as many others.
#[cycle(overwriting)]
#[inline]
fn overwrite_all(alloc: Global, targets: &mut [Value], values: &[Value]) -> Result<(), AllocError>
    requires { length targets.old ≡ length values.now }
    ensures { OnOk result (values_in targets.new ≡ values_in values.now) }
{
    for (position, value) in values.iter().enumerate() {
        overwrite_with(alloc, &mut targets[position], value)?;
    }
    Ok(())
}

/// Puts a value equal to this one in the place of each of others.
pub fn overwrite_each(alloc: Global, targets: &mut [Value], value: &Value) -> Result<(), AllocError>
    ensures { OnOk result (values_in targets.new ≡ Values.copies (length targets.old) (value_in value.now)) }
{
    for position in 0..targets.len() {
        overwrite_with(alloc, &mut targets[position], value)?;
    }
    Ok(())
}
