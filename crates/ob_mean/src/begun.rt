//! Variables at their beginning: 0 or FALSE throughout.

ghost use Rattle.std.specs.Prelude.{◌≡◌, ◌<◌, ◌++◌, IfOk, map, take};
ghost use Rattle.ob_meaning.specs.ByNameValue as Meanings;
ghost use Rattle.ob_checked.specs.Types.{type_in, types_of, fields_by};
ghost use Rattle.ob_checked.specs.View.{variable_of, table_of};
ghost use Rattle.ob_meaning.specs.ByPositionValue as Values;
ghost use Rattle.ob_meaning.specs.ByPositionStatements as Statements;
ghost use Rattle.ob_meaning.specs.ByPositionStore as Stores;
ghost use Rattle.ob_store.specs.Begun.{begun_in};
ghost use Rattle.ob_store.specs.View.{value_in, values_in, activation_in, state_of, store_in};

use ob_checked::program::Variable;
use ob_checked::types::{DataType, Structure, Types};
use ob_interface::scalar::{Scalar, ScalarType};
use ob_store::state::State;
use ob_store::store::{Held, Store};
use ob_store::value::{Value, copy, overwrite_each};
use std::alloc::{AllocError, Global};
use std::mem;

/// 0 or FALSE.
fn first_scalar(scalar_type: ScalarType) -> Scalar
    ensures { result ≡ Meanings.first_scalar scalar_type }
{
    match scalar_type {
        ScalarType::Integer => Scalar::Int(0),
        ScalarType::Boolean => Scalar::Bool(false),
    }
}

/// So many copies of a value.
fn copies(alloc: Global, count: usize, value: &Value) -> Result<Vec<Value>, AllocError>
    ensures { IfOk result (λ vs. values_in vs.items ≡ Values.copies count (value_in value.now)) }
{
    let mut all = Vec::with_capacity(alloc, count)?;
    for made in 0..count {
        let one = copy(alloc, value)?;
        all.push(one)?;
    }
    Ok(all)
}

/// What a variable of a type begins as. Most are scalars, which take no call.
#[inline]
pub fn initial(alloc: Global, types: &Types, data_type: DataType) -> Result<Value, AllocError>
    ensures { IfOk result (λ v. value_in v ≡ Values.initial (type_in (table_of types.now) data_type)) }
{
    match data_type {
        DataType::Simple(scalar_type) => Ok(Value::Single(first_scalar(scalar_type))),
        DataType::Structured(_) => initial_parts(alloc, types, data_type),
    }
}

/// The same of any type. Arrays and records in the table consist of those before them.
#[cycle(initial)]
#[inline(never)]
fn initial_parts(alloc: Global, types: &Types, data_type: DataType) -> Result<Value, AllocError>
    ensures { IfOk result (λ v. value_in v ≡ Values.initial (type_in (table_of types.now) data_type)) }
{
    let number = match data_type {
        DataType::Simple(scalar_type) => return Ok(Value::Single(first_scalar(scalar_type))),
        DataType::Structured(number) => number,
    };
    match types.structured(number) {
        None => Ok(Value::Single(Scalar::Int(0))),
        Some(structured) => match &structured.structure {
            Structure::Array { length, element } => {
                let first = initial_parts(alloc, types, *element)?;
                Ok(Value::Parts(copies(alloc, *length, &first)?))
            }
            Structure::Record { fields } => {
                Ok(Value::Parts(initial_fields(alloc, types, fields.as_slice())?))
            }
        },
    }
}

/// What the fields of a record begin as.
#[cycle(initial)]
#[inline(never)]
fn initial_fields(
    alloc: Global,
    types: &Types,
    fields: &[(String, DataType)],
) -> Result<Vec<Value>, AllocError>
    ensures { IfOk result (λ vs. values_in vs.items
        ≡ Values.initial_fields (fields_by (types_of (table_of types.now)) fields.now)) }
{
    let mut parts = Vec::with_capacity(alloc, fields.len())?;
    for field in fields {
        let part = initial_parts(alloc, types, field.1)?;
        parts.push(part)?;
    }
    Ok(parts)
}

/// An activation with variables at their beginning behind what it has. Many procedures have none, which takes no call.
#[inline]
pub fn variables_begun(
    alloc: Global,
    types: &Types,
    first: Vec<Held>,
    variables: &[Variable],
) -> Result<Vec<Held>, AllocError>
    ensures { IfOk result (λ held. activation_in held
        ≡ activation_in first ++ Statements.begun (map (variable_of (table_of types.now)) variables.now)) }
{
    if variables.is_empty() {
        return Ok(first);
    }
    all_begun(alloc, types, first, variables)
}

/// The same of any number of variables.
#[inline(never)]
fn all_begun(
    alloc: Global,
    types: &Types,
    first: Vec<Held>,
    variables: &[Variable],
) -> Result<Vec<Held>, AllocError>
    ensures { IfOk result (λ held. activation_in held
        ≡ activation_in first ++ Statements.begun (map (variable_of (table_of types.now)) variables.now)) }
{
    let mut all = first;
    for variable in variables {
        let value = initial(alloc, types, variable.data_type)?;
        all.push(Held::Holds(value))?;
    }
    Ok(all)
}

/// So many copies of a value, this one among them, in the memory of others where these are one fewer.
fn copies_over(
    alloc: Global,
    count: usize,
    value: Value,
    old: Vec<Value>,
) -> Result<Vec<Value>, AllocError>
    ensures { IfOk result (λ vs. values_in vs.items ≡ Values.copies count (value_in value)) }
{
    let mut all = old;
    if all.len() >= count || all.len() + 1 < count {
        return copies(alloc, count, &value);
    }
    overwrite_each(alloc, all.as_mut_slice(), &value)?;
    all.push(value)?;
    Ok(all)
}

/// What a variable of a type begins as, in the memory of a value that is needed no more.
#[cycle(initial_over)]
fn initial_over(
    alloc: Global,
    types: &Types,
    data_type: DataType,
    old: Option<Value>,
) -> Result<Value, AllocError>
    ensures { IfOk result (λ v. value_in v ≡ Values.initial (type_in (table_of types.now) data_type)) }
{
    let Some(Value::Parts(parts)) = old else {
        return initial(alloc, types, data_type);
    };
    let number = match data_type {
        DataType::Simple(scalar_type) => return Ok(Value::Single(first_scalar(scalar_type))),
        DataType::Structured(number) => number,
    };
    match types.structured(number) {
        None => Ok(Value::Single(Scalar::Int(0))),
        Some(structured) => match &structured.structure {
            Structure::Array { length, element } => {
                Ok(Value::Parts(elements_over(alloc, types, *element, *length, parts)?))
            }
            Structure::Record { fields } => {
                Ok(Value::Parts(fields_over(alloc, types, fields.as_slice(), parts)?))
            }
        },
    }
}

/// What so many elements of a type begin as, in the memory of others.
#[cycle(initial_over)]
fn elements_over(
    alloc: Global,
    types: &Types,
    element: DataType,
    count: usize,
    mut old: Vec<Value>,
) -> Result<Vec<Value>, AllocError>
    ensures { IfOk result (λ vs. values_in vs.items
        ≡ Values.copies count (Values.initial (type_in (table_of types.now) element))) }
{
    let last = old.pop();
    let one = initial_over(alloc, types, element, last)?;
    let all = copies_over(alloc, count, one, old)?;
    Ok(all)
}

/// What the fields of a record begin as, each in the memory of another one's.
#[cycle(initial_over)]
fn fields_over(
    alloc: Global,
    types: &Types,
    fields: &[(String, DataType)],
    mut old: Vec<Value>,
) -> Result<Vec<Value>, AllocError>
    ensures { IfOk result (λ vs. values_in vs.items
        ≡ Values.initial_fields (fields_by (types_of (table_of types.now)) fields.now)) }
{
    let mut parts = Vec::with_capacity(alloc, fields.len())?;
    for field in fields {
        let spare = taken_part(old.as_mut_slice(), parts.len());
        let part = initial_over(alloc, types, field.1, spare)?;
        parts.push(part)?;
    }
    Ok(parts)
}

/// The part at a position, taken away.
fn taken_part(parts: &mut [Value], position: usize) -> Option<Value> {
    if position < parts.len() {
        Some(mem::replace(&mut parts[position], Value::Single(Scalar::Int(0))))
    } else {
        None
    }
}

/// The value at a position of an activation that is over, taken away.
fn taken_value(activation: &mut [Held], position: usize) -> Option<Value> {
    if position >= activation.len() {
        return None;
    }
    let nothing = Held::Holds(Value::Single(Scalar::Int(0)));
    match mem::replace(&mut activation[position], nothing) {
        Held::Holds(value) => Some(value),
        Held::Refers(_) => None,
    }
}

/// An activation with variables at their beginning behind what it has, in the memory of one that is over.
fn all_begun_over(
    alloc: Global,
    types: &Types,
    first: Vec<Held>,
    variables: &[Variable],
    mut old: Vec<Held>,
) -> Result<Vec<Held>, AllocError>
    ensures { IfOk result (λ held. activation_in held
        ≡ activation_in first ++ Statements.begun (map (variable_of (table_of types.now)) variables.now)) }
{
    let mut all = first;
    for variable in variables {
        let spare = taken_value(old.as_mut_slice(), all.len());
        let value = initial_over(alloc, types, variable.data_type, spare)?;
        all.push(Held::Holds(value))?;
    }
    Ok(all)
}

/// Whether one of these variables has parts, for which memory is taken.
fn have_parts(variables: &[Variable]) -> bool {
    for variable in variables {
        if let DataType::Structured(_) = variable.data_type {
            return true;
        }
    }
    false
}

/// The activation of the procedure of a number, with its variables at their beginning behind what was handed over.
/// Where they have parts, it is made in the memory of the last one of this procedure that is over.
#[inline]
pub fn begun_activation(
    types: &Types,
    store: &mut Store,
    number: usize,
    variables: &[Variable],
    handed: Vec<Held>,
) -> Result<Vec<Held>, AllocError>
    ensures activation { IfOk result (λ held. activation_in held
        ≡ activation_in handed ++ Statements.begun (map (variable_of (table_of types.now)) variables.now)) }
    ensures kept { store_in store.new ≡ store_in store.old }
    ensures begun { begun_in store.new ≡ begun_in store.old }
{
    let alloc = *handed.allocator();
    if !have_parts(variables) {
        return variables_begun(alloc, types, handed, variables);
    }
    let spare = store.spare(number);
    all_begun_over(alloc, types, handed, variables, spare)
}

/// Takes the activation that is running away, one of the procedure of this number with these variables.
#[inline]
pub fn end_activation(store: &mut Store, number: usize, variables: &[Variable])
    ensures left { 0 < Stores.running (store_in store.old)
        → store_in store.new ≡ take (Stores.running (store_in store.old)) (store_in store.old) }
    ensures begun { begun_in store.new ≡ begun_in store.old }
{
    if have_parts(variables) {
        store.leave_spare(number);
    } else {
        store.leave();
    }
}

/// The state in which the module's variables are at their beginning.
pub fn state_begun(
    alloc: Global,
    types: &Types,
    variables: &[Variable],
) -> Result<State, AllocError>
    ensures { IfOk result (λ s. state_of s
        ≡ Statements.begun (map (variable_of (table_of types.now)) variables.now)) }
{
    let mut values = Vec::with_capacity(alloc, variables.len())?;
    for variable in variables {
        let value = initial(alloc, types, variable.data_type)?;
        values.push(value)?;
    }
    Ok(State::new(values))
}
