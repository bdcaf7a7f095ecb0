//! Places and stores: what each variable stands for while a call runs.

ghost use Rattle.std.specs.Prelude.{◌≡◌, ◌<◌, suc, [], ◌∷◌, ◌++◌, IfOk, OnOk, OnErr, IfSome, length, map, take};
ghost use Rattle.ob_typing.specs.Program.{Own};
ghost use Rattle.ob_meaning.specs.ByPositionStore as Stores;
ghost use Rattle.ob_meaning.specs.ByPositionValue as Values;
ghost use Rattle.ob_store.specs.View.{value_in, value_or_zero, held_in, lent_in, held_or_zero, place_in, activation_in, variables_in, state_of, store_in};
ghost use Rattle.ob_store.specs.Begun.{begun_in, put_back_at};

use crate::before::{Before, Written, copy_place};
use crate::state::State;
use crate::value::{Value, replace};
use ob_interface::scalar::Scalar;
use smallvec::SmallVec;
use std::alloc::{AllocError, Global};

/// Positions within a value, one within the other.
pub type Path = SmallVec<usize, 4>;

/// A variable or a part of it: the activation whose it is, its position there, and the positions within it.
#[derive(Drop)]
pub struct Place {
    pub activation: usize,
    pub position: usize,
    pub path: Path,
}

/// What a position of an activation has: a value of its own, or, for a VAR parameter, a place of others.
#[derive(Drop)]
pub enum Held {
    Holds(Value),
    Refers(Place),
}

/// How many activations that are over are kept: as many as may run at once.
const MOST_SPARES: usize = 64;

/// An activation that is over, of the procedure of this number. It says nothing more, but the next one uses its memory.
#[derive(Drop)]
struct Spare {
    number: usize,
    activation: Vec<Held>,
}

/// The module's variables, then the other activations, the one that is running last; how the module's variables were when
/// the call began; and activations that are over.
#[derive(Drop)]
pub struct Store {
    variables: Vec<Value>,
    others: Vec<Vec<Held>>,
    before: Before,
    spares: Vec<Spare>,
}

/// What a position of an activation has, lent.
#[derive(Clone, Copy)]
pub enum Lent<'s> {
    Value(&'s Value),
    Place(&'s Place),
}

/// The value that is held, if it is one.
pub fn value_held(held: &Held) -> Option<&Value>
    ensures { value_or_zero result ≡ Stores.value_held (held_in held.now) }
{
    match held {
        Held::Holds(value) => Some(value),
        Held::Refers(_) => None,
    }
}

/// Puts a value in the place of a part of a variable, and gives that part back, if there is one.
fn put_at(variables: &mut [Value], position: usize, path: &[usize], new: Value) -> Option<Value>
    ensures written { variables_in variables.new
        ≡ Stores.with_held (variables_in variables.old) position path.now (value_in new) }
    ensures back { put_back_at (variables_in variables.new) position path.now result ≡ variables_in variables.old }
{
    if position < variables.len() {
        replace(&mut variables[position], path, new)
    } else {
        None
    }
}

/// The same, with what was there dropped.
pub fn overwrite(variables: &mut [Value], position: usize, path: &[usize], new: Value)
    ensures { variables_in variables.new
        ≡ Stores.with_held (variables_in variables.old) position path.now (value_in new) }
{
    put_at(variables, position, path, new);
}

/// Puts a value in the place of a part of the value that is held; a place of others stays.
#[inline]
fn put(held: &mut Held, path: &[usize], new: Value)
    ensures { held_in held.new ≡ Stores.with_value (held_in held.old) path.now (value_in new) }
{
    if let Held::Holds(value) = held {
        replace(value, path, new);
    }
}

/// The same at a position of an activation.
#[inline]
fn put_held(activation: &mut [Held], position: usize, path: &[usize], new: Value)
    ensures { map held_in activation.new
        ≡ Stores.with_held (map held_in activation.old) position path.now (value_in new) }
{
    if position < activation.len() {
        put(&mut activation[position], path, new);
    }
}

/// The position of a spare activation of the procedure of this number, if there is one.
fn spare_of(spares: &[Spare], number: usize) -> Option<usize>
    ensures { IfSome result (λ position. position < length spares.now) }
{
    for (position, spare) in spares.iter().enumerate() {
        if spare.number == number {
            return Some(position);
        }
    }
    None
}

impl Held {
    /// What is held, lent.
    fn lend(&self) -> Lent<'_>
        ensures { lent_in result ≡ held_in self.now }
    {
        match self {
            Held::Holds(value) => Lent::Value(value),
            Held::Refers(place) => Lent::Place(place),
        }
    }
}

impl Store {
    /// The store of a call that begins: the state of the module, and the activations behind it.
    pub fn new(alloc: Global, state: State, others: Vec<Vec<Held>>) -> Store
        ensures activations { store_in result ≡ state_of state ∷ map activation_in others.items }
        ensures begun { begun_in result ≡ state_of state }
    {
        Store {
            variables: state.into_values(),
            others,
            before: Before::Writes(Vec::new(alloc)),
            spares: Vec::new(alloc),
        }
    }

    /// The store of a call from outside that begins: the state of the module, and behind it two activations, the results
    /// and the procedure's own. It uses the memory of the call before.
    pub fn begin(state: State, results: Vec<Held>, own: Vec<Held>) -> Result<Store, AllocError>
        ensures activations { IfOk result (λ s. store_in s ≡ state_of state ∷ (activation_in results ∷ (activation_in own ∷ []))) }
        ensures begun { IfOk result (λ s. begun_in s ≡ state_of state) }
    {
        let State {
            values,
            mut others,
            mut writes,
        } = state;
        others.clear();
        writes.clear();
        let alloc = *values.allocator();
        others.push(results)?;
        others.push(own)?;
        Ok(Store {
            variables: values,
            others,
            before: Before::Writes(writes),
            spares: Vec::new(alloc),
        })
    }

    /// The activation of a number behind the module's, from 0; an empty one where there is none.
    pub fn behind(&self, number: usize) -> &[Held]
        ensures { map held_in result.now ≡ Stores.activation_at (store_in self.now) (suc number) }
    {
        match self.others.get(number) {
            Some(activation) => activation.as_slice(),
            None => &[],
        }
    }

    /// The position of the activation that is running.
    pub fn running(&self) -> usize
        ensures { result ≡ Stores.running (store_in self.now) }
    {
        self.others.len()
    }

    /// What a position of an activation has, if there is such a position.
    pub fn held_at(&self, activation: usize, position: usize) -> Option<Lent<'_>>
        ensures { held_or_zero result
            ≡ Stores.held_at (Stores.activation_at (store_in self.now) activation) position }
    {
        if activation == 0 {
            return match self.variables.get(position) {
                Some(value) => Some(Lent::Value(value)),
                None => None,
            };
        }
        match self.behind(activation - 1).get(position) {
            Some(held) => Some(held.lend()),
            None => None,
        }
    }

    /// The value of a variable of an activation, if it has one of its own.
    pub fn own_value(&self, activation: usize, position: usize) -> Option<&Value>
        ensures { value_or_zero result
            ≡ Stores.value_held (Stores.held_at (Stores.activation_at (store_in self.now) activation) position) }
    {
        match self.held_at(activation, position)? {
            Lent::Value(value) => Some(value),
            Lent::Place(_) => None,
        }
    }

    /// The value at a place, if there is one.
    pub fn value_at(&self, place: &Place) -> Option<&Value>
        ensures { value_or_zero result ≡ Stores.value_at (store_in self.now) (place_in place.now) }
    {
        match self.own_value(place.activation, place.position) {
            Some(value) => value.selected(place.path.as_slice()),
            None => None,
        }
    }

    /// Puts a scalar at a place; where there is no memory for that, the store is as before. How the module's variables were
    /// when the call began stays known.
    pub fn set(&mut self, alloc: Global, place: Place, scalar: Scalar) -> Result<(), AllocError>
        ensures stored { OnOk result (store_in self.new
            ≡ Stores.stored (store_in self.old) (place_in place) (Values.Single scalar)) }
        ensures kept { OnErr result (store_in self.new ≡ store_in self.old) }
        ensures begun { begun_in self.new ≡ begun_in self.old }
    {
        if place.activation == 0 {
            self.set_variable(alloc, place.position, place.path, scalar)?;
            return Ok(());
        }
        let behind = place.activation - 1;
        if behind < self.others.len() {
            put_held(
                self.others[behind].as_mut_slice(),
                place.position,
                place.path.as_slice(),
                Value::Single(scalar),
            );
        }
        Ok(())
    }

    /// The same of a variable of the module, with what stood there listed.
    fn set_variable(
        &mut self,
        alloc: Global,
        position: usize,
        path: Path,
        scalar: Scalar,
    ) -> Result<(), AllocError>
        ensures stored { OnOk result (variables_in self.new.variables.items
            ≡ Stores.with_held (variables_in self.old.variables.items) position path.items (Values.Single scalar)) }
        ensures kept { OnErr result (variables_in self.new.variables.items ≡ variables_in self.old.variables.items) }
        ensures others { self.new.others ≡ self.old.others }
        ensures begun { begun_in self.new ≡ begun_in self.old }
    {
        self.before.shorten(alloc, self.variables.as_slice())?;
        let new = Value::Single(scalar);
        let variables = self.variables.as_mut_slice();
        let Some(was) = put_at(variables, position, path.as_slice(), new) else {
            return Ok(());
        };
        let written = Written {
            position,
            path,
            was,
        };
        self.before
            .list(alloc, written, self.variables.as_mut_slice())
    }

    /// Puts a scalar in the place of a whole variable, as `set` does, where no path has to be built for it.
    #[inline]
    pub fn set_whole(
        &mut self,
        alloc: Global,
        activation: usize,
        position: usize,
        scalar: Scalar,
    ) -> Result<(), AllocError>
        ensures stored { OnOk result (store_in self.new
            ≡ Stores.stored (store_in self.old) (record { activation = activation; position = position; path = [] }) (Values.Single scalar)) }
        ensures kept { OnErr result (store_in self.new ≡ store_in self.old) }
        ensures begun { begun_in self.new ≡ begun_in self.old }
    {
        if activation == 0 {
            self.set_whole_variable(alloc, position, scalar)?;
            return Ok(());
        }
        let behind = activation - 1;
        if behind < self.others.len() {
            let new = Value::Single(scalar);
            put_held(self.others[behind].as_mut_slice(), position, &[], new);
        }
        Ok(())
    }

    /// The same of a variable of the module: where it is a scalar, that is listed before it is overwritten.
    #[inline]
    fn set_whole_variable(
        &mut self,
        alloc: Global,
        position: usize,
        scalar: Scalar,
    ) -> Result<(), AllocError>
        ensures stored { OnOk result (variables_in self.new.variables.items
            ≡ Stores.with_held (variables_in self.old.variables.items) position [] (Values.Single scalar)) }
        ensures kept { OnErr result (variables_in self.new.variables.items ≡ variables_in self.old.variables.items) }
        ensures others { self.new.others ≡ self.old.others }
        ensures begun { begun_in self.new ≡ begun_in self.old }
    {
        let Some(Value::Single(held)) = self.variables.get(position) else {
            return self.set_variable(alloc, position, SmallVec::new(alloc), scalar);
        };
        let was = *held;
        self.before.shorten(alloc, self.variables.as_slice())?;
        self.before.list_scalar(position, was)?;
        self.variables[position] = Value::Single(scalar);
        Ok(())
    }

    /// Puts a scalar in the place that a variable of the activation that is running stands for: its own, or the one that it
    /// refers to.
    #[inline]
    pub fn set_own(
        &mut self,
        alloc: Global,
        position: usize,
        scalar: Scalar,
    ) -> Result<(), AllocError>
        ensures stored { OnOk result (store_in self.new
            ≡ Stores.stored (store_in self.old) (Stores.place_owned Own (store_in self.old) position) (Values.Single scalar)) }
        ensures kept { OnErr result (store_in self.new ≡ store_in self.old) }
        ensures begun { begun_in self.new ≡ begun_in self.old }
    {
        let running = self.running();
        let Some(Lent::Place(place)) = self.held_at(running, position) else {
            return self.set_whole(alloc, running, position, scalar);
        };
        let activation = place.activation;
        let within = place.position;
        if place.path.is_empty() {
            return self.set_whole(alloc, activation, within, scalar);
        }
        let place = copy_place(alloc, place)?;
        self.set(alloc, place, scalar)
    }

    /// Adds an activation, which is running from now on.
    pub fn enter(&mut self, activation: Vec<Held>) -> Result<(), AllocError>
        ensures entered { OnOk result (store_in self.new ≡ store_in self.old ++ activation_in activation ∷ []) }
        ensures kept { OnErr result (store_in self.new ≡ store_in self.old) }
        ensures begun { begun_in self.new ≡ begun_in self.old }
    {
        self.others.push(activation)?;
        Ok(())
    }

    /// Takes the activation that is running away; the module stays.
    pub fn leave(&mut self)
        ensures left { 0 < Stores.running (store_in self.old)
            → store_in self.new ≡ take (Stores.running (store_in self.old)) (store_in self.old) }
        ensures alone { 0 ≡ Stores.running (store_in self.old) → store_in self.new ≡ store_in self.old }
        ensures begun { begun_in self.new ≡ begun_in self.old }
    {
        self.others.pop();
    }

    /// The same, and keeps its memory for the next activation of the procedure of this number. Where there is no memory
    /// to note it, it is dropped.
    pub fn leave_spare(&mut self, number: usize)
        ensures left { 0 < Stores.running (store_in self.old)
            → store_in self.new ≡ take (Stores.running (store_in self.old)) (store_in self.old) }
        ensures alone { 0 ≡ Stores.running (store_in self.old) → store_in self.new ≡ store_in self.old }
        ensures begun { begun_in self.new ≡ begun_in self.old }
    {
        if let Some(activation) = self.others.pop() {
            if self.spares.len() >= MOST_SPARES {
                self.spares.clear();
            }
            let _noted = self.spares.push(Spare { number, activation });
        }
    }

    /// An activation of the procedure of this number that is over, with what it held; an empty one where none is kept.
    pub fn spare(&mut self, number: usize) -> Vec<Held>
        ensures kept { store_in self.new ≡ store_in self.old }
        ensures begun { begun_in self.new ≡ begun_in self.old }
    {
        match spare_of(self.spares.as_slice(), number) {
            Some(position) => self.spares.swap_remove(position).activation,
            None => Vec::new(*self.variables.allocator()),
        }
    }

    /// The state of the module, without the other activations.
    pub fn into_state(self) -> State
        ensures { state_of result ≡ Stores.activation_at (store_in self) 0 }
    {
        let alloc = *self.variables.allocator();
        let before = self.before;
        // A list of writes is kept for its memory.
        let writes = match before {
            Before::Writes(writes) => writes,
            Before::Whole(_values) => Vec::new(alloc),
        };
        State {
            values: self.variables,
            others: self.others,
            writes,
        }
    }

    /// The state of the module as it was when the call began.
    pub fn into_begun(self) -> State
        ensures { state_of result ≡ begun_in self }
    {
        let writes = Vec::new(*self.variables.allocator());
        State {
            values: self.before.take_back(self.variables),
            others: self.others,
            writes,
        }
    }
}
