//! The places of the calls of one process.

use std::alloc::{AllocError, Global};

/// Places of calls of a process, whose numbers follow one another from the first one on.
#[derive(Drop)]
pub(crate) struct Row {
    first: u64,
    places: Vec<usize>,
}

impl Row {
    ghost use Rattle.std.specs.Prelude.{◌≡◌, ◌≤◌, ◌-◌, ◌&&◌, ◌↔◌, ℕ, IfOk, IsTrue, if◌then◌else◌, length, nat_eq};
    ghost use Rattle.ob_picture_chart.specs.Places.{in_row};

    /// A row of no places.
    pub(crate) fn new(alloc: Global) -> Row
        ensures { (number : ℕ) → in_row result number ≡ 0 }
    {
        Row {
            first: 0,
            places: Vec::new(alloc),
        }
    }

    /// The place at a number, or 0.
    pub(crate) fn get(&self, number: u64) -> usize
        ensures { result ≡ in_row self.now number }
    {
        if number < self.first {
            return 0;
        }
        match self.places.get((number - self.first) as usize) {
            Some(place) => *place,
            None => 0,
        }
    }

    /// Appends the place, where the number is the next one of the row, and tells whether it is. Of an empty row each is.
    pub(crate) fn push(&mut self, number: u64, place: usize) -> Result<bool, AllocError>
        ensures { IfOk result (λ pushed. (n : ℕ) → in_row self.new n ≡ if pushed && nat_eq number n then place else in_row self.old n) }
    {
        if self.places.is_empty() {
            self.first = number;
            self.places.push(place)?;
            return Ok(true);
        }
        if self.is_next(number) {
            self.places.push(place)?;
            return Ok(true);
        }
        Ok(false)
    }

    /// Whether a number is the one behind those of the row.
    fn is_next(&self, number: u64) -> bool
        ensures { IsTrue result ↔ ((self.now.first ≤ number) × (number - self.now.first ≡ length self.now.places.items)) }
    {
        number >= self.first && (number - self.first) as usize == self.places.as_slice().len()
    }
}
