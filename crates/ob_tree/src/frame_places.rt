//! Where the frames of the procedures that have called another one begin.

ghost use Rattle.std.specs.Prelude.{◌≡◌, ◌<◌, ◌≤◌, [], ◌∷◌, length, IfOk, MatchOption};

use std::alloc::{AllocError, Global};
use std::marker::Model;

/// At most 63 heights of the stack, in memory that is reserved once; those below the count, the last one on top.
#[derive(Drop)]
pub struct Frames {
    heights: Vec<usize>,
    count: usize,
}

impl Model for Frames {
    ghost use Rattle.std.specs.Prelude.{List, ℕ, ◌≡◌, ◌≤◌, length, take, reverse};

    ghost Value = { List ℕ };

    ghost view = { λ f. reverse (take f.count f.heights.items) };

    ghost invariant = { λ f. (f.count ≤ 63) × (length f.heights.items ≡ 63) };
}

impl Frames {
    /// As many procedures as there can be that have called another one.
    pub const LIMIT: usize = 63;

    /// No heights, with memory for as many as there can be.
    pub fn new(alloc: Global) -> Result<Frames, AllocError>
        ensures { IfOk result (λ f. f ≡ []) }
    {
        Ok(Frames {
            heights: vec![in alloc; 0; Frames::LIMIT]?,
            count: 0,
        })
    }

    /// How many procedures have called another one that has not returned.
    pub fn len(&self) -> usize
        ensures value { result ≡ length self.now }
        ensures limit { result ≤ 63 }
    {
        self.count
    }

    /// Takes all of them. The memory stays.
    pub fn clear(&mut self)
        ensures { self.new ≡ [] }
    {
        self.count = 0;
    }

    /// Adds the last one.
    pub fn push(&mut self, height: usize)
        requires { length self.old < 63 }
        ensures { self.new ≡ height ∷ self.old }
    {
        self.heights[self.count] = height;
        self.count += 1;
    }

    /// Takes the last one.
    pub fn pop(&mut self) -> Option<usize>
        ensures { MatchOption result ((self.old ≡ []) × (self.new ≡ [])) (λ h. self.old ≡ h ∷ self.new) }
    {
        if self.count == 0 {
            return None;
        }
        self.count -= 1;
        Some(self.heights[self.count])
    }
}
