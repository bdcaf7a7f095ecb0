//! Where the procedures that have called another one go on.

ghost use Rattle.std.specs.Prelude.{◌≡◌, ◌<◌, ◌≤◌, [], ◌∷◌, length, IfOk, MatchOption};

use std::alloc::{AllocError, Global};
use std::marker::Model;

/// A procedure that has called another one: the place behind the call, and where its frame begins.
#[derive(Clone, Copy)]
pub struct Saved {
    pub pc: usize,
    pub fp: usize,
}

/// At most 63 of them, in memory that is reserved once; those below the count, the last one on top.
#[derive(Drop)]
pub struct Callers {
    saved: Vec<Saved>,
    count: usize,
}

impl Model for Callers {
    ghost use Rattle.std.specs.Prelude.{List, ◌≡◌, ◌≤◌, length, take, reverse};
    ghost use Rattle.ob_code_machine.specs.declared.saved.Saved.{Saved};

    ghost Value = { List Saved };

    ghost view = { λ c. reverse (take c.count c.saved.items) };

    ghost invariant = { λ c. (c.count ≤ 63) × (length c.saved.items ≡ 63) };
}

impl Callers {
    /// As many procedures as there can be that have called another one.
    pub const LIMIT: usize = 63;

    pub fn new(alloc: Global) -> Result<Callers, AllocError>
        ensures { IfOk result (λ c. c ≡ []) }
    {
        Ok(Callers {
            saved: vec![in alloc; Saved { pc: 0, fp: 0 }; Callers::LIMIT]?,
            count: 0,
        })
    }

    pub fn len(&self) -> usize
        ensures value { result ≡ length self.now }
        ensures limit { result ≤ 63 }
    {
        self.count
    }

    pub fn clear(&mut self)
        ensures { self.new ≡ [] }
    {
        self.count = 0;
    }

    /// Adds the last one.
    pub fn push(&mut self, caller: Saved)
        requires { length self.old < 63 }
        ensures { self.new ≡ caller ∷ self.old }
    {
        self.saved[self.count] = caller;
        self.count += 1;
    }

    /// Takes the last one.
    pub fn pop(&mut self) -> Option<Saved>
        ensures { MatchOption result ((self.old ≡ []) × (self.new ≡ [])) (λ s. self.old ≡ s ∷ self.new) }
    {
        if self.count == 0 {
            return None;
        }
        self.count -= 1;
        Some(self.saved[self.count])
    }
}
