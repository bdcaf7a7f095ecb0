//! Who may go on.

/// Lets the workers of a desk go on, or not. All of them share it.
pub trait Gate {
    ghost use Rattle.std.specs.Prelude.{ℕ, IsFalse, IsTrue};

    // What is so where it lets a process take a step: of the process, of how many steps its seat has taken, and of how often in a
    // row it has refused this one.
    ghost passes: { Self → ℕ → ℕ → ℕ → Type 0 };

    // The same where it refuses the step.
    ghost refuses: { Self → ℕ → ℕ → ℕ → Type 0 };

    // What is so once it was told that the process's call of a number was answered.
    ghost hears: { Self → ℕ → ℕ → Type 0 };

    /// Whether the process may take one more step now. `turns` is how many its seat has taken, and `refusals` how often in a row
    /// it was refused since then.
    fn pass(&self, process: usize, turns: u128, refusals: u64) -> bool
        ensures passed { IsTrue result → passes self.now process turns refusals }
        ensures refused { IsFalse result → refuses self.now process turns refusals };

    /// The process's call of this number was answered.
    fn answered(&self, process: usize, number: u64)
        ensures { hears self.now process number };
}

/// The gate that always passes.
#[derive(Clone, Copy)]
pub struct Open;

impl Gate for Open {
    ghost use Rattle.ob_desk_serve.specs.Rounds.{never};

    ghost passes = { λ _ _ _ _. Unit {0} };

    ghost refuses = { λ _. never };

    ghost hears = { λ _ _ _. Unit {0} };

    fn pass(&self, _process: usize, _turns: u128, _refusals: u64) -> bool {
        true
    }

    fn answered(&self, _process: usize, _number: u64) {}
}
