//! Where the procedures of a program begin.

/// Of each procedure the place of its first instruction, and the place behind them all.
#[derive(Drop)]
pub struct Entries {
    pub places: Vec<usize>,
    pub end: usize,
}

impl Entries {
    ghost use Rattle.std.specs.Prelude.{◌≡◌};
    ghost use Rattle.ob_code.specs.Entering.{entry_in};

    /// The place of a procedure's first instruction.
    pub fn entry(&self, procedure: usize) -> usize
        ensures { result ≡ entry_in self.now procedure }
    {
        match self.places.get(procedure) {
            Some(place) => *place,
            None => self.end,
        }
    }
}
