//! The states in which the merges end.

ghost use Rattle.std.specs.Prelude.{◌≡◌, map, length, IfOk};
ghost use Rattle.wf_outcomes.specs.Explored.{all_kept, calls_in};

use crate::explored::Explored;
use ob_interface::NoMemory;
use std::alloc::Global;
use wf_history::KeptCall;
use wf_order::Object;

/// How many calls there are, as a count.
fn count_of(calls: usize) -> Result<u32, NoMemory>
    ensures { IfOk result (λ count. count ≡ calls) }
{
    match u32::try_from(calls) {
        Ok(count) => Ok(count),
        Err(_) => Err(NoMemory),
    }
}

/// How many calls each script has.
fn lengths(alloc: Global, scripts: &[Vec<KeptCall>]) -> Result<Vec<u32>, NoMemory>
    ensures { IfOk result (λ counts. counts.items ≡ map length (calls_in scripts.now)) }
{
    let mut counts = Vec::new(alloc);
    for script in scripts {
        counts.push(count_of(script.len())?)?;
    }
    Ok(counts)
}

impl<'a, O: Object> Explored<'a, O> {
    ghost use Rattle.std.specs.Prelude.{IfOk};
    ghost use Rattle.wf_outcomes.specs.Explored.{all_kept, calls_in};
    ghost use Rattle.wf_outcomes.specs.Outcomes.{AreFinals};

    /// The places of the configurations in which all calls are made: their states are exactly the final ones, each once.
    pub fn finals(&self, alloc: Global) -> Result<Vec<usize>, NoMemory>
        ensures { IfOk result (λ places. ∥ AreFinals (O.effect self.now.object.now) (calls_in self.now.scripts.now) (O.opening self.now.object.now)
            (all_kept O.meaning self.now.seen) places.items ∥₁) }
    {
        let full = lengths(alloc, self.scripts)?;
        let mut places = Vec::new(alloc);
        for place in 0..self.seen.len() {
            if self.seen[place].counts.are(full.as_slice()) {
                places.push(place)?;
            }
        }
        Ok(places)
    }
}
