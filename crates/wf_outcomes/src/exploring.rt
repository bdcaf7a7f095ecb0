//! The exploration.

ghost use Rattle.std.specs.Prelude.{◌≡◌, ◌<◌, ◌≤◌, ◌+◌, length, IfOk, OnOk, IsErrOf};
ghost use Rattle.indexmap.specs.IndexSet.{index_set_len};
ghost use Rattle.wf_outcomes.specs.Explored.{all_kept, kept_in, calls_in, AreWorded, IsWorded, IsArrival, IsExploring, HasMore};
ghost use Rattle.wf_outcomes.specs.RememberedCalls.{AreMade};
ghost use Rattle.wf_outcomes.specs.Merges.{start};

use crate::explored::Explored;
use crate::meetings::telling_places;
use crate::remembered_calls::{Memory, nothing_made};
use crate::seen::{Found, Seen, Stated, row_of_words};
use crate::step::{Task, step};
use ob_interface::NoMemory;
use std::alloc::Global;
use std::hash::RandomState;
use std::rc::Rc;
use thiserror::Error;
use wf_counts::Counts;
use wf_history::KeptCall;
use wf_lookup::keys::Keys;
use wf_order::Object;

/// For how many configurations there is room from the beginning at most.
const FIRST_ROOM: usize = 1 << 16;

/// Why an exploration gives up.
#[derive(Clone, Copy, Debug, Error)]
pub enum ExploreFault {
    /// There are more configurations than were allowed.
    #[error("too many configurations")]
    TooMany,
    /// A growth was refused.
    #[error("NoMemory")]
    NoMemory,
}

impl From<NoMemory> for ExploreFault {
    ghost use Rattle.std.specs.Prelude.{◌≡◌};
    ghost use Rattle.wf_outcomes.specs.declared.exploring.ExploreFault.TheVariants as Faults;

    ghost from_gives = { λ _ e. e ≡ Faults.NoMemory };

    fn from(_: NoMemory) -> ExploreFault {
        ExploreFault::NoMemory
    }
}

/// One more is found, unless it was found before.
#[inline(always)]
fn arrive<O: Object>(
    _object: &O,
    seen: &mut Seen<O::State>,
    there: Found<O::State>,
) -> Result<(), NoMemory>
    requires worded { AreWorded O.meaning O.words_of seen.old }
    requires words { IsWorded O.meaning O.words_of there }
    ensures grown { IfOk result (λ _. index_set_len seen.old ≤ index_set_len seen.new) }
    ensures found { IfOk result (λ _. IsArrival (all_kept O.meaning seen.old) (all_kept O.meaning seen.new) (kept_in O.meaning there)) }
    ensures worded { IfOk result (λ _. AreWorded O.meaning O.words_of seen.new) }
{
    let _is_new = seen.insert(there)?;
    Ok(())
}

/// Tries the next call of a process at a place.
fn advance<'a, O: Object>(
    task: &Task<'a, O>,
    memory: &mut Memory<'a, O::State>,
    seen: &mut Seen<O::State>,
    place: usize,
    process: usize,
) -> Result<(), NoMemory>
    requires place { place < index_set_len seen.old }
    requires process { process < length task.now.scripts.now }
    requires worded { AreWorded O.meaning O.words_of seen.old }
    requires memory { AreMade O.meaning O.words_of (O.effect task.now.object.now) memory.old.made.items }
    requires exploring { IsExploring (O.effect task.now.object.now) (calls_in task.now.scripts.now) (O.opening task.now.object.now) (all_kept O.meaning seen.old) place process }
    ensures memory { OnOk result (AreMade O.meaning O.words_of (O.effect task.now.object.now) memory.new.made.items) }
    ensures worded { IfOk result (λ _. AreWorded O.meaning O.words_of seen.new) }
    ensures grown { IfOk result (λ _. index_set_len seen.old ≤ index_set_len seen.new) }
    ensures exploring { IfOk result (λ _. IsExploring (O.effect task.now.object.now) (calls_in task.now.scripts.now) (O.opening task.now.object.now)
        (all_kept O.meaning seen.new) place (process + 1)) }
{
    match step(task, memory, &seen[place], place, process)? {
        None => Ok(()),
        Some(there) => arrive(task.object, seen, there),
    }
}

/// Tries the next call of each process at a place.
fn expand<'a, O: Object>(
    task: &Task<'a, O>,
    memory: &mut Memory<'a, O::State>,
    seen: &mut Seen<O::State>,
    place: usize,
) -> Result<(), NoMemory>
    requires place { place < index_set_len seen.old }
    requires worded { AreWorded O.meaning O.words_of seen.old }
    requires memory { AreMade O.meaning O.words_of (O.effect task.now.object.now) memory.old.made.items }
    requires exploring { IsExploring (O.effect task.now.object.now) (calls_in task.now.scripts.now) (O.opening task.now.object.now) (all_kept O.meaning seen.old) place 0 }
    ensures memory { OnOk result (AreMade O.meaning O.words_of (O.effect task.now.object.now) memory.new.made.items) }
    ensures worded { IfOk result (λ _. AreWorded O.meaning O.words_of seen.new) }
    ensures exploring { IfOk result (λ _. IsExploring (O.effect task.now.object.now) (calls_in task.now.scripts.now) (O.opening task.now.object.now)
        (all_kept O.meaning seen.new) (place + 1) 0) }
{
    for process in 0..task.scripts.len() {
        advance(task, memory, seen, place, process)?;
    }
    Ok(())
}

/// The configuration in which no call is made.
fn start_of<O: Object>(task: &Task<O>) -> Result<Found<O::State>, NoMemory>
    ensures start { IfOk result (λ first. (kept_in O.meaning first).here ≡ start (O.effect task.now.object.now) (calls_in task.now.scripts.now) (O.opening task.now.object.now)) }
    ensures words { IfOk result (IsWorded O.meaning O.words_of) }
{
    let alloc = task.alloc;
    let counts = Counts::none(alloc, task.scripts.len())?;
    let state = task.object.open(alloc)?;
    let words = task.object.words(alloc, &state)?;
    let row = row_of_words(words.as_slice());
    let kept = Rc::new(alloc, Stated { words, row, state })?;
    let (from, by) = (0, 0);
    Ok(Found {
        counts,
        kept,
        from,
        by,
    })
}

/// How many calls the longest script has.
fn longest(scripts: &[Vec<KeptCall>]) -> usize {
    let mut most = 0;
    for script in scripts {
        most = script.len().max(most);
    }
    most
}

/// For how many configurations there is room from the beginning: as many as there are counts of calls made, since each of them is reached
/// unless the exploration gives up before; no more than `most`, nor than a number.
fn first_room(scripts: &[Vec<KeptCall>], most: usize) -> usize {
    let mut room = 1_usize;
    for script in scripts {
        room = room
            .saturating_mul(script.len().saturating_add(1))
            .min(FIRST_ROOM);
    }
    room.min(most)
}

/// The start alone is found, where so many may be.
fn begin<O: Object>(
    task: &Task<O>,
    most: usize,
    keys: RandomState,
) -> Result<Seen<O::State>, NoMemory>
    ensures worded { IfOk result (AreWorded O.meaning O.words_of) }
    ensures one { IfOk result (λ seen. index_set_len seen ≡ 1) }
    ensures exploring { IfOk result (λ seen. IsExploring (O.effect task.now.object.now) (calls_in task.now.scripts.now) (O.opening task.now.object.now) (all_kept O.meaning seen) 0 0) }
{
    let room = first_room(task.scripts, most);
    let mut seen = Seen::with_capacity_and_hasher(task.alloc, room, Keys::new(keys))?;
    let first = start_of(task)?;
    arrive(task.object, &mut seen, first)?;
    Ok(seen)
}

/// All configurations that the merges of these scripts can reach on an object, where there are at most so many. The keys
/// are those of the table of what was found.
pub fn explore<'a, O: Object>(
    alloc: Global,
    object: &'a O,
    scripts: &'a [Vec<KeptCall>],
    most: usize,
    keys: RandomState,
) -> Result<Explored<'a, O>, ExploreFault>
    // What is found is of these scripts and this object: see the invariant of `Explored`.
    ensures object { IfOk result (λ explored. explored.object.now ≡ object.now) }
    ensures scripts { IfOk result (λ explored. explored.scripts.now ≡ scripts.now) }
    // No more than that many were asked for.
    ensures few { IfOk result (λ explored. length (all_kept O.meaning explored.seen) ≤ most) }
    // It gives up only where more can be reached.
    ensures most { IsErrOf result ExploreFault.TooMany → HasMore (O.effect object.now) (calls_in scripts.now) (O.opening object.now) most }
{
    let task = Task {
        alloc,
        object,
        scripts,
    };
    let mut seen = begin(&task, most, keys)?;
    if most == 0 {
        return Err(ExploreFault::TooMany);
    }
    let mut memory = nothing_made(alloc)?;
    let mut place = 0;
    while place < seen.len() {
        expand(&task, &mut memory, &mut seen, place)?;
        if seen.len() > most {
            return Err(ExploreFault::TooMany);
        }
        place += 1;
    }
    let telling = telling_places(alloc, &seen, longest(scripts))?;
    Ok(Explored {
        object,
        scripts,
        seen,
        memory,
        telling,
    })
}
