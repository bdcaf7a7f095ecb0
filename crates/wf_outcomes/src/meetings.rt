//! Places of configurations at which the replies of all calls are to be seen.

ghost use Rattle.std.specs.Prelude.{◌≡◌, ◌<◌, ◌+◌, length, get_or, IfOk, OnOk, IsTrue};
ghost use Rattle.indexmap.specs.IndexSet.{index_set_len};
ghost use Rattle.wf_outcomes.specs.Meetings.{AreMarks, AreTelling, IsMarked, IsMet, IsPlaced, MeetsAlike};

use crate::remembered_calls::has_same_words;
use crate::seen::{Found, Seen};
use ob_interface::NoMemory;
use std::alloc::Global;

/// How many meetings of a call and a state are remembered at most.
const MARKS: u64 = 1 << 16;

/// Places at which each call meets each state that it can meet, and of a call and a state the place at which they met last, as
/// far as it is remembered.
#[derive(Drop)]
struct Meetings {
    places: Vec<usize>,
    marks: Vec<usize>,
    /// For how many calls of a process a state has rows.
    stride: u64,
}

/// The first row of a configuration's state. The words of integers that are not negative are multiples of eight, and so the rows of small ones
/// stand close together.
#[inline(always)]
fn first_row<S>(here: &Found<S>, stride: u64) -> u64 {
    let row = here.kept.as_ref().row;
    ((row >> 3 << 1) | (row & 1)).wrapping_mul(stride)
}

/// Where it is marked that the next call of a process met the state that has this first row.
#[inline(always)]
fn row_of<S>(here: &Found<S>, first: u64, process: usize) -> usize {
    let call = first.wrapping_add(count_at(here, process) as u64);
    let row = call
        .wrapping_mul(here.counts.len() as u64)
        .wrapping_add(process as u64);
    (row % MARKS) as usize
}

/// How many calls of a process are made.
#[inline(always)]
fn count_at<S>(one: &Found<S>, process: usize) -> u32
    ensures { result ≡ get_or one.now.counts.items process 0 }
{
    one.counts.count(process)
}

/// Whether as many calls of the process are made at both, on the same state.
fn meets_alike<S>(one: &Found<S>, other: &Found<S>, process: usize) -> bool
    requires { process < length one.now.counts.items }
    ensures { IsTrue result → MeetsAlike process one.now other.now }
{
    let count = count_at(one, process);
    let taken = count_at(other, process);
    count == taken && has_same_words(one.kept.as_ref(), other.kept.as_ref())
}

/// Whether it is marked that the next call of a process met the state.
fn is_met<S>(
    seen: &Seen<S>,
    meetings: &Meetings,
    row: usize,
    here: &Found<S>,
    process: usize,
) -> bool
    requires { AreMarks meetings.now.marks.items meetings.now.places.items }
    ensures { IsTrue result → IsMet seen.now.keys meetings.now.places.items process here.now }
{
    let Some(place) = meetings.marks.as_slice().get(row) else {
        return false;
    };
    let Some(one) = seen.get_index(*place) else {
        return false;
    };
    if process >= one.counts.len() {
        return false;
    }
    meets_alike(one, here, process)
}

/// One more place, unless it is the last one.
fn add_place(places: &mut Vec<usize>, place: usize) -> Result<(), NoMemory>
    ensures { OnOk result (IsPlaced places.old.items places.new.items place) }
{
    let many = places.len();
    if many > 0 && places[many - 1] == place {
        return Ok(());
    }
    places.push(place)?;
    Ok(())
}

/// Marks enough for a row.
fn reach(marks: &mut Vec<usize>, row: usize, place: usize) -> Result<(), NoMemory>
    ensures long { OnOk result (row < length marks.new.items) }
    ensures marks { OnOk result (IsMarked marks.old.items marks.new.items place) }
{
    while marks.len() <= row {
        marks.push(place)?;
    }
    Ok(())
}

/// The place is marked at a row.
fn mark(marks: &mut Vec<usize>, row: usize, place: usize) -> Result<(), NoMemory>
    ensures { OnOk result (IsMarked marks.old.items marks.new.items place) }
{
    reach(marks, row, place)?;
    marks[row] = place;
    Ok(())
}

/// The next call of a process meets the state at this place.
fn note(meetings: &mut Meetings, row: usize, place: usize) -> Result<(), NoMemory>
    requires { AreMarks meetings.old.marks.items meetings.old.places.items }
    ensures placed { OnOk result (IsPlaced meetings.old.places.items meetings.new.places.items place) }
    ensures marks { OnOk result (AreMarks meetings.new.marks.items meetings.new.places.items) }
{
    add_place(&mut meetings.places, place)?;
    mark(&mut meetings.marks, row, place)?;
    Ok(())
}

/// Sees that the next call of each process meets the state of a configuration at one of the places.
fn meet<S: Drop>(seen: &Seen<S>, meetings: &mut Meetings, place: usize) -> Result<(), NoMemory>
    requires place { place < index_set_len seen.now }
    requires telling { AreTelling seen.now.keys meetings.old.places.items place }
    requires marks { AreMarks meetings.old.marks.items meetings.old.places.items }
    ensures telling { OnOk result (AreTelling seen.now.keys meetings.new.places.items (place + 1)) }
    ensures marks { OnOk result (AreMarks meetings.new.marks.items meetings.new.places.items) }
{
    let here = &seen[place];
    let first = first_row(here, meetings.stride);
    for process in 0..here.counts.len() {
        let row = row_of(here, first, process);
        if !is_met(seen, meetings, row, here, process) {
            note(meetings, row, place)?;
        }
    }
    Ok(())
}

/// Places at which the next call of each process meets each state that it meets at any: all replies are to be seen there. No process has more
/// calls than `most`.
pub(crate) fn telling_places<S: Drop>(
    alloc: Global,
    seen: &Seen<S>,
    most: usize,
) -> Result<Vec<usize>, NoMemory>
    ensures { IfOk result (λ places. AreTelling seen.now.keys places.items (length seen.now.keys)) }
{
    let places = Vec::new(alloc);
    let marks = Vec::new(alloc);
    let stride = (most as u64).wrapping_add(1);
    let mut meetings = Meetings {
        places,
        marks,
        stride,
    };
    for place in 0..seen.len() {
        meet(seen, &mut meetings, place)?;
    }
    Ok(meetings.places)
}
