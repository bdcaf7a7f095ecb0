//! Numbers noted at the names of calls.

ghost use Rattle.std.specs.HashMap as hash;
ghost use Rattle.std.specs.Prelude.{◌≡◌, ◌↔◌, ◌+◌, if◌then◌else◌, IsTrue, IfOk, OnOk, None, Some, length, map};
ghost use Rattle.ob_object_run.specs.Places.{same_id};
ghost use Rattle.ob_object_run.specs.Rows.{in_rows};
ghost use Rattle.wf_history.specs.declared.event.CallId.{CallId};

use ob_interface::{MOST_PROCESSES, NoMemory};
use std::alloc::{AllocError, Global};
use std::collections::HashMap;
use wf_history::CallId;

/// Numbers at names of calls. While the names of each process come in turn, from number 1 on, as in a history, they stand in
/// its row; from the first other name on each is looked up by its hash.
#[derive(Drop)]
pub(crate) struct Noted {
    rows: Vec<Vec<usize>>,
    others: HashMap<CallId, usize>,
}

impl Noted {
    ghost use Rattle.std.specs.Prelude.{◌≡◌, IfOk, OnOk, None, Some, if◌then◌else◌};
    ghost use Rattle.wf_history.specs.declared.event.CallId.{CallId};
    ghost use Rattle.ob_object_run.specs.Noted.{noted_in};
    ghost use Rattle.ob_object_run.specs.Places.{same_id};

    /// Nothing is noted.
    pub(crate) fn new(alloc: Global) -> Result<Noted, AllocError>
        ensures { IfOk result (λ n. (q : CallId) → noted_in n q ≡ None) }
    {
        Ok(Noted {
            rows: empty_rows(alloc)?,
            others: HashMap::new(alloc),
        })
    }

    /// What is noted at a name.
    #[inline]
    pub(crate) fn get(&self, id: CallId) -> Option<usize>
        ensures { result ≡ noted_in self.now id }
    {
        if self.others.is_empty() {
            return in_rows(&self.rows, id);
        }
        self.look_up(id)
    }

    /// What is noted at a name, where some are looked up by their hash. It stands apart, since histories need it seldom.
    #[inline(never)]
    fn look_up(&self, id: CallId) -> Option<usize>
        ensures { result ≡ noted_in self.now id }
    {
        match self.others.get(&id) {
            Some(number) => Some(*number),
            None => in_rows(&self.rows, id),
        }
    }

    /// The number is noted at the name, in place of what was noted there.
    pub(crate) fn note(&mut self, id: CallId, number: usize) -> Result<(), NoMemory>
        ensures { OnOk result ((q : CallId) → noted_in self.new q ≡ if same_id id q then Some number else noted_in self.old q) }
    {
        if self.others.is_empty()
            && let Some(row) = self.rows.get_mut(id.process)
            && is_next(row, id.number)
        {
            row.push(number)?;
            return Ok(());
        }
        insert(&mut self.others, id, number)?;
        Ok(())
    }
}

/// From now on the name is looked up by its hash. It stands apart, since histories need it seldom.
#[inline(never)]
fn insert(others: &mut HashMap<CallId, usize>, id: CallId, number: usize) -> Result<(), NoMemory>
    ensures { OnOk result ((q : CallId) → hash.get same_id others.new q ≡ if same_id id q then Some number else hash.get same_id others.old q) }
{
    others.insert(id, number)?;
    Ok(())
}

/// A row without names for each process that an object may have.
fn empty_rows(alloc: Global) -> Result<Vec<Vec<usize>>, AllocError>
    ensures { IfOk result (λ rows. (q : CallId) → in_rows (map (λ row. row.items) rows.items) q ≡ None) }
{
    let mut rows = Vec::with_capacity(alloc, MOST_PROCESSES)?;
    for _ in 0..MOST_PROCESSES {
        rows.push(Vec::new(alloc))?;
    }
    Ok(rows)
}

/// What stands at a name in the row of its process.
fn in_rows(rows: &[Vec<usize>], id: CallId) -> Option<usize>
    ensures { result ≡ in_rows (map (λ row. row.items) rows.now) id }
{
    let row = rows.get(id.process)?;
    let before = id.number.checked_sub(1)?;
    row.get(before as usize).copied()
}

/// Whether a number is the one behind those of a row.
fn is_next(row: &[usize], number: u64) -> bool
    ensures { IsTrue result ↔ (number ≡ length row.now + 1) }
{
    number > 0 && (number - 1) as usize == row.len()
}
