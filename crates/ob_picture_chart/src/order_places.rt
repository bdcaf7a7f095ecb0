//! Where calls stand in an order.

ghost use Rattle.std.specs.Prelude.{◌≡◌, ◌&&◌, IfOk, OnOk, Some, if◌then◌else◌, nat_eq};
ghost use Rattle.std.specs.HashMap as hash;
ghost use Rattle.ob_picture_chart.specs.Places.{in_rows};
ghost use Rattle.ob_picture_chart.specs.Same.{is_same};
ghost use Rattle.wf_history.specs.declared.event.CallId.{CallId};

use crate::row::Row;
use ob_interface::MOST_PROCESSES;
use std::alloc::{AllocError, Global};
use std::collections::HashMap;
use wf_history::CallId;

/// Places of calls. While the calls of each process come in turn, as in a legal order, their places stand in its row; from the
/// first other call on each is looked up by its hash.
#[derive(Drop)]
pub(crate) struct Noted {
    rows: Vec<Row>,
    others: HashMap<CallId, usize>,
}

impl Noted {
    ghost use Rattle.std.specs.Prelude.{◌≡◌, IfOk, OnOk, if◌then◌else◌};
    ghost use Rattle.ob_picture_chart.specs.Places.{noted_in};
    ghost use Rattle.ob_picture_chart.specs.Same.{is_same};
    ghost use Rattle.wf_history.specs.declared.event.CallId.{CallId};

    /// No call has a place.
    pub(crate) fn new(alloc: Global) -> Result<Noted, AllocError>
        ensures { IfOk result (λ noted. (q : CallId) → noted_in noted q ≡ 0) }
    {
        Ok(Noted {
            rows: empty_rows(alloc)?,
            others: HashMap::new(alloc),
        })
    }

    /// The place of a call, or 0.
    #[inline]
    pub(crate) fn get(&self, id: CallId) -> usize
        ensures { result ≡ noted_in self.now id }
    {
        if self.others.is_empty() {
            return in_rows(&self.rows, id);
        }
        self.look_up(id)
    }

    /// The place of a call, where some are looked up by their hash. It stands apart, since legal orders need it seldom.
    #[inline(never)]
    fn look_up(&self, id: CallId) -> usize
        ensures { result ≡ noted_in self.now id }
    {
        match self.others.get(&id) {
            Some(place) => *place,
            None => in_rows(&self.rows, id),
        }
    }

    /// The call has this place from now on.
    pub(crate) fn note(&mut self, id: CallId, place: usize) -> Result<(), AllocError>
        ensures { OnOk result ((q : CallId) → noted_in self.new q ≡ if is_same id q then place else noted_in self.old q) }
    {
        if !self.others.is_empty() {
            insert(&mut self.others, id, place)?;
            return Ok(());
        }
        let pushed = push_in_rows(&mut self.rows, id, place)?;
        if pushed {
            return Ok(());
        }
        insert(&mut self.others, id, place)?;
        Ok(())
    }
}

/// Appends the place to the row of the call's process, where that has one and the call is the next one of it, and tells so.
fn push_in_rows(rows: &mut Vec<Row>, id: CallId, place: usize) -> Result<bool, AllocError>
    ensures { IfOk result (λ pushed. (q : CallId) → in_rows rows.new.items q ≡ if pushed && is_same id q then place else in_rows rows.old.items q) }
{
    match rows.get_mut(id.process) {
        Some(row) => {
            let pushed = row.push(id.number, place)?;
            Ok(pushed)
        }
        None => Ok(false),
    }
}

/// From now on the call is looked up by its hash. It stands apart, since legal orders need it seldom.
#[inline(never)]
fn insert(others: &mut HashMap<CallId, usize>, id: CallId, place: usize) -> Result<(), AllocError>
    ensures { OnOk result ((q : CallId) → hash.get is_same others.new q ≡ if is_same id q then Some place else hash.get is_same others.old q) }
{
    others.insert(id, place)?;
    Ok(())
}

/// A row without places for each process that an object may have.
fn empty_rows(alloc: Global) -> Result<Vec<Row>, AllocError>
    ensures { IfOk result (λ rows. (q : CallId) → in_rows rows.items q ≡ 0) }
{
    let mut rows = Vec::with_capacity(alloc, MOST_PROCESSES)?;
    for _ in 0..MOST_PROCESSES {
        rows.push(Row::new(alloc))?;
    }
    Ok(rows)
}

/// The place of a call in the row of its process.
fn in_rows(rows: &[Row], id: CallId) -> usize
    ensures { result ≡ in_rows rows.now id }
{
    match rows.get(id.process) {
        Some(row) => row.get(id.number),
        None => 0,
    }
}
