//! Orders of calls, with the place of each.

ghost use Rattle.std.specs.Prelude.{◌≡◌, IfOk};
ghost use Rattle.std.proofs.Props.{props};
ghost use Rattle.ob_picture_chart.specs.Moments.{place_in};
ghost use Rattle.ob_picture_chart.specs.Places.{noted_in};
ghost use Rattle.wf_history.specs.declared.event.CallId.{CallId};

use crate::order_places::Noted;
use std::alloc::{AllocError, Global};
use wf_history::CallId;

/// Calls in an order, and for each of them where it stands there, which is known at once.
#[derive(Drop)]
pub(crate) struct Order<'a> {
    pub ids: &'a [CallId],
    places: Noted,
    ghost noted: { (id : CallId) → noted_in places id ≡ place_in ids.now id } by { Prim.hlevel props },
}

impl<'a> Order<'a> {
    ghost use Rattle.std.specs.Prelude.{◌≡◌, ◌≤◌, IfOk, length};
    ghost use Rattle.ob_picture_chart.specs.Moments.{place_in};
    ghost use Rattle.ob_picture_chart.specs.Same.{is_among};

    /// Takes up these calls, in their order.
    pub(crate) fn new(alloc: Global, ids: &'a [CallId]) -> Result<Order<'a>, AllocError>
        ensures { IfOk result (λ order. order.ids.now ≡ ids.now) }
    {
        let places = noted(alloc, ids)?;
        Ok(Order { ids, places })
    }

    /// Where a call stands, from 1; 0 where it doesn't.
    pub(crate) fn place(&self, id: CallId) -> usize
        ensures place { result ≡ place_in self.now.ids.now id }
        ensures within { result ≤ length self.now.ids.now }
    {
        self.places.get(id)
    }

    /// Whether a call is one of them.
    pub(crate) fn has(&self, id: CallId) -> bool
        ensures { result ≡ is_among self.now.ids.now id }
    {
        self.places.get(id) != 0
    }
}

/// The places of calls in their order: of each the first one.
fn noted(alloc: Global, ids: &[CallId]) -> Result<Noted, AllocError>
    ensures { IfOk result (λ places. (id : CallId) → noted_in places id ≡ place_in ids.now id) }
{
    let mut places = Noted::new(alloc)?;
    for (index, id) in ids.iter().enumerate() {
        if places.get(*id) == 0 {
            places.note(*id, index + 1)?;
        }
    }
    Ok(places)
}
