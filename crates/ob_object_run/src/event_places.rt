//! Where calls begin and end among the events of a history.

ghost use Rattle.std.specs.Prelude.{map, IfOk};
ghost use Rattle.wf_history.specs.View.{event_of};
ghost use Rattle.ob_object_run.specs.Noted.{noted_in};
ghost use Rattle.ob_object_run.specs.Places.{ArePlaces};

use crate::noted::Noted;
use ob_interface::NoMemory;
use std::alloc::Global;
use wf_history::{CallId, Event, SeenEvent};

/// A call with the place of its Begin among the events, and of its End where it has ended.
#[derive(Clone, Copy)]
pub(crate) struct Placed {
    pub id: CallId,
    pub begin: usize,
    pub end: Option<usize>,
}

/// The places of all calls of a history.
#[derive(Drop)]
pub(crate) struct Places {
    pub begins: Noted,
    pub ends: Noted,
}

impl Places {
    ghost use Rattle.std.specs.Prelude.{◌≡◌, OnOk};
    ghost use Rattle.wf_history.specs.declared.event.CallId.{CallId};
    ghost use Rattle.wf_history.specs.View.{event_of};
    ghost use Rattle.ob_object_run.specs.Noted.{noted_in};
    ghost use Rattle.ob_object_run.specs.Places.{begin_noted, end_noted};
    ghost use Rattle.ob_object_run.specs.PlacedCalls.{placed_at};

    /// A call with its places, where that of its Begin is 0 if it never began.
    pub(crate) fn placed(&self, id: CallId) -> Placed
        ensures { result ≡ placed_at self.now id }
    {
        Placed {
            id,
            begin: self.begins.get(id).unwrap_or(0),
            end: self.ends.get(id),
        }
    }

    /// Takes up the event at a place.
    fn note(&mut self, place: usize, event: &Event) -> Result<(), NoMemory>
        ensures begins { OnOk result ((q : CallId) → noted_in self.new.begins q ≡ begin_noted place (event_of event.now) q (noted_in self.old.begins q)) }
        ensures ends { OnOk result ((q : CallId) → noted_in self.new.ends q ≡ end_noted place (event_of event.now) q (noted_in self.old.ends q)) }
    {
        match event.seen() {
            SeenEvent::Begin(id, _) => {
                self.begins.note(id, place)?;
            }
            SeenEvent::Applied(_) => {}
            SeenEvent::End(id, _) => {
                self.ends.note(id, place)?;
            }
        }
        Ok(())
    }
}

/// The places of the calls of these events.
pub(crate) fn places_of(alloc: Global, events: &[Event]) -> Result<Places, NoMemory>
    ensures { IfOk result (λ p. ArePlaces (map event_of events.now) (noted_in p.begins) (noted_in p.ends)) }
{
    let mut places = Places {
        begins: Noted::new(alloc)?,
        ends: Noted::new(alloc)?,
    };
    for (place, event) in events.iter().enumerate() {
        places.note(place, event)?;
    }
    Ok(places)
}
