//! The calls that are open behind events.

ghost use Rattle.std.specs.Prelude.{◌≡◌, OnOk, IfOk, map};
ghost use Rattle.wf_lookup.specs.Beginnings.{open_behind, open_calls};
ghost use Rattle.wf_history.specs.History.{IsHistory};
ghost use Rattle.wf_history.specs.View.{event_of};

use std::alloc::{AllocError, Global};
use wf_history::{CallId, Event, SeenEvent};

/// The calls that are open behind these events, in the order in which they began.
pub fn open_calls(alloc: Global, events: &[Event]) -> Result<Vec<CallId>, AllocError>
    requires { IsHistory (map event_of events.now) }
    ensures { IfOk result (λ ids. ids.items ≡ open_calls (map event_of events.now)) }
{
    let mut ids = Vec::new(alloc);
    for event in events {
        note(&mut ids, event)?;
    }
    Ok(ids)
}

/// Takes up one more event.
fn note(ids: &mut Vec<CallId>, event: &Event) -> Result<(), AllocError>
    ensures { OnOk result (ids.new.items ≡ open_behind ids.old.items (event_of event.now)) }
{
    match event.seen() {
        SeenEvent::Begin(id, _) => ids.push(id)?,
        SeenEvent::Applied(_) => {}
        SeenEvent::End(id, _) => {
            ids.retain(|other| !(id.process == other.process && id.number == other.number))
        }
    }
    Ok(())
}
