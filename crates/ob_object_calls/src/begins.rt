//! Where calls begin among the events of a history.

ghost use Rattle.std.specs.Prelude.{◌≡◌, map, IfOk, OnOk};
ghost use Rattle.std.specs.HashMap as hash;
ghost use Rattle.ob_object_run.specs.Places.{begin_noted, same_id};
ghost use Rattle.ob_object_calls.specs.Begins.{AreBegins};
ghost use Rattle.wf_history.specs.View.{event_of};
ghost use Rattle.wf_history.specs.declared.event.CallId.{CallId};

use ob_interface::NoMemory;
use std::alloc::Global;
use std::collections::HashMap;
use wf_history::{CallId, Event, SeenEvent};

/// The places of the Begins of these events.
pub fn begins_of(alloc: Global, events: &[Event]) -> Result<HashMap<CallId, usize>, NoMemory>
    ensures { IfOk result (λ begins. AreBegins (map event_of events.now) (hash.get same_id begins)) }
{
    let mut begins = HashMap::new(alloc);
    for (place, event) in events.iter().enumerate() {
        note(&mut begins, place, event)?;
    }
    Ok(begins)
}

/// Takes up the event at a place.
fn note(begins: &mut HashMap<CallId, usize>, place: usize, event: &Event) -> Result<(), NoMemory>
    ensures { OnOk result ((q : CallId) → hash.get same_id begins.new q ≡ begin_noted place (event_of event.now) q (hash.get same_id begins.old q)) }
{
    match event.seen() {
        SeenEvent::Begin(id, _) => {
            begins.insert(id, place)?;
        }
        SeenEvent::Applied(_) => {}
        SeenEvent::End(_, _) => {}
    }
    Ok(())
}
