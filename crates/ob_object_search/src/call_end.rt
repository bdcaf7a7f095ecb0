//! Where a call ends.

ghost use Rattle.std.specs.Prelude.{◌≡◌, MatchOption, Some, map, slice_get};
ghost use Rattle.ob_interface.specs.Call.{Reply};
ghost use Rattle.ob_object_search.specs.EndEvidence.{EndsNowhere};
ghost use Rattle.ob_text_reading.specs.Names.{named, named_all, named_id};
ghost use Rattle.wf_history.specs.History.{End};
ghost use Rattle.wf_history.specs.View.{event_of};

use crate::searching::named;
use wf_history::{CallId, Event, SeenEvent};

/// The place of the end of a call, and its id there by a small number, where the call goes by the name of its process.
pub(crate) fn end_of(names: &[usize], events: &[Event], id: CallId) -> Option<(usize, CallId)>
    ensures { MatchOption result (EndsNowhere (named_all names.now (map event_of events.now)) id)
        (λ found. (named_id names.now found.1 ≡ id) × (reply : Reply) × (slice_get (map event_of events.now) found.0 ≡ Some (End found.1 reply))) }
{
    for (place, event) in events.iter().enumerate() {
        if let Some(end) = end_at(names, event, id) {
            return Some((place, end));
        }
    }
    None
}

/// The id of the call by a small number, where this event is its end.
fn end_at(names: &[usize], event: &Event, id: CallId) -> Option<CallId>
    ensures { MatchOption result ((reply : Reply) → named names.now (event_of event.now) ≡ End id reply → ⊥)
        (λ end. (named_id names.now end ≡ id) × (reply : Reply) × (event_of event.now ≡ End end reply)) }
{
    match event.seen() {
        SeenEvent::End(end, _) if named(names, end) == id => Some(end),
        _ => None,
    }
}
