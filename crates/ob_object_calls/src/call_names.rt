//! The names of calls in an order.

ghost use Rattle.std.specs.Prelude.{◌≡◌, ◌<◌, Contains, IfSome, MatchOption, Some, length, slice_get};
ghost use Rattle.ob_object_run.specs.Places.{same_id};

use wf_history::CallId;

/// Whether two names are of one call.
pub(crate) fn is_same(id: CallId, other: CallId) -> bool
    ensures { result ≡ same_id id other }
{
    id.process == other.process && id.number == other.number
}

/// The first place of a call in an order.
pub(crate) fn place_in(order: &[CallId], id: CallId) -> Option<usize>
    ensures place { MatchOption result (¬ Contains order.now id) (λ place. slice_get order.now place ≡ Some id) }
    ensures below { IfSome result (λ place. place < length order.now) }
{
    for (place, other) in order.iter().enumerate() {
        if is_same(*other, id) {
            return Some(place);
        }
    }
    None
}
