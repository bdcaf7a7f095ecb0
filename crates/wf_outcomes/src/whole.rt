//! Fronts of merges, and whole merges.

ghost use Rattle.wf_outcomes.specs.Explored.{calls_in};
ghost use Rattle.wf_outcomes.specs.Whole.{Completes};

use wf_history::KeptCall;
use wf_order::Object;

/// A law: where each call has an outcome on each state, each front of a merge can be completed, so the possible replies of
/// a call are those that it has in merges of all calls.
pub fn completes<O: Object>(_object: &O, _scripts: &[Vec<KeptCall>])
    ensures { Completes (O.effect _object.now) (calls_in _scripts.now) (O.opening _object.now) }
{}
