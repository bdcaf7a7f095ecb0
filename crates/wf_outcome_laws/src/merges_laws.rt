//! Laws of runs of scripts. What a function here ensures is proved; it does nothing.

ghost use Rattle.wf_outcome_laws.specs.ScriptRuns.{LegalOrdersAreMerges, MergesAreLegalOrders};
ghost use Rattle.wf_outcomes.specs.Explored.{calls_in};

use wf_history::KeptCall;
use wf_order::Object;

/// A law: each legal order of a run of scripts in which all calls end is a merge of all calls, which leads to the state that the
/// order leads to, and of each call the reply in the run is one that it may have in the merges.
pub fn legal_orders_are_merges<O: Object>(_object: &O, _scripts: &[Vec<KeptCall>])
    ensures { LegalOrdersAreMerges (O.effect _object.now) (calls_in _scripts.now) (O.opening _object.now) }
{}

/// A law: each merge of all calls is a legal order of a run of the scripts, of one in which the calls run alone in that order; and it
/// leads to the state that the merge leads to.
pub fn merges_are_legal_orders<O: Object>(_object: &O, _scripts: &[Vec<KeptCall>])
    ensures { MergesAreLegalOrders (O.effect _object.now) (calls_in _scripts.now) (O.opening _object.now) }
{}
