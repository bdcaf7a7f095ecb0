//! Laws of whole outcomes and runs. What a function here ensures is proved; it does nothing.

ghost use Rattle.wf_outcomes.specs.Explored.{calls_in};
ghost use Rattle.wf_outcome_laws.specs.WholeOutcomeRuns.{RunsGiveWholes, WholesAreOfRuns};

use wf_history::KeptCall;
use wf_order::Object;

/// A law: each legal order of a run of scripts in which all calls end gives a whole outcome, with the replies of the run and the
/// state that the order leads to.
pub fn runs_give_wholes<O: Object>(_object: &O, _scripts: &[Vec<KeptCall>])
    ensures { RunsGiveWholes (O.effect _object.now) (calls_in _scripts.now) (O.opening _object.now) }
{}

/// A law: each whole outcome is that of a run of the scripts in which all calls end, of one in which the calls run alone, one after
/// the other, in the order that gives it.
pub fn wholes_are_of_runs<O: Object>(_object: &O, _scripts: &[Vec<KeptCall>])
    ensures { WholesAreOfRuns (O.effect _object.now) (calls_in _scripts.now) (O.opening _object.now) }
{}
