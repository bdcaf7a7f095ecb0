//! Laws of the records of runs. What a function here ensures is proved; it does nothing.

ghost use Rattle.ob_object_run.specs.Laws.{OneProcessAnswers, OneProcessInTurn, OwnCallsInTurn, RunsKeepBound, RunsKeepBoundByCall, RunsKeepTotal, RunsPassCheck, StatesAreObjects};

use ob_code_correct::laws::orders_are_carried;
use ob_code_engine::CodeEngine;
use ob_code_engine::engine_laws::engines_keep_total;
use wf_theorems::alone::{every_process, process_alone};
use wf_theorems::bound::{every_bound, every_call};
use wf_theorems::runs::every_run;
use wf_theorems::standing::legal_order;

/// A state of a well-formed program, its variables with values of their types, is an object over the engine of its code, with any
/// budget.
pub fn states_are_objects()
    ensures { StatesAreObjects }
{}

/// In a record the calls of each process stand in the order as in the scripts.
pub fn own_calls_in_turn()
    ensures { OwnCallsInTurn }
{
    every_process::<CodeEngine>();
}

/// In a record of one process the order is a beginning of the calls of the scripts.
pub fn one_process()
    ensures { OneProcessInTurn }
{
    process_alone::<CodeEngine>();
}

/// In a record of one process the replies are those that the calls of the scripts have when they are made one at a time, by
/// what they mean to the program, with the engine's budget.
pub fn one_process_answers()
    ensures { OneProcessAnswers }
{
    every_run::<CodeEngine>();
    legal_order::<CodeEngine>();
    orders_are_carried();
    one_process();
}

/// In a recorded run, at each moment, no call has taken more than two rounds, 2n bodies and the promised number of its own
/// steps outside them.
pub fn runs_keep_bound()
    ensures moments { RunsKeepBound }
    ensures calls { RunsKeepBoundByCall }
{
    every_bound::<CodeEngine>();
    every_call::<CodeEngine>();
}

/// No call of a recorded run takes more own steps in all than the promised number and, in each of 2n bodies, what its budget
/// pays for. Nothing is asked of the calls.
pub fn runs_keep_total()
    ensures { RunsKeepTotal }
{
    engines_keep_total();
}

/// By what the calls come to with the engine's budget, from the state that a recorded run began with, a record's order has no
/// fault for which a checker of orders would refuse it, but want of memory.
pub fn runs_pass_check()
    ensures { RunsPassCheck }
{
    every_run::<CodeEngine>();
    legal_order::<CodeEngine>();
}
