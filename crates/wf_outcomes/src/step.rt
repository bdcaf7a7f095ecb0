//! Steps from a configuration.

ghost use Rattle.std.specs.Prelude.{◌≡◌, ◌<◌, [], length, get_or, slice_get, option_map, IfOk, IfSome, MatchOption, OnOk};
ghost use Rattle.std.specs.Option.{option_copied};
ghost use Rattle.ob_interface.specs.View.{reply_of};
ghost use Rattle.wf_history.specs.View.{kept_call};
ghost use Rattle.wf_outcomes.specs.RememberedCalls.{AreMade};
ghost use Rattle.wf_outcomes.specs.Explored.{kept_in, calls_in, HasNoStep, IsOnlyStep, IsOnlyStepWith, IsWorded};

use crate::remembered_calls::{Memory, after};
use crate::seen::{Found, Stated, row_of_words};
use ob_interface::NoMemory;
use ob_interface::call::Reply;
use std::alloc::Global;
use std::rc::Rc;
use wf_counts::Counts;
use wf_history::{KeptCall, SeenCall};
use wf_order::Object;

/// What is explored: the calls of each process, on an object.
#[derive_where(Clone, Copy)]
pub(crate) struct Task<'a, O> {
    pub alloc: Global,
    pub object: &'a O,
    pub scripts: &'a [Vec<KeptCall>],
}

/// What a call makes of a state, and what it answers.
pub(crate) fn applied<O: Object>(
    alloc: Global,
    object: &O,
    state: &O::State,
    call: &KeptCall,
) -> Result<(O::State, Reply), NoMemory>
    ensures { IfOk result (λ made. O.effect object.now (kept_call call.now) (O.meaning state.now) (O.meaning made.0) (reply_of made.1)) }
{
    let seen = SeenCall {
        proc: call.proc,
        args: &call.args,
    };
    object.apply(alloc, state, seen)
}

/// The next call of a process, if it has one.
#[inline(always)]
pub(crate) fn next_call<'a>(
    scripts: &'a [Vec<KeptCall>],
    counts: &Counts,
    process: usize,
) -> Option<&'a KeptCall>
    ensures { option_map kept_call (option_copied result) ≡ slice_get (get_or (calls_in scripts.now) process []) (get_or counts.now.items process 0) }
{
    scripts.get(process)?.get(counts.count(process) as usize)
}

/// What the next call of a process leads to from the configuration at a place, if it has one, and its reply.
pub(crate) fn stepped<O: Object>(
    task: &Task<O>,
    here: &Found<O::State>,
    place: usize,
    process: usize,
) -> Result<Option<(Found<O::State>, Reply)>, NoMemory>
    requires { process < length here.now.counts.items }
    ensures only { IfOk result (λ made. MatchOption made (HasNoStep (O.effect task.now.object.now) (calls_in task.now.scripts.now) (kept_in O.meaning here.now).here process)
        (λ to. IsOnlyStepWith (O.effect task.now.object.now) (calls_in task.now.scripts.now) (kept_in O.meaning here.now).here process (reply_of to.1) (kept_in O.meaning to.0).here)) }
    ensures origin { IfOk result (λ made. IfSome made (λ to. (to.0.from ≡ place) × (to.0.by ≡ process))) }
    ensures words { IfOk result (λ made. IfSome made (λ to. IsWorded O.meaning O.words_of to.0)) }
{
    let alloc = task.alloc;
    let Some(call) = next_call(task.scripts, &here.counts, process) else {
        return Ok(None);
    };
    let (state, reply) = applied(alloc, task.object, here.state(), call)?;
    let words = task.object.words(alloc, &state)?;
    let row = row_of_words(words.as_slice());
    let kept = Rc::new(alloc, Stated { words, row, state })?;
    let counts = here.counts.one_more(alloc, process)?;
    let (from, by) = (place, process);
    let there = Found {
        counts,
        kept,
        from,
        by,
    };
    Ok(Some((there, reply)))
}

/// What the next call of a process leads to from the configuration at a place, if it has one.
pub(crate) fn step<'a, O: Object>(
    task: &Task<'a, O>,
    memory: &mut Memory<'a, O::State>,
    here: &Found<O::State>,
    place: usize,
    process: usize,
) -> Result<Option<Found<O::State>>, NoMemory>
    requires process { process < length here.now.counts.items }
    requires words { IsWorded O.meaning O.words_of here.now }
    requires memory { AreMade O.meaning O.words_of (O.effect task.now.object.now) memory.old.made.items }
    ensures only { IfOk result (λ stepped. MatchOption stepped (HasNoStep (O.effect task.now.object.now) (calls_in task.now.scripts.now) (kept_in O.meaning here.now).here process)
        (λ to. IsOnlyStep (O.effect task.now.object.now) (calls_in task.now.scripts.now) (kept_in O.meaning here.now).here process (kept_in O.meaning to).here)) }
    ensures origin { IfOk result (λ stepped. IfSome stepped (λ to. (to.from ≡ place) × (to.by ≡ process))) }
    ensures words { IfOk result (λ stepped. IfSome stepped (IsWorded O.meaning O.words_of)) }
    ensures memory { OnOk result (AreMade O.meaning O.words_of (O.effect task.now.object.now) memory.new.made.items) }
{
    let Some(call) = next_call(task.scripts, &here.counts, process) else {
        return Ok(None);
    };
    let kept = after(task, memory, &here.kept, call)?;
    let counts = here.counts.one_more(task.alloc, process)?;
    let (from, by) = (place, process);
    let there = Found {
        counts,
        kept,
        from,
        by,
    };
    Ok(Some(there))
}
