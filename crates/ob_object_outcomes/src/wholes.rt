//! All whole outcomes of scripts on a module's object.

ghost use Rattle.std.specs.Prelude.{◌≡◌, ◌-◌, ◌≤◌, All, Err, IfOk, IfErr, IfSome, map};
ghost use Rattle.ob_checked.specs.CheckedModule.{program_in};
ghost use Rattle.ob_object_compile.specs.Asked.{TellsAtOnce};
ghost use Rattle.ob_object_compile.specs.View.{asked_of};
ghost use Rattle.ob_object_run.specs.LegalOrder.{CallEnds};
ghost use Rattle.ob_object_outcomes.specs.Outcomes.{AlwaysHere, HoldsAlways};
ghost use Rattle.ob_object_outcomes.specs.Questions.{Holds};
ghost use Rattle.ob_object_outcomes.specs.Scripted.{scripted_in};
ghost use Rattle.ob_object_outcomes.specs.OutcomesView.{always_in};
ghost use Rattle.ob_object_outcomes.specs.WholesView.{AreFrom, outcomes_in, told_in};
ghost use Rattle.ob_object_outcomes.specs.Wholes.{AreWholesOf, AreWholesPlaced, IsWholesFault, IsWholesFaultHere, IsWholesTrouble};
ghost use Rattle.ob_object_search.specs.Kept.{kept_in};
ghost use Rattle.ob_store.specs.View.{state_of};
ghost use Rattle.wf_outcomes.specs.Explored.{all_kept, calls_in};
ghost use Rattle.wf_outcomes.specs.Outcomes.{AlwaysGood};
ghost use Rattle.wf_outcomes.specs.OutcomeOrders.{IsItself};
ghost use Rattle.wf_whole_outcomes.specs.View.{AreStatesOf};
ghost use Rattle.wf_whole_outcomes.specs.Wholes.{AreWholes};

use crate::{Bounds, OutcomesFault, Scripted, must_hold, question_asked, scripted_text};
use ob_interface::NoMemory;
use ob_object_calls::SeqTextFault;
use ob_object_compile::Asked;
use ob_object_search::{KeptState, ModuleObject};
use ob_store::state::State;
use std::alloc::{AllocError, Global};
use wf_outcomes::{Explored, explore};
use wf_whole_outcomes::{Layer, ToldWholes, wholes_told};

/// Whole outcomes, each with the number of its state, and the states.
#[derive(Drop)]
pub struct WholeOutcomes {
    pub told: ToldWholes<usize>,
    pub states: Vec<State>,
}

/// All whole outcomes of the calls of a script on the object that is asked for: all replies and the last state together, over all
/// merges of what the processes call; each once, with the first order that gives it, and by these orders. Where the object is to
/// be asked, what is asked is answered by TRUE at the opening and behind each call of each merge. The bound is on lists of replies
/// with their states, told on the way.
pub fn wholes_text(
    alloc: Global,
    asked: Asked<'_>,
    script: &[u8],
    bounds: &Bounds<'_>,
) -> Result<(Scripted, WholeOutcomes), OutcomesFault>
    ensures wholes { IfOk result (λ r. AreWholesOf (asked_of asked.entry) script.now (scripted_in r.0) (outcomes_in r.1)) }
    ensures always { IfOk result (λ r. IfSome (always_in bounds.now) (HoldsAlways (asked_of asked.entry) script.now (scripted_in r.0))) }
    ensures fault { IfErr result (IsWholesFault (asked_of asked.entry) script.now (always_in bounds.now) bounds.now.most) }
    ensures at_once { TellsAtOnce (asked_of asked.entry) (λ e. result ≡ Err (OutcomesFault.Texts (SeqTextFault.Compile e))) }
{
    let scripted = scripted_text(alloc, asked, script)?;
    let found = wholes_of(alloc, &scripted, bounds)?;
    Ok((scripted, found))
}

/// The same of an object with scripts, where variables go by their positions.
fn wholes_of(
    alloc: Global,
    scripted: &Scripted,
    bounds: &Bounds<'_>,
) -> Result<WholeOutcomes, OutcomesFault>
    ensures wholes { IfOk result (λ wholes. AreWholesPlaced (scripted_in scripted.now) (outcomes_in wholes)) }
    ensures always { IfOk result (λ _. IfSome (always_in bounds.now) (AlwaysHere (scripted_in scripted.now))) }
    ensures fault { IfErr result (IsWholesFaultHere (scripted_in scripted.now) (always_in bounds.now) bounds.now.most) }
{
    let question = question_asked(scripted, bounds)?;
    let object = scripted.object(alloc)?;
    let explored = explore(alloc, &object, scripted.scripts(), bounds.most, bounds.keys)?;
    let found = wholes_where_held(alloc, &explored, question, bounds);

    // What an exploration keeps is let go by its parts.
    let Explored {
        object: _object,
        scripts: _scripts,
        seen: _seen,
        memory: _memory,
        telling: _telling,
    } = explored;
    found
}

/// The whole outcomes, where what is asked is answered by TRUE at each configuration.
fn wholes_where_held(
    alloc: Global,
    explored: &Explored<'_, ModuleObject<'_>>,
    question: Option<usize>,
    bounds: &Bounds<'_>,
) -> Result<WholeOutcomes, OutcomesFault>
    ensures wholes { IfOk result (λ wholes. ∥ AreWholes IsItself (CallEnds (program_in explored.now.object.now.checked.now) explored.now.object.now.budget)
        (calls_in explored.now.scripts.now) (state_of explored.now.object.now.opening.now) (outcomes_in wholes) ∥₁) }
    ensures always { IfOk result (λ _. IfSome question (λ number. ∥ AlwaysGood (CallEnds (program_in explored.now.object.now.checked.now) explored.now.object.now.budget)
        (calls_in explored.now.scripts.now) (state_of explored.now.object.now.opening.now)
        (Holds (CallEnds (program_in explored.now.object.now.checked.now) explored.now.object.now.budget) number) ∥₁)) }
    ensures fault { IfErr result (IsWholesTrouble (CallEnds (program_in explored.now.object.now.checked.now) explored.now.object.now.budget)
        (calls_in explored.now.scripts.now) (state_of explored.now.object.now.opening.now) question bounds.now.most) }
{
    must_hold(alloc, explored, question)?;
    let told = wholes_told(alloc, explored, bounds.most, bounds.keys)?;
    Ok(outcomes_of(alloc, explored, told)?)
}

/// The whole outcomes, with states of their own: those from the first place on at which an outcome ends. An exploration goes by how many calls
/// were made, so at nearly all of these one does.
fn outcomes_of(
    alloc: Global,
    explored: &Explored<'_, ModuleObject<'_>>,
    told: ToldWholes<&KeptState>,
) -> Result<WholeOutcomes, NoMemory>
    requires { AreStatesOf kept_in (all_kept kept_in explored.now.seen) told }
    ensures { IfOk result (λ wholes. outcomes_in wholes ≡ told_in told.entry) }
{
    let ToldWholes {
        processes,
        replies,
        front,
        states: _states,
    } = told;
    let first = first_place(&front.layer);
    let numbers = numbers_from(alloc, &front.layer, first)?;
    let states = states_from(alloc, explored, first)?;
    let told = ToldWholes {
        processes,
        replies,
        front,
        states: numbers,
    };
    Ok(WholeOutcomes { told, states })
}

/// A place before which no node has its own.
fn first_place(layer: &Layer) -> usize
    ensures { All (λ node. result ≤ node.place) layer.now.keys }
{
    let mut first = usize::MAX;
    for at in 0..layer.len() {
        let node = &layer[at];
        first = first.min(node.place);
    }
    first
}

/// The places of nodes, counted from a place on.
fn numbers_from(alloc: Global, layer: &Layer, first: usize) -> Result<Vec<usize>, AllocError>
    ensures { IfOk result (λ numbers. numbers.items ≡ map (λ node. node.place - first) layer.now.keys) }
{
    let mut numbers = Vec::with_capacity(alloc, layer.len())?;
    for at in 0..layer.len() {
        let node = &layer[at];
        let number = node.place.saturating_sub(first);
        numbers.push(number)?;
    }
    Ok(numbers)
}

/// The states of the configurations from a place on, copied.
fn states_from(
    alloc: Global,
    explored: &Explored<'_, ModuleObject<'_>>,
    first: usize,
) -> Result<Vec<State>, AllocError>
    ensures { IfOk result (λ own. AreFrom (all_kept kept_in explored.now.seen) first (map state_of own.items)) }
{
    let mut own = Vec::new(alloc);
    for place in first..explored.len() {
        let kept = explored.state(place);
        let state = kept.state(alloc)?;
        own.push(state)?;
    }
    Ok(own)
}
