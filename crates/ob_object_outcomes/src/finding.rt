//! All outcomes of scripts on a module's object.

ghost use Rattle.std.specs.Prelude.{◌≡◌, Err, IfOk, IfErr, IfSome, OnOk, map};
ghost use Rattle.ob_checked.specs.CheckedModule.{program_in};
ghost use Rattle.ob_object_compile.specs.Asked.{TellsAtOnce};
ghost use Rattle.ob_object_compile.specs.View.{asked_of};
ghost use Rattle.ob_object_run.specs.LegalOrder.{CallEnds};
ghost use Rattle.ob_object_outcomes.specs.Asking.{IsAsked, IsFailing, SaysNoQuestion};
ghost use Rattle.ob_object_outcomes.specs.Outcomes.{AlwaysHere, AreOutcomesOf, ArePlaced, HoldsAlways};
ghost use Rattle.ob_object_outcomes.specs.OutcomesFaults.{IsFaultHere, IsOutcomesFault};
ghost use Rattle.ob_object_outcomes.specs.Questions.{Holds};
ghost use Rattle.ob_object_outcomes.specs.Scripted.{scripted_in};
ghost use Rattle.ob_object_outcomes.specs.OutcomesView.{always_in, last_in, outcomes_in};
ghost use Rattle.ob_object_search.specs.Kept.{kept_in};
ghost use Rattle.ob_store.specs.View.{state_of};
ghost use Rattle.wf_outcomes.specs.Explored.{calls_in};
ghost use Rattle.wf_outcomes.specs.Outcomes.{AlwaysGood};
ghost use Rattle.wf_outcomes.specs.OutcomeOrders.{AreOutcomes, IsItself};
ghost use Rattle.wf_outcomes.specs.View.{call_in, end_in};

use crate::question::{call_of, passed, question_named};
use crate::scripted::{Scripted, scripted_text};
use ob_interface::NoMemory;
use ob_object_calls::SeqTextFault;
use ob_object_compile::Asked;
use ob_object_search::{KeptState, ModuleObject};
use ob_store::state::State;
use std::alloc::{AllocError, Global};
use std::hash::RandomState;
use thiserror::Error;
use wf_history::CallId;
use wf_outcomes::{
    ExploreFault, Explored, Outcomes, Question, ToldCall, ToldEnd, all_told, explore,
};

/// What an exploration is to go by.
#[derive(Clone, Copy)]
pub struct Bounds<'a> {
    /// The name of the export by which each state is asked whether it is as it must be, if it is to be asked.
    pub always: Option<&'a [u8]>,
    /// The most configurations to be looked at.
    pub most: usize,
    /// The keys of the table of those that were found.
    pub keys: RandomState,
}

/// A state in which all calls may end, and an order of them that leads to it.
#[derive(Drop)]
pub struct LastState {
    pub state: State,
    pub order: Vec<CallId>,
}

/// The replies that each call may have, by process and number, and the states in which all calls may end.
#[derive(Drop)]
pub struct ModuleOutcomes {
    pub calls: Vec<ToldCall>,
    pub ends: Vec<LastState>,
}

/// Why no outcomes are told: the first fault, in the order of the variants.
#[derive(Drop, Debug, Error)]
pub enum OutcomesFault {
    /// There is no object, or the script is none on it.
    #[error("{0}")]
    Texts(SeqTextFault),
    /// X5: no export has the name that is to be asked, or it has other parameters than one VAR parameter, a BOOLEAN.
    #[error("X5")]
    NoQuestion,
    /// X2: there are more configurations than were to be looked at.
    #[error("X2")]
    TooMany,
    /// X3: these calls lead to where what is asked is answered by FALSE or traps, and no fewer calls do.
    #[error("X3")]
    NotAlways(Vec<CallId>),
    /// Want of memory.
    #[error("NoMemory")]
    NoMemory,
}

impl From<SeqTextFault> for OutcomesFault {
    ghost use Rattle.std.specs.Prelude.{◌≡◌};
    ghost use Rattle.ob_object_outcomes.specs.OutcomesFaults.{of_texts};

    ghost from_gives = { λ e f. f ≡ of_texts e };

    fn from(fault: SeqTextFault) -> OutcomesFault {
        match fault {
            SeqTextFault::NoMemory => OutcomesFault::NoMemory,
            other => OutcomesFault::Texts(other),
        }
    }
}

impl From<ExploreFault> for OutcomesFault {
    ghost use Rattle.std.specs.Prelude.{◌≡◌};
    ghost use Rattle.ob_object_outcomes.specs.OutcomesFaults.{of_exploring};

    ghost from_gives = { λ e f. f ≡ of_exploring e };

    fn from(fault: ExploreFault) -> OutcomesFault {
        match fault {
            ExploreFault::TooMany => OutcomesFault::TooMany,
            ExploreFault::NoMemory => OutcomesFault::NoMemory,
        }
    }
}

impl From<NoMemory> for OutcomesFault {
    ghost use Rattle.std.specs.Prelude.{◌≡◌};
    ghost use Rattle.ob_object_outcomes.specs.declared.finding.OutcomesFault.TheVariants as Faults;

    ghost from_gives = { λ _ f. f ≡ Faults.NoMemory };

    fn from(_: NoMemory) -> OutcomesFault {
        OutcomesFault::NoMemory
    }
}

/// All outcomes of the calls of a script on the object that is asked for: the replies that each call may have and the states in
/// which all calls may end, over all merges of what the processes call. Where the object is to be asked, what is asked is
/// answered by TRUE at the opening and behind each call of each merge.
pub fn outcomes_text(
    alloc: Global,
    asked: Asked<'_>,
    script: &[u8],
    bounds: &Bounds<'_>,
) -> Result<(Scripted, ModuleOutcomes), OutcomesFault>
    ensures outcomes { IfOk result (λ r. AreOutcomesOf (asked_of asked.entry) script.now (scripted_in r.0) (outcomes_in r.1)) }
    ensures always { IfOk result (λ r. IfSome (always_in bounds.now) (HoldsAlways (asked_of asked.entry) script.now (scripted_in r.0))) }
    ensures fault { IfErr result (IsOutcomesFault (asked_of asked.entry) script.now (always_in bounds.now) bounds.now.most) }
    ensures at_once { TellsAtOnce (asked_of asked.entry) (λ e. result ≡ Err (OutcomesFault.Texts (SeqTextFault.Compile e))) }
{
    let scripted = scripted_text(alloc, asked, script)?;
    let found = outcomes_of(alloc, &scripted, bounds)?;
    Ok((scripted, found))
}

/// The same of an object with scripts, where variables go by their positions.
fn outcomes_of(
    alloc: Global,
    scripted: &Scripted,
    bounds: &Bounds<'_>,
) -> Result<ModuleOutcomes, OutcomesFault>
    ensures outcomes { IfOk result (λ o. ArePlaced (scripted_in scripted.now) (outcomes_in o)) }
    ensures always { IfOk result (λ _. IfSome (always_in bounds.now) (AlwaysHere (scripted_in scripted.now))) }
    ensures fault { IfErr result (IsFaultHere (scripted_in scripted.now) (always_in bounds.now) bounds.now.most) }
{
    let question = question_asked(scripted, bounds)?;
    let object = scripted.object(alloc)?;
    let explored = explore(alloc, &object, scripted.scripts(), bounds.most, bounds.keys)?;
    let found = outcomes_where_held(alloc, &explored, question);

    // What an exploration keeps is let go by its parts.
    let Explored {
        object: _object,
        scripts: _scripts,
        seen: _seen,
        memory: _memory,
        telling: _telling,
    } = explored;
    found
}

/// The outcomes, where what is asked is answered by TRUE at each configuration.
fn outcomes_where_held(
    alloc: Global,
    explored: &Explored<'_, ModuleObject<'_>>,
    question: Option<usize>,
) -> Result<ModuleOutcomes, OutcomesFault>
    ensures outcomes { IfOk result (λ o. AreOutcomes IsItself (CallEnds (program_in explored.now.object.now.checked.now) explored.now.object.now.budget)
        (calls_in explored.now.scripts.now) (state_of explored.now.object.now.opening.now) (map call_in o.calls.items) (map last_in o.ends.items)) }
    ensures always { IfOk result (λ _. IfSome question (λ number. ∥ AlwaysGood (CallEnds (program_in explored.now.object.now.checked.now) explored.now.object.now.budget)
        (calls_in explored.now.scripts.now) (state_of explored.now.object.now.opening.now)
        (Holds (CallEnds (program_in explored.now.object.now.checked.now) explored.now.object.now.budget) number) ∥₁)) }
    ensures fault { IfErr result (IsFailing (CallEnds (program_in explored.now.object.now.checked.now) explored.now.object.now.budget)
        (calls_in explored.now.scripts.now) (state_of explored.now.object.now.opening.now) question) }
{
    must_hold(alloc, explored, question)?;
    Ok(outcomes_found(alloc, explored)?)
}

/// The number of the export by which states are asked, if they are.
pub fn question_asked(
    scripted: &Scripted,
    bounds: &Bounds<'_>,
) -> Result<Option<usize>, OutcomesFault>
    ensures asked { IfOk result (IsAsked (scripted_in scripted.now) (always_in bounds.now)) }
    ensures none { IfErr result (SaysNoQuestion (scripted_in scripted.now) (always_in bounds.now)) }
{
    let Some(name) = bounds.always else {
        return Ok(None);
    };
    match question_named(scripted.exports(), name) {
        None => Err(OutcomesFault::NoQuestion),
        Some(number) => Ok(Some(number)),
    }
}

/// Sees that what is asked is answered by TRUE at each configuration.
pub fn must_hold(
    alloc: Global,
    explored: &Explored<'_, ModuleObject<'_>>,
    question: Option<usize>,
) -> Result<(), OutcomesFault>
    ensures always { OnOk result (IfSome question (λ number. ∥ AlwaysGood (CallEnds (program_in explored.now.object.now.checked.now) explored.now.object.now.budget)
        (calls_in explored.now.scripts.now) (state_of explored.now.object.now.opening.now)
        (Holds (CallEnds (program_in explored.now.object.now.checked.now) explored.now.object.now.budget) number) ∥₁)) }
    ensures fault { IfErr result (IsFailing (CallEnds (program_in explored.now.object.now.checked.now) explored.now.object.now.budget)
        (calls_in explored.now.scripts.now) (state_of explored.now.object.now.opening.now) question) }
{
    let Some(number) = question else {
        return Ok(());
    };
    let call = call_of(alloc, number)?;
    let wanted = passed(alloc)?;
    let asking = Question {
        call: &call,
        wanted: &wanted,
    };
    match explored.first_bad(alloc, asking)? {
        None => Ok(()),
        Some(bad) => Err(OutcomesFault::NotAlways(bad.path)),
    }
}

/// The outcomes, with states of their own.
fn outcomes_found(
    alloc: Global,
    explored: &Explored<'_, ModuleObject<'_>>,
) -> Result<ModuleOutcomes, NoMemory>
    ensures { IfOk result (λ o. AreOutcomes IsItself (CallEnds (program_in explored.now.object.now.checked.now) explored.now.object.now.budget)
        (calls_in explored.now.scripts.now) (state_of explored.now.object.now.opening.now) (map call_in o.calls.items) (map last_in o.ends.items)) }
{
    let Outcomes { calls, ends } = all_told(alloc, explored)?;
    let ends = last_states(alloc, &ends)?;
    Ok(ModuleOutcomes { calls, ends })
}

/// The states in which all calls may end, each a copy.
fn last_states(alloc: Global, ends: &[ToldEnd<'_, KeptState>]) -> Result<Vec<LastState>, AllocError>
    ensures { IfOk result (λ lasts. map last_in lasts.items ≡ map (end_in kept_in) ends.now) }
{
    let mut lasts = Vec::new(alloc);
    for end in ends {
        lasts.push(last_state(alloc, end)?)?;
    }
    Ok(lasts)
}

/// A state in which all calls may end, a copy.
fn last_state(alloc: Global, end: &ToldEnd<'_, KeptState>) -> Result<LastState, AllocError>
    ensures { IfOk result (λ last. last_in last ≡ end_in kept_in end.now) }
{
    let state = end.state.state(alloc)?;
    let order = Vec::from_slice(alloc, &end.order)?;
    Ok(LastState { state, order })
}
