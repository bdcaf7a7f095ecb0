//! What happens along calls.

ghost use Rattle.std.specs.Prelude.{◌≡◌, ◌++◌, IfOk, OnOk, map, option_map, string_bytes};
ghost use Rattle.std.specs.Option.{option_copied};
ghost use Rattle.ob_checked.specs.CheckedModule.{program_in};
ghost use Rattle.ob_interface.specs.View.{signature_of};
ghost use Rattle.ob_mean.specs.View.{call_of, reply_of};
ghost use Rattle.ob_object_outcomes.specs.Scripted.{scripted_in};
ghost use Rattle.ob_object_outcomes.specs.Stories.{TellsStory, called, made_lines, state_behind, step_lines, steps_lines};
ghost use Rattle.ob_meaning.specs.ByPositionObject.{effect};
ghost use Rattle.ob_text_words.specs.ReplyLines.{reply_line};
ghost use Rattle.ob_store.specs.View.{state_of};
ghost use Rattle.ob_text_record.specs.RecordText.{begin_text};
ghost use Rattle.wf_history.specs.View.{kept_call};
ghost use Rattle.wf_outcomes.specs.Explored.{calls_in};

use crate::Scripted;
use crate::story_end::{Failure, ending};
use ob_checked::checked::Checked;
use ob_interface::NoMemory;
use ob_interface::export::Export;
use ob_mean::call::{Call, Reply};
use ob_mean::outside_call::step;
use ob_store::state::State;
use ob_text_record::variables::{push_opening, push_state};
use ob_text_record::{export_name, push_id, push_scalars};
use ob_text_words::reply_lines::{push_done_line, push_trap_line};
use std::alloc::{AllocError, Global};
use wf_history::{CallId, KeptCall};

/// Calls of scripts on a module's object, each with a budget of turns.
#[derive(Clone, Copy)]
struct Told<'a> {
    alloc: Global,
    checked: &'a Checked,
    budget: u64,
    scripts: &'a [Vec<KeptCall>],
}

/// The variables with which an object begins, and what happens at calls of its scripts, one after the other, up to where an export does
/// not answer TRUE; and behind it what it answers there, and a schedule that leads there.
pub fn story(
    alloc: Global,
    scripted: &Scripted,
    path: &[CallId],
    name: &str,
) -> Result<String, NoMemory>
    ensures { IfOk result (λ text. TellsStory (scripted_in scripted.now) path.now (string_bytes text)) }
{
    let object = scripted.object(alloc)?;
    let told = Told {
        alloc,
        checked: object.checked,
        budget: object.budget,
        scripts: scripted.scripts(),
    };
    let mut text = String::new(alloc);
    push_opening(&mut text, object.checked.program(), object.opening)?;
    let opening = object.opening.copy(alloc)?;
    let last = push_steps(&mut text, told, path, opening)?;
    let failure = Failure {
        checked: object.checked,
        budget: object.budget,
        name,
        path,
    };
    text.push_str(&ending(alloc, failure, last)?)?;
    Ok(text)
}

/// Appends what happens at calls, one after the other, from a state on, and gives the state behind them.
fn push_steps(
    text: &mut String,
    told: Told<'_>,
    path: &[CallId],
    before: State,
) -> Result<State, NoMemory>
    ensures { IfOk result (λ _. string_bytes text.new ≡ string_bytes text.old
        ++ steps_lines (program_in told.entry.checked.now) told.entry.budget (calls_in told.entry.scripts.now) path.now (state_of before)) }
{
    let mut state = before;
    for id in path {
        state = push_step(text, told, *id, state)?;
    }
    Ok(state)
}

/// Appends what happens at a call of the scripts on a state, and gives the state behind it.
fn push_step(
    text: &mut String,
    told: Told<'_>,
    id: CallId,
    before: State,
) -> Result<State, NoMemory>
    ensures lines { IfOk result (λ _. string_bytes text.new ≡ string_bytes text.old
        ++ step_lines (program_in told.entry.checked.now) told.entry.budget id (called (calls_in told.entry.scripts.now) id) (state_of before)) }
    ensures behind { IfOk result (λ after. state_of after
        ≡ state_behind (program_in told.entry.checked.now) told.entry.budget (called (calls_in told.entry.scripts.now) id) (state_of before)) }
{
    match called(told.scripts, id) {
        None => Ok(before),
        Some(call) => push_made(text, told, id, call, before),
    }
}

/// The call of this name, if there is one.
fn called<'a>(scripts: &'a [Vec<KeptCall>], id: CallId) -> Option<&'a KeptCall>
    ensures { option_map kept_call (option_copied result) ≡ called (calls_in scripts.now) id }
{
    scripts
        .get(id.process)?
        .get(id.number.saturating_sub(1) as usize)
}

/// Appends what happens at a call on a state, and gives the state behind it.
fn push_made(
    text: &mut String,
    told: Told<'_>,
    id: CallId,
    call: &KeptCall,
    before: State,
) -> Result<State, NoMemory>
    ensures lines { IfOk result (λ _. string_bytes text.new ≡ string_bytes text.old
        ++ made_lines (program_in told.entry.checked.now) told.entry.budget id (kept_call call.now) (state_of before)) }
    ensures behind { IfOk result (λ after. state_of after
        ≡ (effect (program_in told.entry.checked.now) (kept_call call.now) told.entry.budget (state_of before)).state) }
{
    push_begin(text, told.checked.exports(), id, call)?;
    let asked = asked_call(told.alloc, call)?;
    let program = told.checked.program();
    let (after, reply) = step(told.alloc, program, before, &asked, told.budget)?;
    push_end(text, id, &reply)?;
    push_state(text, program, &after)?;
    Ok(after)
}

/// What a call asks of the object.
fn asked_call(alloc: Global, call: &KeptCall) -> Result<Call, AllocError>
    ensures { IfOk result (λ asked. call_of asked ≡ kept_call call.now) }
{
    Ok(Call {
        export: call.proc,
        arguments: Vec::from_slice(alloc, call.args.lent().as_slice())?,
    })
}

/// Appends the line of a call that begins.
fn push_begin(
    text: &mut String,
    exports: &[Export],
    id: CallId,
    call: &KeptCall,
) -> Result<(), AllocError>
    ensures { OnOk result (string_bytes text.new ≡ string_bytes text.old ++ begin_text (map signature_of exports.now) id (kept_call call.now)) }
{
    text.push_str("B ")?;
    push_id(text, id)?;
    text.push_str(" ")?;
    text.push_str(export_name(exports, call.proc))?;
    push_scalars(text, call.args.lent().as_slice())?;
    text.push_str("\n")
}

/// Appends the line of a call that ends.
fn push_end(text: &mut String, id: CallId, reply: &Reply) -> Result<(), AllocError>
    ensures { OnOk result (string_bytes text.new ≡ string_bytes text.old ++ reply_line id.process id.number (reply_of reply.now)) }
{
    match reply {
        Reply::Answers(values) => push_done_line(text, id.process, id.number, values.as_slice()),
        Reply::Trapped(trap) => push_trap_line(text, id.process, id.number, *trap),
    }
}
