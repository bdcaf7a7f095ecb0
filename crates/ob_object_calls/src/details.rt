//! A sequential run of which more is told than the replies: the variables that each call changed, and the turns that it took.

ghost use Rattle.std.specs.Prelude.{◌≡◌, ◌<◌, Err, All, IfOk, IfErr, map, string_bytes};
ghost use Rattle.ob_code_correct.specs.Compiled.{Fits};
ghost use Rattle.ob_object_compile.specs.Asked.{TellsAtOnce};
ghost use Rattle.ob_object_compile.specs.Sound.{IsSoundObject};
ghost use Rattle.ob_object_compile.specs.View.{asked_of, object_in};
ghost use Rattle.ob_object_calls.specs.SequentialRun.{IsSeqRefusal};
ghost use Rattle.ob_object_calls.specs.DetailLines.{told_lines};
ghost use Rattle.ob_object_calls.specs.DetailedRun.{IsToldRun, TellsAt, TellsTurns, changes_told, replies_at};
ghost use Rattle.ob_text_words.specs.ScriptCalls.{object_call, script_call_of};

use crate::changes::changes_in_turn;
use crate::code_replies::replies_on;
use crate::detail_lines::{Beside, print_told, push_budget_line};
use crate::script_calls::{callers, object_calls};
use crate::sequential::SeqTextFault;
use ob_interface::NoMemory;
use ob_mean::turns::turns_in_turn;
use ob_object_compile::laws::compilations_are_sound;
use ob_object_compile::{Asked, Object, compile_asked};
use ob_text_scripts::read_scripts;
use ob_text_words::script_call::ScriptCall;
use std::alloc::Global;

/// What is told of calls beside their replies.
#[derive(Clone, Copy, PartialEq, Eq)]
pub struct Details {
    /// The variables that each call changed.
    pub state: bool,
    /// How many turns each call took, and with which budget at least all replies are the same.
    pub turns: bool,
}

/// The lines of the script's calls, made one at a time in line order on an object that is asked for, from the state with which it begins,
/// each with the budget of turns: their replies, and what is told beside these.
pub fn seq_asked_told(
    alloc: Global,
    asked: Asked<'_>,
    script: &[u8],
    details: Details,
) -> Result<String, SeqTextFault>
    ensures run { IfOk result (λ text. IsToldRun details (asked_of asked.entry) script.now (string_bytes text)) }
    ensures refused { IfErr result (IsSeqRefusal (asked_of asked.entry) script.now) }
    ensures at_once { TellsAtOnce (asked_of asked.entry) (λ e. result ≡ Err (SeqTextFault.Compile e)) }
{
    compilations_are_sound();
    let object = compile_asked(alloc, asked)?;
    let scripts = read_scripts(alloc, object.checked(), asked.processes, script)?;
    Ok(told_text(alloc, &object, scripts.calls(), details)?)
}

/// The same of calls that are made on an object.
fn told_text(
    alloc: Global,
    object: &Object,
    calls: &[ScriptCall],
    details: Details,
) -> Result<String, NoMemory>
    requires sound { IsSoundObject (object_in object.now) }
    requires fit { All (λ c. Fits (object_in object.now).program (object_call (script_call_of c))) calls.now }
    requires processes { All (λ c. c.process < (object_in object.now).processes) calls.now }
    ensures { IfOk result (λ text. TellsAt details (object_in object.now) (map (λ c. object_call (script_call_of c)) calls.now)
        (map (λ c. c.process) calls.now) (string_bytes text)) }
{
    let changes = changes_asked(alloc, object, calls, details.state)?;
    if details.turns {
        return text_with_turns(alloc, object, calls, &changes);
    }
    let beside = Beside {
        turns: &[],
        changes: &changes,
    };
    text_beside(alloc, object, calls, beside)
}

/// The lines of the variables that each call changed, where they are asked for.
fn changes_asked(
    alloc: Global,
    object: &Object,
    calls: &[ScriptCall],
    is_asked: bool,
) -> Result<Vec<String>, NoMemory>
    requires sound { IsSoundObject (object_in object.now) }
    requires fit { All (λ c. Fits (object_in object.now).program (object_call (script_call_of c))) calls.now }
    ensures { IfOk result (λ changes. map string_bytes changes.items
        ≡ changes_told is_asked (object_in object.now) (map (λ c. object_call (script_call_of c)) calls.now)) }
{
    if !is_asked {
        return Ok(Vec::new(alloc));
    }
    changes_in_turn(alloc, object, calls)
}

/// The lines of calls with their replies, their turns and what they changed, and the least budget.
fn text_with_turns(
    alloc: Global,
    object: &Object,
    calls: &[ScriptCall],
    changes: &[String],
) -> Result<String, NoMemory>
    requires sound { IsSoundObject (object_in object.now) }
    requires fit { All (λ c. Fits (object_in object.now).program (object_call (script_call_of c))) calls.now }
    requires processes { All (λ c. c.process < (object_in object.now).processes) calls.now }
    ensures { IfOk result (λ text. TellsTurns (object_in object.now) (map (λ c. object_call (script_call_of c)) calls.now)
        (map (λ c. c.process) calls.now) (map string_bytes changes.now) (string_bytes text)) }
{
    let asked = object_calls(alloc, calls)?;
    let opening = object.opening().copy(alloc)?;
    let turns = turns_in_turn(alloc, object.checked(), opening, &asked, object.budget())?;
    let beside = Beside {
        turns: &turns.taken,
        changes,
    };
    let mut text = text_beside(alloc, object, calls, beside)?;
    push_budget_line(&mut text, turns.least)?;
    Ok(text)
}

/// The lines of calls with their replies and what is told beside these.
fn text_beside(
    alloc: Global,
    object: &Object,
    calls: &[ScriptCall],
    beside: Beside<'_>,
) -> Result<String, NoMemory>
    requires sound { IsSoundObject (object_in object.now) }
    requires fit { All (λ c. Fits (object_in object.now).program (object_call (script_call_of c))) calls.now }
    requires processes { All (λ c. c.process < (object_in object.now).processes) calls.now }
    ensures { IfOk result (λ text. string_bytes text ≡ told_lines beside.entry.turns.now (map string_bytes beside.entry.changes.now)
        (map (λ c. c.process) calls.now)
        (replies_at (object_in object.now) (map (λ c. object_call (script_call_of c)) calls.now) (object_in object.now).engine.budget)) }
{
    let callers = callers(alloc, calls)?;
    let replies = replies_on(alloc, object, calls)?;
    Ok(print_told(alloc, object.processes(), &callers, &replies, beside)?)
}
