//! Whether the answers that workers handed back are those of a record.

ghost use Rattle.std.specs.Prelude.{◌≡◌, ◌≢◌, [], IfNone, IfSome, IsFalse, IsTrue, get_or, length, map};
ghost use Rattle.ob_desk_serve.specs.ServeFaults.{AreToldAll, IsLowestLost, IsTold};
ghost use Rattle.ob_desk_serve.specs.PromisesOfServe.{calls_for};
ghost use Rattle.ob_text_words.specs.ScriptCalls.{script_call_of};
ghost use Rattle.wf_history.specs.View.{event_of};
ghost use Rattle.wf_theorems.specs.FirstCalls.{first_ids};

use ob_desk_floor::{CallAnswer, are_shown};
use ob_text_words::script_call::ScriptCall;
use wf_history::{CallId, Event};

/// The lowest process of which the events show other answers than were handed back, or not one answer to each of its calls in turn.
pub fn first_lost(
    processes: usize,
    scripts: &[ScriptCall],
    answers: &[Vec<CallAnswer>],
    events: &[Event],
) -> Option<usize>
    requires { length answers.now ≡ processes }
    ensures none { IfNone result (AreToldAll processes (map event_of events.now) (map script_call_of scripts.now) (λ k. get_or (map (λ list. list.items) answers.now) k [])) }
    ensures some { IfSome result (IsLowestLost processes (map event_of events.now) (map script_call_of scripts.now) (λ k. get_or (map (λ list. list.items) answers.now) k [])) }
{
    for process in 0..processes {
        let own = answers[process].as_slice();
        if !are_all(process, call_count(process, scripts), own, events) {
            return Some(process);
        }
    }
    None
}

/// How many calls the scripts have for a process.
fn call_count(process: usize, scripts: &[ScriptCall]) -> usize
    ensures { result ≡ calls_for process (map script_call_of scripts.now) }
{
    let mut count = 0;
    for call in scripts {
        if call.process == process {
            count += 1;
        }
    }
    count
}

/// Whether the answers are those that the events show of the process, and to just the first so many of its calls in turn.
fn are_all(process: usize, count: usize, answers: &[CallAnswer], events: &[Event]) -> bool
    ensures yes { IsTrue result → IsTold (map event_of events.now) process count answers.now }
    ensures no { IsFalse result → ¬ (IsTold (map event_of events.now) process count answers.now) }
{
    are_shown(process, answers, events) && are_in_turn(process, count, answers)
}

/// Whether these are answers to just the first so many calls of the process, in turn.
fn are_in_turn(process: usize, count: usize, answers: &[CallAnswer]) -> bool
    ensures yes { IsTrue result → map (λ a. a.id) answers.now ≡ first_ids process count }
    ensures no { IsFalse result → map (λ a. a.id) answers.now ≢ first_ids process count }
{
    if answers.len() != count {
        return false;
    }
    for i in 0..count {
        let number = i as u64 + 1;
        if answers[i].id != (CallId { process, number }) {
            return false;
        }
    }
    true
}
