//! What is said behind a story: what the export answers there, and a schedule that leads there. Nothing is promised of it.

use ob_checked::checked::Checked;
use ob_interface::NoMemory;
use ob_mean::call::{Call, Reply};
use ob_mean::outside_call::step;
use ob_store::state::State;
use ob_text_words::export_names::export_named;
use ob_text_words::numbers::push_number;
use std::alloc::{AllocError, Global};
use wf_history::CallId;

/// An export that does not answer TRUE behind these calls on a module's object.
#[derive(Clone, Copy)]
pub(crate) struct Failure<'a> {
    pub checked: &'a Checked,
    pub budget: u64,
    pub name: &'a str,
    pub path: &'a [CallId],
}

/// What is said of it, where the calls have led to this state.
pub(crate) fn ending(alloc: Global, failure: Failure<'_>, last: State) -> Result<String, NoMemory> {
    let mut text = String::from_str(alloc, "here ")?;
    text.push_str(failure.name)?;
    let reply = answer(alloc, failure, last)?;
    push_answer(&mut text, &reply)?;
    if failure.path.is_empty() {
        text.push_str("\n")?;
        return Ok(text);
    }
    text.push_str("; where fewer calls are made it answers TRUE\n")?;
    push_schedule(&mut text, failure.path)?;
    Ok(text)
}

/// What the export answers on a state.
fn answer(alloc: Global, failure: Failure<'_>, last: State) -> Result<Reply, NoMemory> {
    let Some((export, _)) = export_named(failure.checked.exports(), failure.name.as_bytes()) else {
        return Ok(Reply::Answers(Vec::new(alloc)));
    };
    let arguments = Vec::new(alloc);
    let call = Call { export, arguments };
    let program = failure.checked.program();
    let (_, reply) = step(alloc, program, last, &call, failure.budget)?;
    Ok(reply)
}

/// Appends what it answers.
fn push_answer(text: &mut String, reply: &Reply) -> Result<(), AllocError> {
    match reply {
        Reply::Answers(_) => text.push_str(" answers FALSE"),
        Reply::Trapped(trap) => {
            text.push_str(" traps with ")?;
            push_number(text, *trap)
        }
    }
}

/// Appends a schedule by which the calls are made, each as a whole.
fn push_schedule(text: &mut String, path: &[CallId]) -> Result<(), AllocError> {
    text.push_str("run shows these calls with the schedule")?;
    for id in path {
        text.push_str(" ")?;
        push_number(text, id.process)?;
        text.push_str("!")?;
    }
    text.push_str("\n")
}
