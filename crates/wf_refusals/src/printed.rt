//! A machine's history, order, schedule and state as text.

use ob_interface::call::Reply;
use ob_interface::scalar::Scalar;
use std::alloc::AllocError;
use wf_history::{CallId, Event, SeenEvent, SeenReply};
use wf_object::Machine;
use wf_samples::Adder;

/// A line for each event, and one each for the order, the schedule and the root's variables.
pub fn print_machine<R: Eprint>(
    rt: &R,
    text: &mut String,
    machine: &Machine<Adder>,
) -> Result<(), AllocError> {
    for event in machine.history().events() {
        print_event(text, event)?;
    }
    text.push_str("order")?;
    print_ids(text, machine.order())?;
    text.push_str("schedule")?;
    for turns in machine.schedule() {
        write!(text, " {}x{}", turns.process, turns.count)?;
    }
    text.push_str("\nstate")?;
    for word in state(rt, machine)?.iter() {
        write!(text, " {word}")?;
    }
    text.push_str("\n")
}

/// The root's variables, read again where memory was refused.
fn state<R: Eprint>(rt: &R, machine: &Machine<Adder>) -> Result<Vec<i64>, AllocError> {
    match machine.state_words() {
        Ok(words) => Ok(words),
        Err(_) => {
            let _ = rt.eprintln("refused: state");
            machine.state_words().map_err(|_| AllocError)
        }
    }
}

fn print_event(text: &mut String, event: &Event) -> Result<(), AllocError> {
    match event.seen() {
        SeenEvent::Begin(id, call) => {
            write!(text, "begin {}.{}", id.process, id.number)?;
            print_values(text, call.args.lent().as_slice())
        }
        SeenEvent::Applied(ids) => {
            text.push_str("applied")?;
            print_ids(text, ids)
        }
        SeenEvent::End(id, reply) => {
            text.push_str("end ")?;
            print_kept(text, id, reply)
        }
    }
}

fn print_ids(text: &mut String, ids: &[CallId]) -> Result<(), AllocError> {
    for id in ids {
        write!(text, " {}.{}", id.process, id.number)?;
    }
    text.push_str("\n")
}

/// A call and its reply, as the history keeps it.
fn print_kept(text: &mut String, id: CallId, reply: SeenReply) -> Result<(), AllocError> {
    write!(text, "{}.{}", id.process, id.number)?;
    match reply {
        SeenReply::Done(values) => print_values(text, values.lent().as_slice()),
        SeenReply::Trap(k) => writeln!(text, " trap {k}"),
    }
}

/// A call and its reply.
pub fn print_answer(text: &mut String, id: CallId, reply: &Reply) -> Result<(), AllocError> {
    write!(text, "{}.{}", id.process, id.number)?;
    match reply {
        Reply::Done(values) => print_values(text, values),
        Reply::Trap(k) => writeln!(text, " trap {k}"),
    }
}

fn print_values(text: &mut String, values: &[Scalar]) -> Result<(), AllocError> {
    for value in values {
        match value {
            Scalar::Int(value) => write!(text, " {value}")?,
            Scalar::Bool(value) => write!(text, " {value}")?,
        }
    }
    text.push_str("\n")
}
