//! Whether seats have what events show of their processes.

ghost use Rattle.std.specs.Prelude.{◌≡◌, ◌≢◌, ◌++◌, ◌↔◌, All, IfNone, IfSome, IsFalse, IsTrue, List, map};
ghost use Rattle.ob_desk_floor.specs.Agreeing.{AgreesAt};
ghost use Rattle.ob_desk_floor.specs.Seat.{answered_call, given_reply};
ghost use Rattle.ob_interface.specs.Call.{Reply};
ghost use Rattle.wf_history.specs.History.{own_answer, own_answers};
ghost use Rattle.wf_history.specs.View.{event_of, seen_reply};
ghost use Rattle.wf_history.specs.declared.event.CallId.{CallId};

use crate::seat::{CallAnswer, GivenReply, Seat};
use wf_history::{Event, SeenEvent, SeenReply};

/// Whether each seat of the process took so many turns, and has the answers that the events show.
pub fn agree(process: usize, turns: u128, events: &[Event], seats: &[Seat]) -> bool
    ensures yes { IsTrue result → All (AgreesAt process turns (own_answers process (map event_of events.now))) seats.now }
    ensures no { IsFalse result → ¬ (All (AgreesAt process turns (own_answers process (map event_of events.now))) seats.now) }
{
    for seat in seats {
        if !agrees(process, turns, events, seat) {
            return false;
        }
    }
    true
}

/// Whether the seat, if it is of the process, took so many turns, and has the answers that the events show.
fn agrees(process: usize, turns: u128, events: &[Event], seat: &Seat) -> bool
    ensures yes { IsTrue result → AgreesAt process turns (own_answers process (map event_of events.now)) seat.now }
    ensures no { IsFalse result → ¬ (AgreesAt process turns (own_answers process (map event_of events.now)) seat.now) }
{
    if seat.process() != process {
        return true;
    }
    if seat.turns() != turns {
        return false;
    }
    are_shown(process, seat.answers(), events)
}

/// Whether these are the answers that the events show of the process.
pub fn are_shown(process: usize, answers: &[CallAnswer], events: &[Event]) -> bool
    ensures yes { IsTrue result → map answered_call answers.now ≡ own_answers process (map event_of events.now) }
    ensures no { IsFalse result → map answered_call answers.now ≢ own_answers process (map event_of events.now) }
{
    let mut rest = answers;
    for event in events {
        match behind(process, rest, event) {
            Some(others) => rest = others,
            None => return false,
        }
    }
    rest.is_empty()
}

/// The answers behind the one that the event shows of the process; none where that is not the first one.
fn behind<'a>(process: usize, answers: &'a [CallAnswer], event: &Event) -> Option<&'a [CallAnswer]>
    ensures some { IfSome result (λ others. map answered_call answers.now ≡ own_answer process (event_of event.now) ++ map answered_call others.now) }
    ensures none { IfNone result ((later : List (CallId × Reply)) → map answered_call answers.now ≢ own_answer process (event_of event.now) ++ later) }
{
    let SeenEvent::End(id, reply) = event.seen() else {
        return Some(answers);
    };
    if id.process != process {
        return Some(answers);
    }
    match answers.split_first() {
        Some((first, others)) if first.id == id && same_reply(&first.reply, reply) => Some(others),
        _ => None,
    }
}

/// Whether a seat's reply is the same as an event's.
fn same_reply(reply: &GivenReply, other: SeenReply) -> bool
    ensures { IsTrue result ↔ (given_reply reply.now ≡ seen_reply other.entry) }
{
    match (reply, other) {
        (GivenReply::Done(values), SeenReply::Done(others)) => {
            values.as_slice() == others.lent().as_slice()
        }
        (GivenReply::Trap(number), SeenReply::Trap(other)) => *number == other,
        _ => false,
    }
}
