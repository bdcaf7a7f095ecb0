//! The calls of each process, as the events so far show them.

ghost use Rattle.std.specs.Prelude.{◌≡◌, ◌↔◌, ◌<◌, ◌+◌, [], ◌∷◌, ◌++◌, length, OnErr, OnOk, IfOk, IsTrue, MatchOption};
ghost use Rattle.ob_interface.specs.Call as Object;
ghost use Rattle.ob_text_reading.specs.Seats.{EndsCall};
ghost use Rattle.wf_history.specs.History.{Begin, End, IsHistory};
ghost use Rattle.wf_history.specs.View.{kept_call, kept_reply};

use ob_interface::NoMemory;
use std::alloc::{AllocError, Global};
use std::marker::Model;
use wf_history::{CallId, History, KeptCall, KeptReply};

/// Where a process stands in its calls.
#[derive(Clone, Copy)]
pub(crate) struct Seat {
    /// How many calls it has begun.
    begun: u64,
    /// The export of the call that has begun and not ended.
    pending: Option<usize>,
}

/// The events so far, and where each process stands.
#[derive(Drop)]
pub struct Calls {
    seats: Vec<Seat>,
    history: History,
}

impl Model for Calls {
    ghost use Rattle.std.specs.Prelude.{length};
    ghost use Rattle.ob_text_reading.specs.Seats.{AreSeats, Seen};

    ghost Value = { Seen };

    ghost view = { λ c. record { processes = length c.seats.items; events = c.history } };

    ghost invariant = { λ c. AreSeats c.history c.seats.items };
}

impl Calls {
    /// No events yet.
    pub fn new(alloc: Global, processes: usize) -> Result<Calls, AllocError>
        ensures { IfOk result (λ c. (c.processes ≡ processes) × (c.events ≡ [])) }
    {
        let seat = Seat {
            begun: 0,
            pending: None,
        };
        Ok(Calls {
            seats: vec![in alloc; seat; processes]?,
            history: History::new(alloc),
        })
    }

    /// How many processes there are.
    pub fn processes(&self) -> usize
        ensures { result ≡ self.now.processes }
    {
        self.seats.len()
    }

    /// Whether a call of this name may begin next.
    pub fn may_begin(&self, id: CallId) -> bool
        requires { id.process < self.now.processes }
        ensures { (call : Object.ObjectCall) → IsTrue result ↔ IsHistory (self.now.events ++ Begin id call ∷ []) }
    {
        let seat = self.seats[id.process];
        match seat.pending {
            Some(_) => false,
            None => is_after(id.number, seat.begun),
        }
    }

    /// The export of the call of this name, where it may end next.
    pub fn export_to_end(&self, id: CallId) -> Option<usize>
        requires { id.process < self.now.processes }
        ensures { MatchOption result
            ((reply : Object.Reply) → IsHistory (self.now.events ++ End id reply ∷ []) → ⊥)
            (λ export. EndsCall self.now.events id export) }
    {
        let seat = self.seats[id.process];
        if seat.begun == id.number {
            seat.pending
        } else {
            None
        }
    }

    /// The call begins. Nothing changes where memory runs out.
    #[inline(always)]
    pub fn begin(&mut self, id: CallId, call: KeptCall) -> Result<(), NoMemory>
        requires below { id.process < self.old.processes }
        requires next { IsHistory (self.old.events ++ Begin id (kept_call call) ∷ []) }
        ensures ok { OnOk result (self.new.events ≡ self.old.events ++ Begin id (kept_call call) ∷ []) }
        ensures err { OnErr result (self.new.events ≡ self.old.events) }
        ensures processes { self.new.processes ≡ self.old.processes }
    {
        let proc = call.proc;
        self.history.push_begin(id, call)?;
        self.seats[id.process] = Seat {
            begun: id.number,
            pending: Some(proc),
        };
        Ok(())
    }

    /// The call ends. Nothing changes where memory runs out.
    #[inline(always)]
    pub fn end(&mut self, id: CallId, reply: KeptReply) -> Result<(), NoMemory>
        requires below { id.process < self.old.processes }
        requires next { IsHistory (self.old.events ++ End id (kept_reply reply) ∷ []) }
        ensures ok { OnOk result (self.new.events ≡ self.old.events ++ End id (kept_reply reply) ∷ []) }
        ensures err { OnErr result (self.new.events ≡ self.old.events) }
        ensures processes { self.new.processes ≡ self.old.processes }
    {
        self.history.push_end(id, reply)?;
        self.seats[id.process] = Seat {
            begun: id.number,
            pending: None,
        };
        Ok(())
    }

    /// The events.
    pub fn into_history(self) -> History
        ensures { result ≡ self.events }
    {
        self.history
    }
}

/// Whether a number is the one behind another.
fn is_after(number: u64, other: u64) -> bool
    ensures { IsTrue result ↔ (number ≡ other + 1) }
{
    number > other && number - other == 1
}
