//! Histories: the events of calls, in the order in which they were seen.

ghost use Rattle.std.specs.Prelude.{◌≡◌, ◌++◌, ◌∷◌, [], OnOk, OnErr, map, length};
ghost use Rattle.wf_history.specs.Form.{any_event};
ghost use Rattle.wf_history.specs.View.{event_of, kept_call, kept_reply};
ghost use Rattle.wf_history.specs.History.{IsHistory, Begin, Applied, End};

use crate::event::{CallId, Event, ShortId};
use crate::kept::{KeptCall, KeptReply};
use crate::wide_event::AnyEvent;
use ob_interface::NoMemory;
use smallvec::SmallVec;
use std::alloc::Global;
use std::marker::Model;

/// Events in which the Begin and End events of each process are those of its calls 1, 1, 2, 2 and
/// so on.
#[derive(Drop)]
pub struct History {
    events: Vec<Event>,
}

impl Model for History {
    ghost use Rattle.std.specs.Prelude.{List, map};
    ghost use Rattle.ob_interface.specs.Call.{ObjectCall, Reply};
    ghost use Rattle.wf_history.specs.History.{Event, IsHistory};
    ghost use Rattle.wf_history.specs.View.{event_of};

    ghost Value = { List (Event ObjectCall Reply) };

    ghost view = { λ h. map event_of h.events.items };

    ghost invariant = { λ h. IsHistory (map event_of h.events.items) };
}

impl History {
    /// The history without events; it takes no memory yet.
    pub fn new(alloc: Global) -> History
        ensures { result ≡ [] }
    {
        History {
            events: Vec::new(alloc),
        }
    }

    /// A process begins a call. Nothing changes where memory runs out.
    #[inline(always)]
    pub fn push_begin(&mut self, id: CallId, call: KeptCall) -> Result<(), NoMemory>
        requires { IsHistory (self.old ++ Begin id (kept_call call) ∷ []) }
        ensures ok { OnOk result (self.new ≡ self.old ++ Begin id (kept_call call) ∷ []) }
        ensures err { OnErr result (self.new ≡ self.old) }
    {
        match (ShortId::of(id), u16::try_from(call.proc)) {
            (Some(short), Ok(proc)) => self.push(Event::begin(short, proc, call.args)),
            _ => self.push_wide(AnyEvent::Begin(id, call)),
        }
    }

    /// These calls took effect, in this order. Nothing changes where memory runs out.
    #[inline(always)]
    pub fn push_applied(&mut self, ids: SmallVec<CallId, 1>) -> Result<(), NoMemory>
        requires { IsHistory (self.old ++ Applied ids.items ∷ []) }
        ensures ok { OnOk result (self.new ≡ self.old ++ Applied ids.items ∷ []) }
        ensures err { OnErr result (self.new ≡ self.old) }
    {
        match ids.as_slice() {
            [id] => self.push(Event::applied_one(*id)),
            _ => self.push_wide(AnyEvent::Applied(ids)),
        }
    }

    /// A call ends with its reply. Nothing changes where memory runs out.
    #[inline(always)]
    pub fn push_end(&mut self, id: CallId, reply: KeptReply) -> Result<(), NoMemory>
        requires { IsHistory (self.old ++ End id (kept_reply reply) ∷ []) }
        ensures ok { OnOk result (self.new ≡ self.old ++ End id (kept_reply reply) ∷ []) }
        ensures err { OnErr result (self.new ≡ self.old) }
    {
        let Some(short) = ShortId::of(id) else {
            return self.push_wide(AnyEvent::End(id, reply));
        };
        match reply {
            KeptReply::Done(values) => self.push(Event::done(short, values)),
            KeptReply::Trap(number) => self.push(Event::trapped(short, number)),
        }
    }

    /// One more event, which is its process's next one where it is a Begin or an End.
    #[inline(always)]
    fn push(&mut self, event: Event) -> Result<(), NoMemory>
        requires { IsHistory (self.old ++ event_of event ∷ []) }
        ensures ok { OnOk result (self.new ≡ self.old ++ event_of event ∷ []) }
        ensures err { OnErr result (self.new ≡ self.old) }
    {
        self.events.try_reserve(1)?;
        self.events.push_reserved(event);
        Ok(())
    }

    /// One more event, in memory of its own.
    #[cold]
    #[inline(never)]
    fn push_wide(&mut self, event: AnyEvent) -> Result<(), NoMemory>
        requires { IsHistory (self.old ++ any_event event ∷ []) }
        ensures ok { OnOk result (self.new ≡ self.old ++ any_event event ∷ []) }
        ensures err { OnErr result (self.new ≡ self.old) }
    {
        let event = Event::wide(*self.events.allocator(), event)?;
        self.push(event)
    }

    /// The events, in order.
    pub fn events(&self) -> &[Event]
        ensures value { map event_of result.now ≡ self.now }
        ensures in_turn { IsHistory self.now }
    {
        self.events.as_slice()
    }

    /// The number of events.
    pub fn len(&self) -> usize
        ensures { result ≡ length self.now }
    {
        self.events.len()
    }
}
