//! The calls of each process, by the names that a text has for processes.

ghost use Rattle.std.specs.Prelude.{◌≡◌, ◌↔◌, [], ◌∷◌, ◌++◌, ◌==◌, length, map, IfOk, IsTrue, MatchOption};
ghost use Rattle.std.specs.List.{position};
ghost use Rattle.ob_interface.specs.Call as Object;
ghost use Rattle.ob_interface.specs.View.{signature_of};
ghost use Rattle.ob_text_reading.specs.LineReading.{TakesLine, TakesOrLeaves};
ghost use Rattle.ob_text_reading.specs.Names.{AreApart, AreBelow, HaveBegun, HasNoPlace, IsPlaceOf, MayCome, MayEnd, events_of};
ghost use Rattle.ob_text_reading.specs.Reading.{GoesOn};
ghost use Rattle.wf_history.specs.History.{Begin, End, IsHistory};
ghost use Rattle.wf_history.specs.View.{kept_call, kept_reply};

use crate::event::PROCESS_NUMBERS;
use crate::process_calls::Calls;
use crate::written_lines::{take_begin, take_end};
use indexmap::IndexSet;
use ob_interface::NoMemory;
use ob_interface::export::Export;
use ob_text_values_reading::text_beginning::{behind_ids, front_of};
use std::alloc::{AllocError, Global};
use std::marker::Model;
use wf_history::{CallId, History, KeptCall, KeptReply};

/// The most different processes of a history.
const MOST_DIFFERENT: usize = 1000;

/// The events so far, in which processes have numbers from 0 on, and the name of each of them.
#[derive(Drop)]
pub(crate) struct NamedCalls {
    names: IndexSet<usize>,
    calls: Calls,
}

impl Model for NamedCalls {
    ghost use Rattle.std.specs.Prelude.{◌≡◌};
    ghost use Rattle.ob_text_reading.specs.HistoryLines.{most_different};
    ghost use Rattle.ob_text_reading.specs.Names.{AreNamed, Naming};

    ghost Value = { Naming };

    ghost view = { λ c. record { names = c.names.keys; numbered = c.calls.events } };

    ghost invariant = { λ c. AreNamed (record { names = c.names.keys; numbered = c.calls.events }) × (c.calls.processes ≡ most_different) };
}

impl NamedCalls {
    /// No events yet.
    pub(crate) fn new(alloc: Global) -> Result<NamedCalls, AllocError>
        ensures { IfOk result (λ c. events_of c ≡ []) }
    {
        Ok(NamedCalls {
            names: IndexSet::new(alloc),
            calls: Calls::new(alloc, MOST_DIFFERENT)?,
        })
    }

    /// The number that a process has, or gets where it is new; `None` where there are too many already.
    fn place_of(&self, process: usize) -> Option<usize>
        ensures { MatchOption result (HasNoPlace self.now.names process) (λ place. IsPlaceOf self.now.names process place) }
    {
        if let Some(place) = self.place_known(process) {
            return Some(place);
        }
        let place = self.count();
        if place >= MOST_DIFFERENT {
            return None;
        }
        Some(place)
    }

    /// How many processes have begun a call.
    fn count(&self) -> usize
        ensures { result ≡ length self.now.names }
    {
        self.names.len()
    }

    /// The number that a process has.
    fn place_known(&self, process: usize) -> Option<usize>
        ensures { result ≡ position (λ name. process == name) self.now.names }
    {
        self.names.get_index_of(&process)
    }

    /// Whether a call of this name may begin next.
    pub(crate) fn may_begin(&self, id: CallId) -> bool
        ensures { (call : Object.ObjectCall) → IsTrue result ↔ MayCome (events_of self.now) (Begin id call) }
    {
        match self.place_of(id.process) {
            Some(process) => self.calls.may_begin(CallId {
                process,
                number: id.number,
            }),
            None => false,
        }
    }

    /// The export of the call of this name, where it may end next.
    pub(crate) fn export_to_end(&self, id: CallId) -> Option<usize>
        ensures { MatchOption result
            ((reply : Object.Reply) → IsHistory (events_of self.now ++ End id reply ∷ []) → ⊥)
            (λ export. MayEnd (events_of self.now) id export) }
    {
        let calls = &self.calls;
        let Some(process) = self.place_known(id.process) else {
            return None;
        };
        calls.export_to_end(CallId {
            process,
            number: id.number,
        })
    }

    /// The call begins.
    pub(crate) fn begin(self, id: CallId, call: KeptCall) -> Result<NamedCalls, NoMemory>
        requires { MayCome (events_of self) (Begin id (kept_call call)) }
        ensures { IfOk result (λ c. events_of c ≡ events_of self ++ Begin id (kept_call call) ∷ []) }
    {
        let mut names = self.names;
        let mut calls = self.calls;
        let (process, _is_new) = names.insert_full(id.process)?;
        let number = id.number;
        calls.begin(CallId { process, number }, call)?;
        Ok(NamedCalls { names, calls })
    }

    /// The call ends.
    pub(crate) fn end(self, id: CallId, reply: KeptReply) -> Result<NamedCalls, NoMemory>
        requires { IsHistory (events_of self ++ End id (kept_reply reply) ∷ []) }
        ensures { IfOk result (λ c. events_of c ≡ events_of self ++ End id (kept_reply reply) ∷ []) }
    {
        let Some(process) = self.place_known(id.process) else {
            return Ok(self);
        };
        let names = self.names;
        let mut calls = self.calls;
        let number = id.number;
        calls.end(CallId { process, number }, reply)?;
        Ok(NamedCalls { names, calls })
    }

    /// Takes up the line that a text begins with, where it is one of an event of a process that has begun a call, or of applied calls,
    /// as runs write them, and gives the text behind it. `None` says nothing of the line, and nothing is taken up.
    #[inline(always)]
    pub(crate) fn take_written<'a>(
        &mut self,
        alloc: Global,
        exports: &[Export],
        text: &'a [u8],
    ) -> Result<Option<&'a [u8]>, NoMemory>
        ensures { IfOk result (TakesOrLeaves (events_of self.old) (events_of self.new)
            (TakesLine (GoesOn (map signature_of exports.now) (events_of self.old)) text.now)) }
    {
        let Some((kind, id, behind)) = front_of(PROCESS_NUMBERS, text) else {
            return Ok(None);
        };
        let Some((ender, rest)) = behind.split_first() else {
            return Ok(None);
        };
        match (kind, *ender) {
            (b'A', b'\n') => return Ok(Some(rest)),
            (b'A', b' ') => return Ok(behind_ids(PROCESS_NUMBERS, rest)),
            _ => {}
        }
        let Some(process) = self.place_known(id.process) else {
            return Ok(None);
        };
        let number = id.number;
        let placed = CallId { process, number };
        match (kind, *ender) {
            (b'B', b' ') => take_begin(alloc, exports, &mut self.calls, placed, rest),
            (b'E', b' ') => take_end(alloc, exports, &mut self.calls, placed, rest),
            _ => Ok(None),
        }
    }

    /// The names of the processes, and their events by numbers.
    pub(crate) fn into_parts(self, alloc: Global) -> Result<(Vec<usize>, History), AllocError>
        ensures parts { IfOk result (λ p. (p.0.items ≡ self.names) × (p.1 ≡ self.numbered)) }
        ensures apart { IfOk result (λ p. AreApart p.0.items) }
        ensures below { IfOk result (λ p. AreBelow (length p.0.items) p.1) }
        ensures begun { IfOk result (λ p. HaveBegun p.0.items p.1) }
    {
        let names = self.names.as_slice().to_vec(alloc)?;
        Ok((names, self.calls.into_history()))
    }
}
