//! Names of calls, and events.
//!
//! A history is mostly events, so an event is as small as the scalars of a call, which have 16 bytes, with 8 for its name, its
//! procedure and a tag. An event with a larger number is kept in memory of its own.

ghost use Rattle.std.specs.Prelude.{◌≡◌, ◌<◌, ◌^◌, IfSome, IsSome};
ghost use Rattle.wf_history.specs.Form.{long_id};

use crate::kept_scalars::KeptScalars;
use crate::seen_event::{SeenCall, SeenEvent, SeenReply};
use crate::wide_event::{AnyEvent, WideEvent};
use ob_interface::NoMemory;
use std::alloc::Global;
use std::marker::Model;
use std::{fmt, slice};

/// A call by its process and its number among the calls of that process, from 1.
#[derive(Clone, Copy, Debug, Default, PartialEq, Eq, Hash)]
pub struct CallId {
    pub process: usize,
    pub number: u64,
}

/// As `0.2` for the second call of process 0.
impl fmt::Display for CallId {
    fn fmt<W: fmt::Write>(&self, f: &mut fmt::Formatter<W>) -> fmt::Result {
        write!(f, "{}.{}", self.process, self.number)
    }
}

/// A call's name whose numbers are small.
#[derive(Clone, Copy)]
pub(crate) struct ShortId {
    process: u8,
    number: u32,
}

impl ShortId {
    /// The name in short, where its numbers are small.
    #[inline(always)]
    pub(crate) fn of(id: CallId) -> Option<ShortId>
        ensures same { IfSome result (λ short. long_id short ≡ id) }
        ensures small { id.process < 2 ^ 8 → id.number < 2 ^ 32 → IsSome result }
    {
        match (u8::try_from(id.process), u32::try_from(id.number)) {
            (Ok(process), Ok(number)) => Some(ShortId { process, number }),
            _ => None,
        }
    }
}

/// What is seen of a run. It takes memory of its own only where a process's number is above 255, a procedure's above
/// 65,535 or a call's above 4,294,967,295, or where none or several calls took effect, beside what its scalars take.
#[derive(Drop)]
pub struct Event {
    form: Form,
}

/// How it is kept. The fields stand so that no room is left between them.
#[derive(Drop)]
enum Form {
    Begin {
        process: u8,
        proc: u16,
        number: u32,
        args: KeptScalars,
    },
    AppliedOne(CallId),
    Done {
        process: u8,
        number: u32,
        values: KeptScalars,
    },
    Trapped {
        process: u8,
        trap: u8,
        number: u32,
    },
    Wide(WideEvent),
}

impl Model for Event {
    ghost use Rattle.wf_history.specs.Kept.{KeptEvent};

    ghost Value = { KeptEvent };

    ghost use Rattle.wf_history.specs.Form.{formed};

    ghost view = { λ e. formed e.form };
}

impl Event {
    ghost use Rattle.std.specs.Prelude.{◌∷◌, [], IfOk};
    ghost use Rattle.ob_interface.specs.Call.{Answers, Trapped};
    ghost use Rattle.wf_history.specs.Form.{any_event};
    ghost use Rattle.wf_history.specs.History.{Begin, Applied, End};
    ghost use Rattle.wf_history.specs.View.{event_of, seen_event};

    /// A process begins a call.
    #[inline(always)]
    pub(crate) fn begin(id: ShortId, proc: u16, args: KeptScalars) -> Event
        ensures { event_of result ≡ Begin (long_id id) (record { export = proc; arguments = args.items }) }
    {
        Event {
            form: Form::Begin {
                process: id.process,
                proc,
                number: id.number,
                args,
            },
        }
    }

    /// This call took effect.
    #[inline(always)]
    pub(crate) fn applied_one(id: CallId) -> Event
        ensures { event_of result ≡ Applied (id ∷ []) }
    {
        Event {
            form: Form::AppliedOne(id),
        }
    }

    /// A call ends with these values.
    #[inline(always)]
    pub(crate) fn done(id: ShortId, values: KeptScalars) -> Event
        ensures { event_of result ≡ End (long_id id) (Answers values.items) }
    {
        Event {
            form: Form::Done {
                process: id.process,
                number: id.number,
                values,
            },
        }
    }

    /// A call ends with this trap.
    #[inline(always)]
    pub(crate) fn trapped(id: ShortId, trap: u8) -> Event
        ensures { event_of result ≡ End (long_id id) (Trapped trap) }
    {
        Event {
            form: Form::Trapped {
                process: id.process,
                trap,
                number: id.number,
            },
        }
    }

    /// Any event, in memory of its own.
    pub(crate) fn wide(alloc: Global, event: AnyEvent) -> Result<Event, NoMemory>
        ensures { IfOk result (λ e. event_of e ≡ any_event event) }
    {
        Ok(Event {
            form: Form::Wide(WideEvent::new(alloc, event)?),
        })
    }

    /// The event, to be looked at.
    #[inline(always)]
    pub fn seen(&self) -> SeenEvent<'_>
        ensures { seen_event result ≡ event_of self.now }
    {
        match &self.form {
            Form::Begin {
                process,
                proc,
                number,
                args,
            } => {
                let proc = usize::from(*proc);
                SeenEvent::Begin(long(*process, *number), SeenCall { proc, args })
            }
            Form::AppliedOne(id) => SeenEvent::Applied(slice::from_ref(id)),
            Form::Done {
                process,
                number,
                values,
            } => SeenEvent::End(long(*process, *number), SeenReply::Done(values)),
            Form::Trapped {
                process,
                trap,
                number,
            } => SeenEvent::End(long(*process, *number), SeenReply::Trap(*trap)),
            Form::Wide(event) => event.seen(),
        }
    }
}

/// A name of small numbers.
#[inline(always)]
fn long(process: u8, number: u32) -> CallId
    ensures { result ≡ long_id (record { process = process; number = number }) }
{
    CallId {
        process: usize::from(process),
        number: u64::from(number),
    }
}

const _: () = prove!(size_of::<Event>() == 24);
