//! Events that are kept in memory of their own, since few are so large.

ghost use Rattle.std.specs.Prelude.{◌≡◌, IfOk};
ghost use Rattle.wf_history.specs.Form.{any_event};
ghost use Rattle.wf_history.specs.View.{seen_event};

use crate::event::CallId;
use crate::kept::{KeptCall, KeptReply};
use crate::seen_event::{SeenCall, SeenEvent, SeenReply};
use ob_interface::NoMemory;
use smallvec::SmallVec;
use std::alloc::Global;

/// An event with numbers of any size.
#[derive(Drop)]
pub(crate) enum AnyEvent {
    Begin(CallId, KeptCall),
    Applied(SmallVec<CallId, 1>),
    End(CallId, KeptReply),
}

/// An event in memory of its own.
pub(crate) struct WideEvent {
    event: Box<AnyEvent>,
}

impl Drop for WideEvent {
    /// Not inlined, since few events are such, and all are dropped.
    #[inline(never)]
    fn drop(self) {
        let WideEvent { event } = self;
        drop(event);
    }
}

impl WideEvent {
    #[inline(never)]
    pub(crate) fn new(alloc: Global, event: AnyEvent) -> Result<WideEvent, NoMemory>
        ensures { IfOk result (λ wide. wide.event.value ≡ event) }
    {
        Ok(WideEvent {
            event: Box::new(alloc, event)?,
        })
    }

    /// The event, to be looked at.
    #[inline(never)]
    pub(crate) fn seen(&self) -> SeenEvent<'_>
        ensures { seen_event result ≡ any_event self.now.event.value }
    {
        match &*self.event {
            AnyEvent::Begin(id, call) => SeenEvent::Begin(
                *id,
                SeenCall {
                    proc: call.proc,
                    args: &call.args,
                },
            ),
            AnyEvent::Applied(ids) => SeenEvent::Applied(ids.as_slice()),
            AnyEvent::End(id, KeptReply::Done(values)) => {
                SeenEvent::End(*id, SeenReply::Done(values))
            }
            AnyEvent::End(id, KeptReply::Trap(number)) => {
                SeenEvent::End(*id, SeenReply::Trap(*number))
            }
        }
    }
}
