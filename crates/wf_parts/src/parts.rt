//! The parts of a history.

ghost use Rattle.std.specs.Prelude.{◌≡◌, ◌++◌, ◌∷◌, [], IfErr, IfOk, OnOk};
ghost use Rattle.wf_history.specs.View.{event_of, seen_call};
ghost use Rattle.wf_parts.specs.Numbering.{ArePartsOf};
ghost use Rattle.wf_parts.specs.Faults.{IsPartsFault};
ghost use Rattle.wf_parts.specs.Parts.{Events, argument_at};
ghost use Rattle.wf_parts.specs.Split.{AreSplit, IsNext};
ghost use Rattle.wf_parts.specs.SplitView.{split_in};
ghost use Rattle.wf_parts.specs.View.{parts_in};

use crate::part::Part;
use crate::split::Split;
use ob_interface::NoMemory;
use ob_interface::scalar::Scalar;
use std::alloc::Global;
use thiserror::Error;
use wf_history::{CallId, Event, History, SeenCall, SeenEvent};

/// Why there are no parts.
#[derive(Clone, Copy, Debug, Error)]
pub enum PartsFault {
    /// This call has no such argument.
    #[error("{0}")]
    Short(CallId),
    /// Want of memory.
    #[error("NoMemory")]
    NoMemory,
}

impl From<NoMemory> for PartsFault {
    ghost use Rattle.std.specs.Prelude.{◌≡◌};
    ghost use Rattle.wf_parts.specs.declared.parts.PartsFault.TheVariants as Faults;

    ghost from_gives = { λ _ e. e ≡ Faults.NoMemory };

    fn from(_: NoMemory) -> PartsFault {
        PartsFault::NoMemory
    }
}

/// The argument of a call at a place, which counts from 1.
fn argument_at(by: usize, call: SeenCall) -> Option<Scalar>
    ensures { result ≡ argument_at by (seen_call call.entry) }
{
    let place = by.checked_sub(1)?;
    call.args.lent().as_slice().get(place).copied()
}

/// One more event.
fn take_up(split: &mut Split, alloc: Global, event: &Event, by: usize) -> Result<(), PartsFault>
    requires { (all front : Events) × AreSplit all by front (split_in split.old) × IsNext all front (event_of event.now) }
    ensures split { (all front : Events) → AreSplit all by front (split_in split.old) → IsNext all front (event_of event.now)
        → OnOk result (AreSplit all by (front ++ event_of event.now ∷ []) (split_in split.new)) }
    ensures fault { (all front : Events) → AreSplit all by front (split_in split.old) → IsNext all front (event_of event.now) → IfErr result (IsPartsFault all by) }
{
    match event.seen() {
        SeenEvent::Begin(id, call) => {
            let Some(value) = argument_at(by, call) else {
                return Err(PartsFault::Short(id));
            };
            split.begin(alloc, id, call, value)?;
        }
        SeenEvent::Applied(_) => {}
        SeenEvent::End(id, reply) => split.end(alloc, id, reply)?,
    }
    Ok(())
}

/// The calls of each value of an argument apart, of which the places count from 1, in the order in which the values first come.
pub fn parts_of(alloc: Global, history: &History, by: usize) -> Result<Vec<Part>, PartsFault>
    ensures parts { IfOk result (λ parts. ArePartsOf history.now by (parts_in parts.items)) }
    ensures fault { IfErr result (IsPartsFault history.now by) }
{
    let mut split = Split::new(alloc);
    let events = history.events();
    for event in events {
        take_up(&mut split, alloc, event, by)?;
    }
    Ok(split.parts)
}
