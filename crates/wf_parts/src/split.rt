//! A history that is taken apart, an event after the other.

ghost use Rattle.std.specs.Prelude.{◌≡◌, ◌∷◌, ◌++◌, [], Some, ℕ, OnOk, IfOk, nat_eq, slice_get, slice_set};
ghost use Rattle.std.specs.HashMap as hash;
ghost use Rattle.wf_history.specs.History.{Begin, End, IsHistory};
ghost use Rattle.wf_history.specs.View.{kept_call, kept_reply, seen_call, seen_reply};
ghost use Rattle.wf_parts.specs.Numbering.{PartView};
ghost use Rattle.wf_parts.specs.Split.{Begins, Ends, last_id, next_id, with_entry};
ghost use Rattle.wf_parts.specs.View.{parts_in};

use crate::copying::{kept_call, kept_reply};
use crate::part::Part;
use crate::scalar_number::label_of;
use ob_interface::NoMemory;
use ob_interface::scalar::Scalar;
use std::alloc::Global;
use std::collections::HashMap;
use wf_history::{CallId, KeptCall, KeptReply, SeenCall, SeenReply};

/// The parts so far.
#[derive(Drop)]
pub(crate) struct Split {
    /// At which place the part of a value stands, by the value's number.
    places: HashMap<usize, usize>,
    /// At which place the part of the call stands that a process began last.
    last: HashMap<usize, usize>,
    pub parts: Vec<Part>,
}

/// One more entry.
fn insert(entries: &mut HashMap<usize, usize>, key: usize, value: usize) -> Result<(), NoMemory>
    ensures { OnOk result ((q : ℕ) → hash.get nat_eq entries.new q ≡ with_entry (hash.get nat_eq entries.old) key value q) }
{
    entries.insert(key, value)?;
    Ok(())
}

/// What is looked up.
fn look_up(entries: &HashMap<usize, usize>, key: usize) -> Option<usize>
    ensures { result ≡ hash.get nat_eq entries.now key }
{
    entries.get(&key).copied()
}

/// The call begins in the part at a place.
fn begin_at(parts: &mut Vec<Part>, place: usize, id: CallId, call: KeptCall) -> Result<(), NoMemory>
    requires { (p : PartView) × (slice_get (parts_in parts.old.items) place ≡ Some p) × IsHistory (p.events ++ Begin (next_id p.rows id.process) (kept_call call) ∷ []) }
    ensures { (p : PartView) → slice_get (parts_in parts.old.items) place ≡ Some p
        → OnOk result ((q : PartView) × Begins p id (kept_call call) q × (parts_in parts.new.items ≡ slice_set (parts_in parts.old.items) place q)) }
{
    parts[place].begin(id, call)
}

/// The last call of its process ends in the part at a place.
fn end_at(parts: &mut Vec<Part>, place: usize, id: CallId, reply: KeptReply) -> Result<(), NoMemory>
    requires { (p : PartView) × (slice_get (parts_in parts.old.items) place ≡ Some p) × IsHistory (p.events ++ End (last_id p.rows id.process) (kept_reply reply) ∷ []) }
    ensures { (p : PartView) → slice_get (parts_in parts.old.items) place ≡ Some p
        → OnOk result ((q : PartView) × Ends p id (kept_reply reply) q × (parts_in parts.new.items ≡ slice_set (parts_in parts.old.items) place q)) }
{
    parts[place].end(id, reply)
}

impl Split {
    ghost use Rattle.std.specs.Prelude.{◌≡◌, ◌∷◌, ◌++◌, [], None, Some, ℕ, OnOk, IfOk};
    ghost use Rattle.wf_history.specs.History.{Begin, End};
    ghost use Rattle.wf_history.specs.View.{seen_call, seen_reply};
    ghost use Rattle.wf_parts.specs.Parts.{Events, argument_at};
    ghost use Rattle.wf_parts.specs.Split.{AreSplit, IsNext, IsPlaced};
    ghost use Rattle.wf_parts.specs.SplitView.{split_in};

    /// Of no events.
    pub(crate) fn new(alloc: Global) -> Split
        ensures places { (q : ℕ) → (split_in result).places q ≡ None }
        ensures parts { (split_in result).parts ≡ [] }
    {
        Split {
            places: HashMap::new(alloc),
            last: HashMap::new(alloc),
            parts: Vec::new(alloc),
        }
    }

    /// The place of the part of a value, which is added where there is none yet.
    fn place_of(&mut self, alloc: Global, value: Scalar) -> Result<usize, NoMemory>
        ensures { IfOk result (λ place. IsPlaced (split_in self.old) (split_in self.new) value place) }
    {
        let label = label_of(value);
        if let Some(place) = look_up(&self.places, label) {
            return Ok(place);
        }
        let place = self.parts.len();
        self.parts.push(Part::new(alloc, value))?;
        insert(&mut self.places, label, place)?;
        Ok(place)
    }

    /// A call begins, whose argument is this value.
    pub(crate) fn begin(
        &mut self,
        alloc: Global,
        id: CallId,
        call: SeenCall,
        value: Scalar,
    ) -> Result<(), NoMemory>
        requires { (all front : Events) × (by : ℕ) × AreSplit all by front (split_in self.old) × IsNext all front (Begin id (seen_call call))
            × (argument_at by (seen_call call) ≡ Some value) }
        ensures { (all front : Events) (by : ℕ) → AreSplit all by front (split_in self.old) → IsNext all front (Begin id (seen_call call.entry))
            → argument_at by (seen_call call.entry) ≡ Some value
            → OnOk result (AreSplit all by (front ++ Begin id (seen_call call.entry) ∷ []) (split_in self.new)) }
    {
        let place = self.place_of(alloc, value)?;
        let kept = kept_call(alloc, call)?;
        begin_at(&mut self.parts, place, id, kept)?;
        insert(&mut self.last, id.process, place)?;
        Ok(())
    }

    /// A call ends.
    pub(crate) fn end(
        &mut self,
        alloc: Global,
        id: CallId,
        reply: SeenReply,
    ) -> Result<(), NoMemory>
        requires { (all front : Events) × (by : ℕ) × AreSplit all by front (split_in self.old) × IsNext all front (End id (seen_reply reply)) }
        ensures { (all front : Events) (by : ℕ) → AreSplit all by front (split_in self.old) → IsNext all front (End id (seen_reply reply.entry))
            → OnOk result (AreSplit all by (front ++ End id (seen_reply reply.entry) ∷ []) (split_in self.new)) }
    {
        let Some(place) = look_up(&self.last, id.process) else {
            unreachable!();
        };
        let kept = kept_reply(alloc, reply)?;
        end_at(&mut self.parts, place, id, kept)
    }
}
