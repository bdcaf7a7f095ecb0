//! What the one who steps a process has in hand.

ghost use Rattle.std.specs.Prelude.{◌≡◌, ◌+◌, ◌-◌, ◌^◌, ◌<◌, ◌≤◌, [], ◌++◌, ◌∷◌, IfOk, OnOk, OnErr, length, map};
ghost use Rattle.ob_desk_floor.specs.Seat.{answered_call, given_reply};
ghost use Rattle.ob_interface.specs.View.{reply_of};
ghost use Rattle.smallvec.specs.SmallVec.{HasRoomFor};
ghost use Rattle.wf_object.specs.View.{answer_in, seen_in};
ghost use Rattle.wf_table.specs.Meaning.{values_in};

use ob_interface::NoMemory;
use ob_interface::call::Reply;
use ob_interface::scalar::Scalar;
use smallvec::SmallVec;
use std::alloc::{AllocError, Global};
use std::marker::Model;
use std::mem::replace;
use wf_history::CallId;
use wf_object::{Engine, Label, Machine, Seen, StepOut};

/// The most values that a reply has.
const MOST_VALUES: usize = 8;

/// A call that ended, with its reply.
#[derive(Drop)]
pub struct CallAnswer {
    pub id: CallId,
    pub reply: GivenReply,
}

/// A reply as a seat keeps it: up to 2 values stand in place, and more in room that was made for them.
#[derive(Drop)]
pub enum GivenReply {
    /// The final values of the VAR parameters, in text order.
    Done(SmallVec<Scalar, 2>),
    /// The number of a trap.
    Trap(u8),
}

/// A process's seat: the turns that it took, and the answers that it was given. The tag tells the seats of one desk from
/// those of another.
#[derive(Drop)]
pub struct Seat {
    alloc: Global,
    process: usize,
    tag: u64,
    turns: u128,
    answers: Vec<CallAnswer>,
    /// Room for the values of an answer that do not stand in place.
    spare: SmallVec<Scalar, 2>,
}

impl Model for Seat {
    ghost use Rattle.std.specs.Prelude.{map};
    ghost use Rattle.ob_desk_floor.specs.Seat as seat;

    ghost Value = { seat.Seat };

    ghost view = { λ s. record { process = s.process; tag = s.tag; turns = s.turns; answers = map seat.answered_call s.answers.items } };
}

impl Seat {
    ghost use Rattle.ob_desk_floor.specs.Floor.{machine_after};
    ghost use Rattle.ob_desk_floor.specs.Seat.{IsLastAnswer, answered_call, new_seat, seat_after};
    ghost use Rattle.wf_object.specs.View.{answer_in, seen_in};
    ghost use Rattle.wf_table.specs.Object as Steps;
    ghost use Rattle.wf_table.specs.Schedule.{steps_of};

    /// A seat without turns or answers.
    pub fn new(alloc: Global, process: usize, tag: u64) -> Seat
        ensures { result ≡ new_seat process tag }
    {
        Seat {
            alloc,
            process,
            tag,
            turns: 0,
            answers: Vec::new(alloc),
            spare: SmallVec::new(alloc),
        }
    }

    /// The process whose steps it takes, counted from 0.
    pub fn process(&self) -> usize
        ensures { result ≡ self.now.process }
    {
        self.process
    }

    /// The number that the seats of one desk have in common, and that tells them from those of another.
    pub fn tag(&self) -> u64
        ensures { result ≡ self.now.tag }
    {
        self.tag
    }

    /// How many steps it took so far, those that answered nothing among them.
    pub fn turns(&self) -> u128
        ensures { result ≡ self.now.turns }
    {
        self.turns
    }

    /// The answers that it was given so far, the first one first.
    pub fn answers(&self) -> &[CallAnswer]
        ensures { map answered_call result.now ≡ self.now.answers }
    {
        self.answers.as_slice()
    }

    /// One step of the seat's process; its answer, if there is one, is added to the seat's. Nothing changes where memory
    /// runs out.
    pub fn step<E: Engine>(&mut self, machine: &mut Machine<E>) -> Result<StepOut, NoMemory>
        requires process { self.old.process < machine.old.sizes.processes }
        requires room { self.old.turns < 2 ^ 128 - 1 }
        ensures machine { OnOk result (machine.new ≡ machine_after (E.meaning machine.old.engine) machine.old self.old.process) }
        ensures answer { IfOk result (λ out. answer_in out ≡ Steps.answer_of (E.meaning machine.old.engine) machine.old.sizes machine.old.state self.old.process) }
        ensures turn { OnOk result (steps_of machine.new.state.records.schedule ≡ steps_of machine.old.state.records.schedule ++ self.old.process ∷ []) }
        ensures seat { IfOk result (λ out. self.new ≡ seat_after (answer_in out) self.old) }
        ensures no_machine { OnErr result (machine.new ≡ machine.old) }
        ensures no_seat { OnErr result (self.new ≡ self.old) }
    {
        self.answers.try_reserve(1)?;
        make_room(&mut self.spare)?;
        let out = machine.step(self.process)?;
        self.turns += 1;
        if let StepOut::Answered(id, reply) = &out {
            let reply = kept(self.alloc, reply, &mut self.spare);
            self.answers.push_reserved(CallAnswer { id: *id, reply });
        }
        Ok(out)
    }

    /// One step of the seat's process, as `step` takes it, whose answer, if there is one, is found on the seat. No room for an
    /// answer is made where the step can have none.
    pub fn advance<E: Engine>(&mut self, machine: &mut Machine<E>) -> Result<Seen, NoMemory>
        requires process { self.old.process < machine.old.sizes.processes }
        requires room { self.old.turns < 2 ^ 128 - 1 }
        ensures machine { OnOk result (machine.new ≡ machine_after (E.meaning machine.old.engine) machine.old self.old.process) }
        ensures seen { IfOk result (λ seen. seen ≡ seen_in (Steps.answer_of (E.meaning machine.old.engine) machine.old.sizes machine.old.state self.old.process)) }
        ensures turn { OnOk result (steps_of machine.new.state.records.schedule ≡ steps_of machine.old.state.records.schedule ++ self.old.process ∷ []) }
        ensures seat { OnOk result (self.new ≡ seat_after (Steps.answer_of (E.meaning machine.old.engine) machine.old.sizes machine.old.state self.old.process) self.old) }
        ensures no_machine { OnErr result (machine.new ≡ machine.old) }
        ensures no_seat { OnErr result (self.new ≡ self.old) }
    {
        if machine.label(self.process) == Label::Give {
            return self.take_answer(machine);
        }
        let seen = machine.advance(self.process)?;
        self.turns += 1;
        Ok(seen)
    }

    /// A step that may answer.
    #[inline(never)]
    fn take_answer<E: Engine>(&mut self, machine: &mut Machine<E>) -> Result<Seen, NoMemory>
        requires process { self.old.process < machine.old.sizes.processes }
        requires room { self.old.turns < 2 ^ 128 - 1 }
        ensures machine { OnOk result (machine.new ≡ machine_after (E.meaning machine.old.engine) machine.old self.old.process) }
        ensures seen { IfOk result (λ seen. seen ≡ seen_in (Steps.answer_of (E.meaning machine.old.engine) machine.old.sizes machine.old.state self.old.process)) }
        ensures turn { OnOk result (steps_of machine.new.state.records.schedule ≡ steps_of machine.old.state.records.schedule ++ self.old.process ∷ []) }
        ensures seat { OnOk result (self.new ≡ seat_after (Steps.answer_of (E.meaning machine.old.engine) machine.old.sizes machine.old.state self.old.process) self.old) }
        ensures no_machine { OnErr result (machine.new ≡ machine.old) }
        ensures no_seat { OnErr result (self.new ≡ self.old) }
    {
        let out = self.step(machine)?;
        Ok(seen_of(&out))
    }

    /// A copy of the last answer; none where there is no answer yet.
    pub fn last_answer(&self) -> Result<Option<CallAnswer>, NoMemory>
        ensures { IfOk result (IsLastAnswer self.now.answers) }
    {
        match self.answers.as_slice().last() {
            Some(last) => Ok(Some(copied_answer(self.alloc, last)?)),
            None => Ok(None),
        }
    }

    /// A turn that found no process.
    pub fn pass(&mut self)
        requires { self.old.turns < 2 ^ 128 - 1 }
        ensures { self.new ≡ seat_after Steps.Halts self.old }
    {
        self.turns += 1;
    }
}

/// What a step showed, without its reply.
fn seen_of(out: &StepOut) -> Seen
    ensures { result ≡ seen_in (answer_in out.now) }
{
    match out {
        StepOut::On => Seen::On,
        StepOut::Began(_) => Seen::Began,
        StepOut::Answered(_, _) => Seen::Answered,
        StepOut::Halted => Seen::Halted,
    }
}

/// An equal answer.
fn copied_answer(alloc: Global, answer: &CallAnswer) -> Result<CallAnswer, NoMemory>
    ensures { IfOk result (λ a. answered_call a ≡ answered_call answer.now) }
{
    let reply = match &answer.reply {
        GivenReply::Done(values) => GivenReply::Done(copied(alloc, values.as_slice())?),
        GivenReply::Trap(number) => GivenReply::Trap(*number),
    };
    Ok(CallAnswer {
        id: answer.id,
        reply,
    })
}

/// Equal values, in place where there are few.
fn copied(alloc: Global, values: &[Scalar]) -> Result<SmallVec<Scalar, 2>, AllocError>
    ensures { IfOk result (λ v. v.items ≡ values.now) }
{
    if values.len() <= 2 {
        return Ok(in_place(alloc, values));
    }
    SmallVec::from_slice(alloc, values)
}

/// Makes room for the values of any reply.
fn make_room(spare: &mut SmallVec<Scalar, 2>) -> Result<(), AllocError>
    ensures empty { spare.new.items ≡ [] }
    ensures room { OnOk result (HasRoomFor spare.new 8) }
{
    spare.clear();
    spare.reserve(MOST_VALUES)
}

/// An equal reply, to be kept. At most 8 values stand in place or in the room that was made for them, so that no memory is taken.
fn kept(alloc: Global, reply: &Reply, spare: &mut SmallVec<Scalar, 2>) -> GivenReply
    requires few { length (values_in (reply_of reply.now)) ≤ 8 }
    requires empty { spare.old.items ≡ [] }
    requires room { HasRoomFor spare.old 8 }
    ensures { given_reply result ≡ reply_of reply.now }
{
    match reply {
        Reply::Done(values) => GivenReply::Done(kept_values(alloc, values.as_slice(), spare)),
        Reply::Trap(number) => GivenReply::Trap(*number),
    }
}

/// Equal values, in place where there are few, and else in the room.
fn kept_values(
    alloc: Global,
    values: &[Scalar],
    spare: &mut SmallVec<Scalar, 2>,
) -> SmallVec<Scalar, 2>
    requires few { length values.now ≤ 8 }
    requires empty { spare.old.items ≡ [] }
    requires room { HasRoomFor spare.old 8 }
    ensures { result.items ≡ values.now }
{
    if values.len() <= 2 {
        return in_place(alloc, values);
    }
    if spare.extend_from_slice(values).is_err() {
        unreachable!();
    }
    replace(spare, SmallVec::new(alloc))
}

/// Equal values, in place.
fn in_place(alloc: Global, values: &[Scalar]) -> SmallVec<Scalar, 2>
    requires { length values.now ≤ 2 }
    ensures { result.items ≡ values.now }
{
    let mut kept = SmallVec::new(alloc);
    for value in values {
        kept.push_reserved(*value);
    }
    kept
}
