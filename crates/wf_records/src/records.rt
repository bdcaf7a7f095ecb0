//! What was seen, in which order calls were applied, and who stepped.

ghost use Rattle.std.specs.Prelude.{◌≡◌, ◌+◌, ◌<◌, ◌≤◌, ◌^◌, ◌++◌, ◌∷◌, []};
ghost use Rattle.std.specs.Prelude.{Some, None, OnOk, OnErr, IfOk, IsOk, length, vec_len, vec_capacity, slice_set, if◌then◌else◌};
ghost use Rattle.wf_history.specs.View.{kept_call, kept_reply};
ghost use Rattle.wf_history.specs.History.{IsHistory, Begin, Applied, End};
ghost use Rattle.wf_table.specs.Schedule.{counted};
ghost use Rattle.wf_table.specs.Labels.{at_flip};
ghost use Rattle.wf_records.specs.Times.{counted_times, room_for};
ghost use Rattle.wf_table.specs.declared.process.Label.TheVariants as At;

use ob_interface::NoMemory;
use ob_interface::call::Reply;
use smallvec::SmallVec;
use std::alloc::Global;
use std::marker::Model;
use wf_history::{CallId, History, KeptCall, KeptReply};
use wf_table::{Label, Turns};

/// What a step answers.
#[derive(Drop)]
pub enum StepOut {
    /// The process goes on.
    On,
    /// The process began its next call.
    Began(CallId),
    /// The process's call ended with this reply.
    Answered(CallId, Reply),
    /// The process has no call left: nothing changed but the schedule.
    Halted,
}

/// What a step shows, without what it answers.
#[derive(Clone, Copy, PartialEq, Eq)]
pub enum Seen {
    /// The process goes on.
    On,
    /// The process began its next call.
    Began,
    /// The process's call ended.
    Answered,
    /// The process has no call left: nothing changed but the schedule.
    Halted,
}

/// What was seen, in which order calls were applied, and who stepped; and of the history's lengths
/// those at each process's last FLIP, and for each block that behind the event that last made it the root.
#[derive(Drop)]
pub struct Records {
    history: History,
    order: Vec<CallId>,
    schedule: Vec<Turns>,
    flip_marks: Vec<usize>,
    root_marks: Vec<usize>,
}

impl Model for Records {
    ghost use Rattle.wf_table.specs.Object as object;

    ghost Value = { object.Records };

    ghost view = { λ r. record { history = r.history; order = r.order.items; schedule = r.schedule.items; flip_marks = r.flip_marks.items; root_marks = r.root_marks.items } };
}

impl Records {
    ghost use Rattle.wf_table.specs.Object.{noted};
    ghost use Rattle.wf_table.specs.Start.{records_at_start};

    /// The records of n processes before any step.
    pub fn new(alloc: Global, n: usize) -> Result<Self, NoMemory>
        requires { n < 2 ^ 60 }
        ensures { IfOk result (λ r. r ≡ records_at_start n) }
    {
        Ok(Records {
            history: History::new(alloc),
            order: Vec::new(alloc),
            schedule: Vec::new(alloc),
            flip_marks: vec![in alloc; 0; n]?,
            root_marks: vec![in alloc; 0; n + 1]?,
        })
    }

    /// One more step of process p, at the label, which shows nothing. Nothing changes where memory runs out.
    #[inline(always)]
    pub fn note_quiet(&mut self, p: usize, label: Label) -> Result<(), NoMemory>
        requires { p < length self.old.flip_marks }
        ensures ok { OnOk result (self.new ≡ noted self.old p label 0 None) }
        ensures err { OnErr result (self.new ≡ self.old) }
    {
        count_turn(&mut self.schedule, p)?;
        note_flip(&mut self.flip_marks, p, label, self.history.len());
        Ok(())
    }

    /// A number of turns of process p for which the last run of turns has room, at most so many: none where it is another's.
    pub fn room(&self, p: usize, most: u64) -> u64
        ensures few { result ≤ most }
        ensures room { result ≤ room_for self.now.schedule p }
    {
        room_in(&self.schedule, p, most)
    }

    /// So many more steps of process p that show nothing, for which the last run of turns has room; none of them is a FLIP.
    pub fn count_more(&mut self, p: usize, count: u64)
        requires { count ≤ room_for self.old.schedule p }
        ensures { self.new ≡ record self.old { schedule = counted_times self.old.schedule p count } }
    {
        count_turns(&mut self.schedule, p, count);
    }

    /// Process p begins a call. Nothing changes where memory runs out.
    #[inline(always)]
    pub fn note_begin(&mut self, p: usize, id: CallId, call: KeptCall) -> Result<(), NoMemory>
        requires { IsHistory (self.old.history ++ Begin id (kept_call call) ∷ []) }
        ensures ok { OnOk result (self.new ≡ noted self.old p At.Next 0 (Some (Begin id (kept_call call)))) }
        ensures err { OnErr result (self.new ≡ self.old) }
    {
        self.schedule.try_reserve(1)?;
        self.history.push_begin(id, call)?;
        count_reserved(&mut self.schedule, p);
        Ok(())
    }

    /// Process p makes its block the root, and these calls take effect. Nothing changes where memory runs out.
    #[inline(always)]
    pub fn note_commit(
        &mut self,
        p: usize,
        block: usize,
        ids: SmallVec<CallId, 1>,
    ) -> Result<(), NoMemory>
        requires in_turn { IsHistory (self.old.history ++ Applied ids.items ∷ []) }
        requires block { block < length self.old.root_marks }
        ensures ok { OnOk result (self.new ≡ noted self.old p At.Commit block (Some (Applied ids.items))) }
        ensures err { OnErr result (self.new ≡ self.old) }
    {
        self.schedule.try_reserve(1)?;
        note_applied(&mut self.history, &mut self.order, ids)?;
        self.root_marks[block] = self.history.len();
        count_reserved(&mut self.schedule, p);
        Ok(())
    }

    /// Process p's call ends. Nothing changes where memory runs out.
    #[inline(always)]
    pub fn note_end(&mut self, p: usize, id: CallId, reply: KeptReply) -> Result<(), NoMemory>
        requires { IsHistory (self.old.history ++ End id (kept_reply reply) ∷ []) }
        ensures ok { OnOk result (self.new ≡ noted self.old p At.Give 0 (Some (End id (kept_reply reply)))) }
        ensures err { OnErr result (self.new ≡ self.old) }
    {
        self.schedule.try_reserve(1)?;
        self.history.push_end(id, reply)?;
        count_reserved(&mut self.schedule, p);
        Ok(())
    }

    /// What was seen so far: the events Begin, Applied and End, in the order of the steps that showed them.
    pub fn history(&self) -> &History
        ensures { result.now ≡ self.now.history }
    {
        &self.history
    }

    /// The calls that took effect so far, those of one exchange behind those of the one before it.
    pub fn order(&self) -> &[CallId]
        ensures { result.now ≡ self.now.order }
    {
        self.order.as_slice()
    }

    /// Who stepped so far: runs of steps of one process, the first one first. A turn is one step.
    pub fn schedule(&self) -> &[Turns]
        ensures { result.now ≡ self.now.schedule }
    {
        self.schedule.as_slice()
    }

    /// Nothing happens: a vector has fewer items than numbers of its length.
    pub fn few_turns(&self)
        ensures { length self.now.schedule < 2 ^ 64 }
    {
        let _ = self.schedule.len();
    }

    /// History, order and schedule. The marks are let go.
    pub fn into_parts(self) -> (History, Vec<CallId>, Vec<Turns>)
        ensures history { result.0 ≡ self.history }
        ensures order { result.1.items ≡ self.order }
        ensures schedule { result.2.items ≡ self.schedule }
    {
        let Records {
            history,
            order,
            schedule,
            flip_marks: _,
            root_marks: _,
        } = self;
        (history, order, schedule)
    }
}

/// At FLIP the history's length is marked for the process.
fn note_flip(flip_marks: &mut Vec<usize>, p: usize, label: Label, seen: usize)
    requires { p < length flip_marks.old.items }
    ensures { flip_marks.new.items ≡ (if at_flip label then slice_set flip_marks.old.items p seen else flip_marks.old.items) }
{
    if label == Label::Flip {
        flip_marks[p] = seen;
    }
}

/// Calls that took effect, at the end of the history and of the order.
#[inline(always)]
fn note_applied(
    history: &mut History,
    order: &mut Vec<CallId>,
    ids: SmallVec<CallId, 1>,
) -> Result<(), NoMemory>
    requires { IsHistory (history.old ++ Applied ids.items ∷ []) }
    ensures history { OnOk result (history.new ≡ history.old ++ Applied ids.items ∷ []) }
    ensures order { OnOk result (order.new.items ≡ order.old.items ++ ids.items) }
    ensures no_history { OnErr result (history.new ≡ history.old) }
    ensures no_order { OnErr result (order.new.items ≡ order.old.items) }
{
    let before = order.len();
    append(order, ids.as_slice())?;
    match history.push_applied(ids) {
        Ok(()) => Ok(()),
        Err(fault) => {
            order.truncate(before);
            Err(fault)
        }
    }
}

/// These calls at the end of the order. Mostly it is one.
#[inline(always)]
fn append(order: &mut Vec<CallId>, ids: &[CallId]) -> Result<(), NoMemory>
    ensures ok { OnOk result (order.new.items ≡ order.old.items ++ ids.now) }
    ensures err { OnErr result (order.new.items ≡ order.old.items) }
{
    match ids {
        [id] => {
            order.try_reserve(1)?;
            order.push_reserved(*id);
        }
        ids => append_all(order, ids)?,
    }
    Ok(())
}

#[inline(never)]
fn append_all(order: &mut Vec<CallId>, ids: &[CallId]) -> Result<(), NoMemory>
    ensures ok { OnOk result (order.new.items ≡ order.old.items ++ ids.now) }
    ensures err { OnErr result (order.new.items ≡ order.old.items) }
{
    order.extend_from_slice(ids)?;
    Ok(())
}

/// One more turn of p: in the last run of turns, where that is p's and not full, else in a new one.
#[inline(always)]
fn count_turn(schedule: &mut Vec<Turns>, p: usize) -> Result<(), NoMemory>
    ensures ok { OnOk result (schedule.new.items ≡ counted schedule.old.items p) }
    ensures err { OnErr result (schedule.new.items ≡ schedule.old.items) }
    ensures room { vec_len schedule.old < vec_capacity schedule.old → IsOk result }
{
    let n = schedule.len();
    if n > 0 && schedule[n - 1].process == p && schedule[n - 1].count < u64::MAX {
        schedule[n - 1].count += 1;
    } else {
        begin_run(schedule, p)?;
    }
    Ok(())
}

/// A new run of turns, which begins with one of p. It is rare, and stands apart from what counts on.
#[inline(never)]
fn begin_run(schedule: &mut Vec<Turns>, p: usize) -> Result<(), NoMemory>
    ensures ok { OnOk result (schedule.new.items ≡ schedule.old.items ++ record { process = p; count = 1 } ∷ []) }
    ensures err { OnErr result (schedule.new.items ≡ schedule.old.items) }
    ensures room { vec_len schedule.old < vec_capacity schedule.old → IsOk result }
{
    schedule.push(Turns {
        process: p,
        count: 1,
    })?;
    Ok(())
}

/// One more turn of p, for which there is room.
#[inline(always)]
fn count_reserved(schedule: &mut Vec<Turns>, p: usize)
    requires { vec_len schedule.old < vec_capacity schedule.old }
    ensures { schedule.new.items ≡ counted schedule.old.items p }
{
    match count_turn(schedule, p) {
        Ok(()) => {}
        Err(_) => unreachable!(),
    }
}

/// How many turns of p the last run of turns has room for, at most so many.
fn room_in(schedule: &[Turns], p: usize, most: u64) -> u64
    ensures few { result ≤ most }
    ensures room { result ≤ room_for schedule.now p }
{
    let n = schedule.len();
    if n == 0 || schedule[n - 1].process != p {
        return 0;
    }
    let room = u64::MAX - schedule[n - 1].count;
    if room < most { room } else { most }
}

/// So many more turns of p in the last run of turns, which has room for them.
fn count_turns(schedule: &mut [Turns], p: usize, count: u64)
    requires { count ≤ room_for schedule.old p }
    ensures { schedule.new ≡ counted_times schedule.old p count }
{
    let n = schedule.len();
    if n > 0 && schedule[n - 1].process == p {
        schedule[n - 1].count += count;
    }
}
