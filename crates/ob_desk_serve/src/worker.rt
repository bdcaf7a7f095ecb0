//! One worker.

ghost use Rattle.std.specs.Prelude.{◌≡◌, ◌≢◌, ◌+◌, ◌<◌, ◌≤◌, ◌^◌, IfNone, MatchOption, Ok, OnErr, Some};
ghost use Rattle.ob_desk_serve.specs.Rounds.{AreLet, AreRefused, AreTold, GoOnFrom, HasWorked, IsAfterTurns, IsDone, IsFull, IsLastAdded, IsLet};
ghost use Rattle.ob_desk_serve.specs.declared.worker.Next.TheVariants as Next;
ghost use Rattle.ob_desk_serve.specs.declared.worker.Ended.TheVariants as Ended;
ghost use Rattle.wf_records.specs.declared.records.Seen.TheVariants as Seen;

use crate::gate::Gate;
use ob_desk_floor::{CallAnswer, Seat, TakeTurn};
use ob_interface::NoMemory;
use std::alloc::Global;
use std::snapshot::Snapshot;
use std::sync::{RwLock, Wait};
use std::thread::Promise;
use wf_object::Seen;

/// How a worker ended.
#[derive(Clone, Copy, PartialEq, Eq)]
pub enum Ended {
    /// The process is halted, or its seat can count no more steps.
    Done,
    /// The gate refused too often in a row.
    Refused,
    /// Want of memory.
    NoMemory,
}

/// What a worker hands back: its seat, the answers that the seat was given, and how the worker ended. Where memory wanted the last
/// answer may be missing.
#[derive(Drop)]
pub struct Worked {
    pub seat: Seat,
    pub answers: Vec<CallAnswer>,
    pub ended: Ended,
}

/// What a worker promises: what it hands back is what comes of this seat at this desk, by this gate and limit.
#[derive(Drop)]
pub struct PassedBy<D: TakeTurn, G: Gate> {
    pub desk: Snapshot<D>,
    pub gate: Snapshot<G>,
    pub limit: u64,
    pub seat: Snapshot<Seat>,
}

impl<D: TakeTurn, G: Gate> Promise<Worked> for PassedBy<D, G> {
    ghost use Rattle.ob_desk_serve.specs.Rounds.{HasWorked};

    ghost kept_by = { λ p worked. HasWorked (G.passes p.gate.value) (G.refuses p.gate.value) (G.hears p.gate.value) (D.halts p.desk.value) p.limit p.seat.value worked };
}

/// What a worker of the seat promises.
pub fn promise<D: TakeTurn, G: Gate>(desk: &D, gate: &G, limit: u64, seat: &Seat) -> PassedBy<D, G>
    ensures desk { result.desk.value ≡ desk.now }
    ensures gate { result.gate.value ≡ gate.now }
    ensures limit { result.limit ≡ limit }
    ensures seat { result.seat.value ≡ seat.now }
{
    PassedBy {
        desk: Snapshot::of(desk),
        gate: Snapshot::of(gate),
        limit,
        seat: Snapshot::of(seat),
    }
}

/// Works as soon as `begun` can be read: whoever starts the workers holds it for writing until all are there.
pub fn work_once_begun<R: Wait, D: TakeTurn, G: Gate>(
    rt: &R,
    alloc: Global,
    begun: &RwLock<()>,
    desk: &D,
    gate: &G,
    limit: u64,
    seat: Seat,
) -> Worked
    requires { 1 ≤ limit }
    ensures { HasWorked (G.passes gate.now) (G.refuses gate.now) (G.hears gate.now) (D.halts desk.now) limit seat result }
{
    drop(begun.read(rt));
    work(rt, alloc, desk, gate, limit, seat)
}

/// Takes steps of the seat's process, as the gate lets it, until the process is halted or its seat can count no more of them. The
/// desk's lock is free between two steps.
pub fn work<R: Wait, D: TakeTurn, G: Gate>(
    rt: &R,
    alloc: Global,
    desk: &D,
    gate: &G,
    limit: u64,
    mut seat: Seat,
) -> Worked
    requires { 1 ≤ limit }
    ensures { HasWorked (G.passes gate.now) (G.refuses gate.now) (G.hears gate.now) (D.halts desk.now) limit seat result }
{
    let mut answers = Vec::new(alloc);
    let mut refusals = 0u64;
    for _ in rt.forever() {
        let ended = work_on(
            rt,
            desk,
            gate,
            limit,
            &mut seat,
            &mut answers,
            &mut refusals,
        );
        if let Some(ended) = ended {
            return Worked {
                seat,
                answers,
                ended,
            };
        }
    }
    unreachable!()
}

/// Goes on with that for as many rounds as the seat can count steps, so that no round has to ask how many it can. Answers how the
/// worker ends, if it does.
#[inline(always)]
fn work_on<R: Wait, D: TakeTurn, G: Gate>(
    rt: &R,
    desk: &D,
    gate: &G,
    limit: u64,
    seat: &mut Seat,
    answers: &mut Vec<CallAnswer>,
    refusals: &mut u64,
) -> Option<Ended>
    requires few { refusals.old < limit }
    requires refused { AreRefused (G.refuses gate.now) seat.old refusals.old }
    ensures seat { IsAfterTurns seat.old seat.new }
    ensures are_let { AreLet (G.passes gate.now) limit seat.old → AreLet (G.passes gate.now) limit seat.new }
    ensures are_refused { AreRefused (G.refuses gate.now) seat.new refusals.new }
    ensures told { AreTold (G.hears gate.now) answers.old.items → AreTold (G.hears gate.now) answers.new.items }
    ensures answers { result ≢ Some Ended.NoMemory → GoOnFrom seat.old answers.old.items seat.new answers.new.items }
    ensures done { result ≡ Some Ended.Done → IsDone (D.halts desk.now) seat.new }
    ensures on { IfNone result (refusals.new < limit) }
    ensures ends { result ≡ Some Ended.Refused → refusals.new ≡ limit }
{
    let rounds = rounds_of(seat);
    if rounds == 0 {
        return Some(Ended::Done);
    }
    for _ in 0..rounds {
        match ask(gate, limit, seat, refusals) {
            Next::Turn => {
                let turn = desk.advance(rt, seat);
                if let Some(ended) = end_of(gate, seat, answers, turn) {
                    return Some(ended);
                }
            }
            Next::Ask => {}
            Next::End => return Some(Ended::Refused),
        }
    }
    None
}

/// How many rounds of a step each the seat can count: all that it can, or the most that 64 bits hold; none where it can count no more.
fn rounds_of(seat: &Seat) -> u64
    ensures room { seat.now.turns + result < 2 ^ 128 }
    ensures none { result ≡ 0 → IsFull seat.now }
{
    let left = u128::MAX - seat.turns();
    left.min(u64::MAX as u128) as u64
}

/// What a worker does next.
enum Next {
    /// It takes a step.
    Turn,
    /// It asks the gate again.
    Ask,
    /// It ends as refused.
    End,
}

/// Asks the gate for one more step of the seat's process.
#[inline]
fn ask<G: Gate>(gate: &G, limit: u64, seat: &Seat, refusals: &mut u64) -> Next
    requires few { refusals.old < limit }
    requires refused { AreRefused (G.refuses gate.now) seat.now refusals.old }
    ensures is_let { result ≡ Next.Turn → IsLet (G.passes gate.now) limit seat.now.process seat.now.turns }
    ensures more { refusals.new ≤ refusals.old + 1 }
    ensures anew { result ≡ Next.Turn → refusals.new ≡ 0 }
    ensures are_refused { AreRefused (G.refuses gate.now) seat.now refusals.new }
    ensures ends { result ≡ Next.End → refusals.new ≡ limit }
    ensures on { result ≡ Next.Ask → refusals.new < limit }
{
    if !gate.pass(seat.process(), seat.turns(), *refusals) {
        *refusals += 1;
        return if *refusals == limit {
            Next::End
        } else {
            Next::Ask
        };
    }
    *refusals = 0;
    Next::Turn
}

/// How the worker ends behind this turn, if it does: where it was answered that the process is halted, and where memory wants. The
/// turn's answer, if there is one, is told to the gate and kept.
#[inline]
fn end_of<G: Gate>(
    gate: &G,
    seat: &Seat,
    answers: &mut Vec<CallAnswer>,
    turn: Result<Seen, NoMemory>,
) -> Option<Ended>
    ensures refused { result ≢ Some Ended.Refused }
    ensures done { result ≡ Some Ended.Done → turn ≡ Ok Seen.Halted }
    ensures halted { turn ≡ Ok Seen.Halted → result ≡ Some Ended.Done }
    ensures want { OnErr turn (result ≡ Some Ended.NoMemory) }
    ensures told { AreTold (G.hears gate.now) answers.old.items → AreTold (G.hears gate.now) answers.new.items }
    ensures answered { turn ≡ Ok Seen.Answered → MatchOption result (IsLastAdded seat.now answers.old.items answers.new.items) (λ ended. ended ≡ Ended.NoMemory) }
    ensures same { turn ≢ Ok Seen.Answered → answers.new.items ≡ answers.old.items }
{
    match turn {
        Err(_) => Some(Ended::NoMemory),
        Ok(Seen::Halted) => Some(Ended::Done),
        Ok(Seen::Answered) => tell_answer(gate, seat, answers),
        Ok(_) => None,
    }
}

/// The seat's last answer is told to the gate and kept. Answers whether memory wanted.
#[inline(never)]
fn tell_answer<G: Gate>(gate: &G, seat: &Seat, answers: &mut Vec<CallAnswer>) -> Option<Ended>
    ensures told { AreTold (G.hears gate.now) answers.old.items → AreTold (G.hears gate.now) answers.new.items }
    ensures added { MatchOption result (IsLastAdded seat.now answers.old.items answers.new.items) (λ ended. ended ≡ Ended.NoMemory) }
{
    let Ok(last) = seat.last_answer() else {
        return Some(Ended::NoMemory);
    };
    let Some(answer) = last else {
        return None;
    };
    gate.answered(answer.id.process, answer.id.number);
    if answers.push(answer).is_err() {
        return Some(Ended::NoMemory);
    }
    None
}
