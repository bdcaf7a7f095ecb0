//! The lock round a floor, and what is known beside it.

ghost use Rattle.std.specs.Prelude.{◌≡◌, ◌-◌, ◌/◌, ◌<◌, ◌≤◌, All, IfErr, IfOk, OnOk, min};
ghost use Rattle.std.specs.Sync.Mutex.{mutex_guard_value};
ghost use Rattle.ob_desk_floor.specs.Floor.{IsFloorOver};
ghost use Rattle.ob_desk_floor.specs.Desk.{desk_in, seats_of, terms_of};
ghost use Rattle.ob_interface.specs.View.{call_of};

use crate::closing::settle;
use crate::fault::CloseFault;
use crate::terms::Terms;
use crate::{Floor, Opening, Seat, Submission, TakeTurn};
use ob_interface::{MOST_PROCESSES, NoMemory};
use std::alloc::{AllocError, Global};
use std::hint::spin_loop;
use std::marker::Model;
use std::sync::{Arc, Mutex, MutexGuard, Wait};
use wf_object::{Machine, Seen, StepOut};
use wf_theorems::CodedEngine;

/// How often a seat finds the lock taken before it waits for it by `Mutex::lock`.
const TRIES: u32 = 32;

/// For how many of its turns a seat makes one pause between two tries, and how many pauses it makes there at most.
const TURNS_OF_A_PAUSE: u128 = 32;

const MOST_PAUSES: u128 = 128;

/// A floor under a lock, and what it has to be.
#[derive(Drop)]
pub struct Desk<E: CodedEngine> {
    floor: Mutex<Floor<E>>,
    terms: Terms<E>,
}

impl<E: CodedEngine> Model for Desk<E> {
    ghost use Rattle.ob_desk_floor.specs.Desk as desk;

    ghost Value = { desk.Terms E };

    ghost view = { λ d. d.terms };
}

impl<E: CodedEngine> Desk<E> {
    ghost use Rattle.ob_desk_floor.specs.Close.{AreSeats, IsClosed, TellsClosing};
    ghost use Rattle.ob_desk_floor.specs.Agreeing.{Agrees};

    /// A desk at which processes take turns on an object over the engine, with the calls of the scripts submitted, and a seat
    /// for each process.
    pub fn open(
        alloc: Global,
        engine: E,
        processes: usize,
        opening: Opening,
        scripts: Vec<Submission>,
        tag: u64,
    ) -> Result<(Desk<E>, Vec<Seat>), NoMemory>
        requires some { 0 < processes }
        requires few { processes ≤ MOST_PROCESSES }
        requires opening { E.lawful engine opening.words.items }
        requires callers { All (λ c. c.process < processes) scripts.items }
        requires fits { All (λ c. E.fits engine (call_of c.call)) scripts.items }
        ensures desk { IfOk result (λ r. r.0 ≡ terms_of engine processes opening scripts.items tag) }
        ensures seats { IfOk result (λ r. r.1.items ≡ seats_of processes tag) }
    {
        let seats = seats(alloc, processes, tag)?;
        let own = engine.copy(alloc)?;
        let scripts = Arc::new(alloc, scripts)?;
        let kept = Arc::try_clone(&scripts)?;
        let floor = Floor::sharing(alloc, own, processes, &opening, scripts)?;
        let floor = Mutex::new(floor);
        let terms = Terms::sharing(engine, processes, opening, kept, tag);
        Ok((Desk { floor, terms }, seats))
    }

    /// Compares the seats with the floor, and the floor with what stands beside the lock; and gives the machine. The lock hides which
    /// floor that is, so `fault` speaks of some floor; `settle` says all of the one that it is given.
    pub fn close(self, seats: &[Seat]) -> Result<Machine<E>, CloseFault>
        ensures machine { IfOk result (IsClosed E.code E.meaning E.lawful E.fits E.ready (desk_in E.code self)) }
        ensures seats { OnOk result (AreSeats (desk_in E.code self) seats.now) }
        ensures agree { IfOk result (λ m. All (Agrees m.state.records.history m.state.records.schedule) seats.now) }
        ensures fault { IfErr result (TellsClosing E.code E.meaning E.lawful E.fits E.ready (desk_in E.code self) seats.now) }
    {
        let Desk { floor, terms } = self;
        let floor = floor.into_inner();
        // This does nothing: the machine of each floor is one that a run leads to.
        floor.machine();
        settle(&terms, floor, seats)
    }
}

impl<E: CodedEngine> TakeTurn for Desk<E> {
    // The lock hides the floor, so nothing is known of where the process stood.
    ghost halts = { λ _ _. Unit {0} };

    /// Takes the lock for one turn of the seat's process. Where the floor has no such process the answer is that of a process
    /// without calls. Nothing changes on the seat where memory runs out.
    fn turn<R: Wait>(&self, rt: &R, seat: &mut Seat) -> Result<StepOut, NoMemory> {
        let mut floor = match self.floor.try_lock() {
            Some(floor) => floor,
            None => wait_for(rt, &self.floor, seat),
        };
        if seat.process() < floor.processes() {
            floor.turn(seat)
        } else {
            seat.pass();
            Ok(StepOut::Halted)
        }
    }

    /// The same turn, whose answer is found on the seat.
    fn advance<R: Wait>(&self, rt: &R, seat: &mut Seat) -> Result<Seen, NoMemory> {
        let mut floor = match self.floor.try_lock() {
            Some(floor) => floor,
            None => wait_for(rt, &self.floor, seat),
        };
        if seat.process() < floor.processes() {
            floor.advance(seat)
        } else {
            seat.pass();
            Ok(Seen::Halted)
        }
    }
}

/// Takes a lock that was found taken. Between two tries the lock's word is not looked at: each look takes it from the processor of
/// the thread that has the lock, which writes it at each of its turns. Of what stands under the lock nothing is known but that it is
/// a floor.
#[inline(never)]
fn wait_for<'a, E: CodedEngine, R: Wait>(
    rt: &R,
    floor: &'a Mutex<Floor<E>>,
    seat: &Seat,
) -> MutexGuard<'a, Floor<E>>
    ensures { IsFloorOver E.meaning E.lawful E.fits E.ready (mutex_guard_value result) }
{
    let pauses = pauses_of(seat);
    for _ in 0..TRIES {
        (0..pauses).for_each(|_| spin_loop());
        if let Some(guard) = floor.try_lock() {
            return shown(guard);
        }
    }
    shown(floor.lock(rt))
}

/// The same guard.
fn shown<'a, E: CodedEngine>(guard: MutexGuard<'a, Floor<E>>) -> MutexGuard<'a, Floor<E>>
    ensures same { result ≡ guard.entry }
    ensures floor { IsFloorOver E.meaning E.lawful E.fits E.ready (mutex_guard_value result) }
{
    guard.machine();
    guard
}

/// How many pauses a seat makes between two tries. The more turns it took the longer are its waits, so that a thread in the midst of
/// its work goes on for some turns, and those that have just begun soon come in.
fn pauses_of(seat: &Seat) -> u32
    ensures { result ≡ min (seat.now.turns / 32) 128 }
{
    (seat.turns() / TURNS_OF_A_PAUSE).min(MOST_PAUSES) as u32
}

/// A seat for each process, in order.
fn seats(alloc: Global, processes: usize, tag: u64) -> Result<Vec<Seat>, AllocError>
    ensures { IfOk result (λ v. v.items ≡ seats_of processes tag) }
{
    let mut seats = Vec::with_capacity(alloc, processes)?;
    for process in 0..processes {
        seats.push(Seat::new(alloc, process, tag))?;
    }
    Ok(seats)
}
