//! The machine that a desk keeps under its lock.

ghost use Rattle.std.specs.Prelude.{◌≡◌, ◌-◌, ◌^◌, ◌<◌, ◌≤◌, All, IfOk, OnOk, OnErr, length, map};
ghost use Rattle.ob_desk_floor.specs.Floor.{with_submissions};
ghost use Rattle.ob_desk_floor.specs.Submission.{submission_of};
ghost use Rattle.ob_interface.specs.View.{call_of};

use crate::opening::Opening;
use crate::seat::Seat;
use crate::submission::{Submission, copied_call};
use ob_interface::NoMemory;
use std::alloc::Global;
use std::marker::Model;
use std::sync::Arc;
use wf_object::{CellFault, Engine, Machine, Seen, StepOut, Turns};
use wf_theorems::runs::every_turn;

/// A machine, whether the values with which it began were carried over, the calls that were submitted to it before any step,
/// and the turns that each process took.
#[derive(Drop)]
pub struct Floor<E: Engine> {
    machine: Machine<E>,
    carried: bool,
    scripts: Arc<Vec<Submission>, Global>,
    counts: Vec<u128>,
}

impl<E: Engine> Model for Floor<E> {
    ghost use Rattle.std.specs.Arc.{arc_value};
    ghost use Rattle.ob_desk_floor.specs.Floor as floor;

    ghost Value = { floor.Floor E E.Run };

    ghost view = { λ f. floor.floor_view f.machine f.carried (arc_value f.scripts).items f.counts.items };

    ghost invariant = { λ f. floor.IsFloorOver E.meaning E.lawful E.fits E.ready (floor.floor_view f.machine f.carried (arc_value f.scripts).items f.counts.items) };
}

impl<E: Engine> Floor<E> {
    ghost use Rattle.std.specs.Arc.{arc_value};
    ghost use Rattle.ob_desk_floor.specs.Floor.{IsFloor, HasNoTurns, floor_after};
    ghost use Rattle.ob_desk_floor.specs.Seat.{seat_after};
    ghost use Rattle.wf_object.specs.View.{answer_in, seen_in};
    ghost use Rattle.wf_table.specs.Object.{answer_of};
    ghost use Rattle.wf_table.specs.Start.{sizes_of};

    /// An object of n processes that begins with a lawful block, with the calls of the scripts submitted in order, before any
    /// turn.
    pub fn new(
        alloc: Global,
        engine: E,
        n: usize,
        opening: &Opening,
        scripts: Vec<Submission>,
    ) -> Result<Floor<E>, NoMemory>
        requires some { 0 < n }
        requires few { n ≤ 16 }
        requires opening { E.lawful engine opening.now.words.items }
        requires callers { All (λ c. c.process < n) scripts.items }
        requires fits { All (λ c. E.fits engine (call_of c.call)) scripts.items }
        ensures engine { IfOk result (λ f. f.machine.engine ≡ engine) }
        ensures sizes { IfOk result (λ f. f.machine.sizes ≡ sizes_of (E.meaning engine) n) }
        ensures opening { IfOk result (λ f. f.machine.opening ≡ opening.now.words.items) }
        ensures carried { IfOk result (λ f. f.carried ≡ opening.now.carried) }
        ensures scripts { IfOk result (λ f. f.scripts ≡ map submission_of scripts.items) }
        ensures no_turns { IfOk result HasNoTurns }
        ensures floor { IfOk result (IsFloor (E.meaning engine) (E.lawful engine) (E.fits engine) (E.ready engine)) }
    {
        Floor::sharing(alloc, engine, n, opening, Arc::new(alloc, scripts)?)
    }

    /// The same with calls that are shared with others.
    pub fn sharing(
        alloc: Global,
        engine: E,
        n: usize,
        opening: &Opening,
        scripts: Arc<Vec<Submission>, Global>,
    ) -> Result<Floor<E>, NoMemory>
        requires some { 0 < n }
        requires few { n ≤ 16 }
        requires opening { E.lawful engine opening.now.words.items }
        requires callers { All (λ c. c.process < n) (arc_value scripts).items }
        requires fits { All (λ c. E.fits engine (call_of c.call)) (arc_value scripts).items }
        ensures engine { IfOk result (λ f. f.machine.engine ≡ engine) }
        ensures sizes { IfOk result (λ f. f.machine.sizes ≡ sizes_of (E.meaning engine) n) }
        ensures opening { IfOk result (λ f. f.machine.opening ≡ opening.now.words.items) }
        ensures carried { IfOk result (λ f. f.carried ≡ opening.now.carried) }
        ensures scripts { IfOk result (λ f. f.scripts ≡ map submission_of (arc_value scripts).items) }
        ensures no_turns { IfOk result HasNoTurns }
        ensures floor { IfOk result (IsFloor (E.meaning engine) (E.lawful engine) (E.fits engine) (E.ready engine)) }
    {
        let mut machine = match Machine::new(alloc, engine, n, opening.words.as_slice()) {
            Ok(machine) => machine,
            Err(CellFault::NoMemory) => return Err(NoMemory),
            Err(CellFault::Processes) => unreachable!(),
        };
        submit_all(alloc, &mut machine, scripts.as_slice())?;
        let counts = vec![in alloc; 0; n]?;
        Ok(Floor {
            machine,
            carried: opening.carried,
            scripts,
            counts,
        })
    }

    /// One turn of the seat's process: a step of the machine, one turn more on floor and seat, and the step's answer, if there
    /// is one, added to the seat's. Nothing changes where memory runs out.
    pub fn turn(&mut self, seat: &mut Seat) -> Result<StepOut, NoMemory>
        requires process { seat.old.process < self.old.machine.sizes.processes }
        requires room { seat.old.turns < 2 ^ 128 - 1 }
        ensures floor { OnOk result (self.new ≡ floor_after (E.meaning self.old.machine.engine) self.old seat.old.process) }
        ensures answer { IfOk result (λ out. answer_in out ≡ answer_of (E.meaning self.old.machine.engine) self.old.machine.sizes self.old.machine.state seat.old.process) }
        ensures seat { IfOk result (λ out. seat.new ≡ seat_after (answer_in out) seat.old) }
        ensures no_floor { OnErr result (self.new ≡ self.old) }
        ensures no_seat { OnErr result (seat.new ≡ seat.old) }
    {
        let process = seat.process();
        // These do nothing: the count of the process's turns is in the range of a u128.
        every_turn::<E>();
        self.machine.keeps();
        count_runs(self.machine.schedule());
        let out = seat.step(&mut self.machine)?;
        self.counts[process] += 1;
        Ok(out)
    }

    /// One turn of the seat's process, as `turn` takes it, whose answer, if there is one, is found on the seat.
    pub fn advance(&mut self, seat: &mut Seat) -> Result<Seen, NoMemory>
        requires process { seat.old.process < self.old.machine.sizes.processes }
        requires room { seat.old.turns < 2 ^ 128 - 1 }
        ensures floor { OnOk result (self.new ≡ floor_after (E.meaning self.old.machine.engine) self.old seat.old.process) }
        ensures seen { IfOk result (λ seen. seen ≡ seen_in (answer_of (E.meaning self.old.machine.engine) self.old.machine.sizes self.old.machine.state seat.old.process)) }
        ensures seat { OnOk result (seat.new ≡ seat_after (answer_of (E.meaning self.old.machine.engine) self.old.machine.sizes self.old.machine.state seat.old.process) seat.old) }
        ensures no_floor { OnErr result (self.new ≡ self.old) }
        ensures no_seat { OnErr result (seat.new ≡ seat.old) }
    {
        let process = seat.process();
        // These do nothing: the count of the process's turns is in the range of a u128.
        every_turn::<E>();
        self.machine.keeps();
        count_runs(self.machine.schedule());
        let seen = seat.advance(&mut self.machine)?;
        self.counts[process] += 1;
        Ok(seen)
    }

    /// The machine: a run of the scripts and of its own schedule brought it where it stands.
    pub fn machine(&self) -> &Machine<E>
        ensures machine { result.now ≡ self.now.machine }
        ensures floor { IsFloor (E.meaning self.now.machine.engine) (E.lawful self.now.machine.engine) (E.fits self.now.machine.engine) (E.ready self.now.machine.engine) self.now }
    {
        &self.machine
    }

    /// Whether the values with which the machine began were carried over.
    pub fn carried(&self) -> bool
        ensures { result ≡ self.now.carried }
    {
        self.carried
    }

    /// The calls that were submitted before any turn.
    pub fn scripts(&self) -> &[Submission]
        ensures { map submission_of result.now ≡ self.now.scripts }
    {
        self.scripts.as_slice()
    }

    /// How many processes share the machine.
    pub fn processes(&self) -> usize
        ensures { result ≡ self.now.machine.sizes.processes }
    {
        self.counts.len()
    }

    /// The turns that each process took.
    pub fn counts(&self) -> &[u128]
        ensures { result.now ≡ self.now.counts }
    {
        self.counts.as_slice()
    }

    /// The machine alone.
    pub fn into_machine(self) -> Machine<E>
        ensures machine { result ≡ self.machine }
        ensures floor { IsFloor (E.meaning self.machine.engine) (E.lawful self.machine.engine) (E.fits self.machine.engine) (E.ready self.machine.engine) self }
    {
        let Floor {
            machine,
            carried: _,
            scripts: _,
            counts: _,
        } = self;
        machine
    }
}

/// Nothing happens: a schedule has fewer runs of turns than numbers of its length.
fn count_runs(schedule: &[Turns])
    ensures { length schedule.now < 2 ^ 64 }
{
    let _ = schedule.len();
}

/// Submits copies of the calls, in order.
fn submit_all<E: Engine>(
    alloc: Global,
    machine: &mut Machine<E>,
    scripts: &[Submission],
) -> Result<(), NoMemory>
    requires callers { All (λ c. c.process < machine.old.sizes.processes) scripts.now }
    requires fits { All (λ c. E.fits machine.old.engine (call_of c.call)) scripts.now }
    ensures { OnOk result (machine.new ≡ with_submissions (E.meaning machine.old.engine) (map submission_of scripts.now) machine.old) }
{
    for script in scripts {
        let call = copied_call(alloc, &script.call)?;
        machine.submit(script.process, call)?;
    }
    Ok(())
}
