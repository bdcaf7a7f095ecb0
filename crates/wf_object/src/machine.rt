//! The step machine.

ghost use Rattle.std.specs.Prelude.{true, false, ◌≡◌, ◌+◌, ◌*◌, ◌<◌, ◌≤◌, ◌⊎◌, ◌↔◌, [], ◌++◌, ◌∷◌};
ghost use Rattle.std.specs.Prelude.{List, Contains, replicate, IfOk, OnOk, OnErr, length, slice_get, Some};
ghost use Rattle.ob_interface.specs.View.{call_of};
ghost use Rattle.ll_cell.specs.declared.fault.CellFault.TheVariants as Faults;
ghost use Rattle.wf_object.specs.View.{answer_in, seen_in, variables_of};
ghost use Rattle.wf_object.specs.InARow.{AreInBody, AreQuiet, object_after, stepped};
ghost use Rattle.wf_object.specs.Quiet.{is_quiet};
ghost use Rattle.wf_table.specs.declared.process.Label.TheVariants as Labels;

use crate::bodies::stay;
use crate::engine::Engine;
use crate::process::Process;
use crate::quiet_steps::take_rows;
use crate::shown_steps::{is_quiet, show_step};
use crate::start::{idle, opened};
use crate::steps::act;
use ll_cell::{CellFault, Shared};
use ob_interface::call::Call;
use ob_interface::{MOST_PROCESSES, NoMemory};
use std::alloc::Global;
use std::marker::Model;
use wf_history::{CallId, History};
use wf_records::spent::{bound_of, count_inside, count_step};
use wf_records::{Records, Seen, StepOut};
use wf_table::{Label, Sizes, Spent, Turns};

/// An object of n processes over an engine: its cell, its processes, and what was seen.
#[derive(Drop)]
pub struct Machine<E: Engine> {
    alloc: Global,
    engine: E,
    sizes: Sizes,
    opening: Vec<i64>,
    shared: Shared,
    processes: Vec<Process<E::Run>>,
    records: Records,
    spent: Vec<Spent>,
}

impl<E: Engine> Model for Machine<E> {
    ghost use Rattle.wf_table.specs.Object.{answer_of, submit_of, label_of, script_of};
    ghost use Rattle.wf_object.specs.View.{Object, object_view};
    ghost use Rattle.wf_object.specs.Kept.{IsKeptOver};

    ghost Value = { Object E E.Run };

    ghost view = { λ a. object_view a.engine a.sizes a.opening.items a.shared.cell a.processes.items a.records a.spent.items };

    ghost invariant = { λ a. IsKeptOver E.meaning E.lawful E.fits E.ready a.engine a.sizes a.opening.items a.shared a.processes.items a.records a.spent.items };
}

impl<E: Engine> Machine<E> {
    ghost use Rattle.wf_table.specs.Object.{answer_of, values_answered, submit_of, label_of, script_of};
    ghost use Rattle.wf_table.specs.Schedule.{steps_of};
    ghost use Rattle.wf_object.specs.Halted.{is_halted};
    ghost use Rattle.wf_table.specs.Start.{IsStart, sizes_of};
    ghost use Rattle.wf_table.specs.Sound.{IsSound};
    ghost use Rattle.wf_table.specs.HelpAndOrder.{IsCommitted};
    ghost use Rattle.wf_table.specs.Helps.{IsHelped};
    ghost use Rattle.wf_table.specs.Stands.{IsStanding};
    ghost use Rattle.wf_table.specs.Answers.{AreAnswered};
    ghost use Rattle.wf_table.specs.Spent.{unspent};
    ghost use Rattle.wf_table.specs.Counted.{spent_of};
    ghost use Rattle.wf_table.specs.Bound.{sharp, bound};
    ghost use Rattle.wf_history.specs.declared.event.CallId.{CallId};
    ghost use Rattle.wf_history.specs.History.{End, Before};
    ghost use Rattle.wf_history.specs.Legal.{NoRepeats, IsLegal};
    ghost use Rattle.ob_interface.specs.Call.{Reply};
    ghost use Rattle.ob_interface.specs.Processes.{most_processes};

    /// An object of n processes with a lawful block of variable words; no process has a call yet.
    pub fn new(alloc: Global, engine: E, n: usize, block: &[i64]) -> Result<Self, CellFault>
        requires { E.lawful engine block.now }
        ensures processes { (result ≡ Err Faults.Processes) ↔ ((n ≡ 0) ⊎ (most_processes < n)) }
        ensures engine { IfOk result (λ m. m.engine ≡ engine) }
        ensures sizes { IfOk result (λ m. m.sizes ≡ sizes_of (E.meaning engine) n) }
        ensures opening { IfOk result (λ m. m.opening ≡ block.now) }
        ensures unspent { IfOk result (λ m. m.spent ≡ replicate n unspent) }
        ensures state { IfOk result (λ m. IsStart (E.ready engine) (sizes_of (E.meaning engine) n) block.now m.state) }
    {
        if n == 0 || n > MOST_PROCESSES {
            return Err(CellFault::Processes);
        }
        let sizes = Sizes {
            processes: n,
            variables: engine.variable_words(),
            replies: engine.reply_words(),
            arguments: engine.announce_words(),
        };
        let opening = block.to_vec(alloc)?;
        let shared = opened(alloc, sizes, block)?;
        let (Ok(processes), Ok(records)) = (idle(alloc, &engine, sizes), Records::new(alloc, n))
        else {
            return Err(CellFault::NoMemory);
        };
        let unspent = Spent {
            bodies: 0,
            inside: 0,
            outside: 0,
        };
        let spent = vec![in alloc; unspent; n]?;
        Ok(Machine {
            alloc,
            engine,
            sizes,
            opening,
            shared,
            processes,
            records,
            spent,
        })
    }

    /// One more call at the end of the process's script, and its id.
    pub fn submit(&mut self, p: usize, call: Call) -> Result<CallId, NoMemory>
        requires process { p < self.old.sizes.processes }
        requires fits { E.fits self.old.engine (call_of call) }
        ensures submitted { OnOk result (self.new ≡ record self.old { state = submit_of self.old.state p (call_of call) }) }
        ensures id { IfOk result (λ id. id ≡ record { process = p; number = length (script_of self.old.state p) + 1 }) }
        ensures err { OnErr result (self.new ≡ self.old) }
    {
        let process = &mut self.processes[p];
        let number = process.submit(call)?;
        Ok(CallId {
            process: p,
            number: number as u64,
        })
    }

    /// One step of the process: the row of its label. Where memory runs out nothing changes.
    pub fn step(&mut self, p: usize) -> Result<StepOut, NoMemory>
        requires { p < self.old.sizes.processes }
        ensures stepped { OnOk result (self.new ≡ stepped (E.meaning self.old.engine) p self.old) }
        ensures answer { IfOk result (λ out. answer_in out ≡ answer_of (E.meaning self.old.engine) self.old.sizes self.old.state p) }
        ensures turn { OnOk result (steps_of self.new.state.records.schedule ≡ steps_of self.old.state.records.schedule ++ p ∷ []) }
        ensures few { IfOk result (λ out. length (values_answered (answer_in out)) ≤ 8) }
        ensures err { OnErr result (self.new ≡ self.old) }
    {
        let process = &self.processes[p];
        if is_quiet(process.label) {
            self.step_quietly(p)?;
            return Ok(StepOut::On);
        }
        self.take_loudly(p)
    }

    /// One step of the process at a label that shows something, and its answer: the step is noted with what is seen of it, and what it
    /// spends is counted. Where memory runs out nothing changes.
    #[inline(always)]
    fn take_loudly(&mut self, p: usize) -> Result<StepOut, NoMemory>
        requires process { p < self.old.sizes.processes }
        requires shows { is_quiet (label_of self.old.state p) ≡ false }
        ensures stepped { OnOk result (self.new ≡ stepped (E.meaning self.old.engine) p self.old) }
        ensures answer { IfOk result (λ out. answer_in out ≡ answer_of (E.meaning self.old.engine) self.old.sizes self.old.state p) }
        ensures turn { OnOk result (steps_of self.new.state.records.schedule ≡ steps_of self.old.state.records.schedule ++ p ∷ []) }
        ensures few { IfOk result (λ out. length (values_answered (answer_in out)) ≤ 8) }
        ensures err { OnErr result (self.new ≡ self.old) }
    {
        self.records.few_turns();
        let out = show_step(
            self.alloc,
            &self.engine,
            self.sizes,
            &mut self.shared,
            &mut self.processes,
            &mut self.spent[p],
            p,
            &mut self.records,
        )?;
        Ok(out)
    }

    /// One step of the process, as `step` takes it, for those who need no reply.
    #[inline(always)]
    pub fn advance(&mut self, p: usize) -> Result<Seen, NoMemory>
        requires { p < self.old.sizes.processes }
        ensures stepped { OnOk result (self.new ≡ stepped (E.meaning self.old.engine) p self.old) }
        ensures seen { IfOk result (λ seen. seen ≡ seen_in (answer_of (E.meaning self.old.engine) self.old.sizes self.old.state p)) }
        ensures turn { OnOk result (steps_of self.new.state.records.schedule ≡ steps_of self.old.state.records.schedule ++ p ∷ []) }
        ensures err { OnErr result (self.new ≡ self.old) }
    {
        let process = &self.processes[p];
        if is_quiet(process.label) {
            self.step_quietly(p)?;
            return Ok(Seen::On);
        }
        match self.take_loudly(p)? {
            StepOut::On => Ok(Seen::On),
            StepOut::Began(_) => Ok(Seen::Began),
            StepOut::Answered(_, _) => Ok(Seen::Answered),
            StepOut::Halted => Ok(Seen::Halted),
        }
    }

    /// A step at a label that shows nothing: no room for an event is made.
    #[inline(always)]
    fn step_quietly(&mut self, p: usize) -> Result<(), NoMemory>
        requires process { p < self.old.sizes.processes }
        requires quiet { is_quiet (label_of self.old.state p) ≡ true }
        ensures stepped { OnOk result (self.new ≡ stepped (E.meaning self.old.engine) p self.old) }
        ensures turn { OnOk result (steps_of self.new.state.records.schedule ≡ steps_of self.old.state.records.schedule ++ p ∷ []) }
        ensures err { OnErr result (self.new ≡ self.old) }
    {
        let process = &self.processes[p];
        let label = process.label;
        self.records.few_turns();
        self.records.note_quiet(p, label)?;
        let spent = &mut self.spent[p];
        count_step(spent, label, false);
        act(
            &self.engine,
            self.sizes,
            &mut self.shared,
            &mut self.processes[p],
            p,
        );
        Ok(())
    }

    /// Steps of the process that show nothing, each as `advance` takes it, and how many they are: at most so many, none where the last
    /// turn was another process's, none at FLIP, and none at LOAD where there is room for one alone. They take no memory.
    #[inline(always)]
    pub fn go_on(&mut self, p: usize, most: u64) -> u64
        requires { p < self.old.sizes.processes }
        ensures stepped { self.new ≡ object_after (E.meaning self.old.engine) p result self.old }
        ensures few { result ≤ most }
        ensures quiet { AreQuiet (E.meaning self.old.engine) self.old.sizes p result self.old.state }
        ensures turns { steps_of self.new.state.records.schedule ≡ steps_of self.old.state.records.schedule ++ replicate result p }
    {
        self.records.few_turns();
        let room = self.records.room(p, most);
        let process = &mut self.processes[p];
        let spent = &mut self.spent[p];
        let count = take_rows(
            &self.engine,
            self.sizes,
            &mut self.shared,
            process,
            spent,
            p,
            room,
        );
        self.records.count_more(p, count);
        count
    }

    /// Steps of the process in the body in which it stands, each as `advance` takes it, and how many they are: at most so many, and
    /// none where the last turn was another process's. They take no memory.
    pub fn stay_in_body(&mut self, p: usize, most: u64) -> u64
        requires { p < self.old.sizes.processes }
        ensures stepped { self.new ≡ object_after (E.meaning self.old.engine) p result self.old }
        ensures few { result ≤ most }
        ensures inside { AreInBody (E.meaning self.old.engine) self.old.sizes p result self.old.state }
        ensures turns { steps_of self.new.state.records.schedule ≡ steps_of self.old.state.records.schedule ++ replicate result p }
    {
        let process = &self.processes[p];
        if process.label != Label::Body {
            return 0;
        }
        self.step_in_body(p, most)
    }

    /// Steps of the process in its body, as far as there is room for their turns.
    fn step_in_body(&mut self, p: usize, most: u64) -> u64
        requires process { p < self.old.sizes.processes }
        requires body { label_of self.old.state p ≡ Labels.Body }
        ensures stepped { self.new ≡ object_after (E.meaning self.old.engine) p result self.old }
        ensures few { result ≤ most }
        ensures inside { AreInBody (E.meaning self.old.engine) self.old.sizes p result self.old.state }
        ensures turns { steps_of self.new.state.records.schedule ≡ steps_of self.old.state.records.schedule ++ replicate result p }
    {
        self.records.few_turns();
        let room = self.records.room(p, most);
        let count = stay(
            &self.engine,
            self.sizes,
            &mut self.shared,
            &mut self.processes[p],
            p,
            room,
        );
        self.records.count_more(p, count);
        let spent = &mut self.spent[p];
        count_inside(spent, count);
        count
    }

    /// Steps of the process where it is halted, each as `advance` takes it, and how many they are: at most so many, and none where the
    /// last turn was another process's. They take no memory, nor time by their number: nothing changes but the schedule.
    pub fn rest(&mut self, p: usize, most: u64) -> u64
        requires { p < self.old.sizes.processes }
        ensures stepped { self.new ≡ object_after (E.meaning self.old.engine) p result self.old }
        ensures few { result ≤ most }
        ensures halted { 0 < result → is_halted self.old.state p ≡ true }
        ensures turns { steps_of self.new.state.records.schedule ≡ steps_of self.old.state.records.schedule ++ replicate result p }
    {
        if !self.is_halted(p) {
            return 0;
        }
        let count = self.records.room(p, most);
        self.records.count_more(p, count);
        count
    }

    /// Nothing happens: what the machine keeps, for those who hold one.
    pub fn keeps(&self)
        ensures sound { IsSound (E.meaning self.now.engine) (E.lawful self.now.engine) (E.fits self.now.engine) (E.ready self.now.engine) self.now.sizes self.now.opening self.now.state }
        ensures committed { IsCommitted self.now.sizes self.now.state }
        ensures helped { IsHelped (E.meaning self.now.engine) (E.lawful self.now.engine) (E.fits self.now.engine) self.now.sizes self.now.opening self.now.state }
        ensures standing { IsStanding self.now.sizes self.now.state.cell self.now.state.processes self.now.state.records }
        ensures answered { AreAnswered (E.meaning self.now.engine) self.now.opening self.now.state.records.history self.now.state.records.order }
    {
        let _ = &self.alloc;
    }

    /// The engine whose calls the processes make, as it was handed in.
    pub fn engine(&self) -> &E
        ensures { result.now ≡ self.now.engine }
    {
        &self.engine
    }

    /// The block that the object began with.
    pub fn opening(&self) -> &[i64]
        ensures { result.now ≡ self.now.opening }
    {
        self.opening.as_slice()
    }

    /// Where the process stands.
    pub fn label(&self, p: usize) -> Label
        requires { p < self.now.sizes.processes }
        ensures { result ≡ label_of self.now.state p }
    {
        let process = &self.processes[p];
        process.label
    }

    /// Whether the process stands at NEXT and its script has no call left.
    pub fn is_halted(&self, p: usize) -> bool
        requires { p < self.now.sizes.processes }
        ensures { result ≡ is_halted self.now.state p }
    {
        let own = &self.processes[p];
        own.label == Label::Next && !(own.begun < own.calls.len())
    }

    /// How many processes there are, and the words of variables, replies and calls.
    pub fn sizes(&self) -> Sizes
        ensures { result ≡ self.now.sizes }
    {
        self.sizes
    }

    /// What the processes share, as it stands: root, blocks, links and announcements.
    pub fn shared(&self) -> &Shared
        ensures { result.now.cell ≡ self.now.state.cell }
    {
        &self.shared
    }

    /// What the process keeps for itself, as it stands.
    pub fn process(&self, p: usize) -> &Process<E::Run>
        requires { p < self.now.sizes.processes }
        ensures { slice_get self.now.state.processes p ≡ Some result.now }
    {
        &self.processes[p]
    }

    /// What was seen so far.
    pub fn history(&self) -> &History
        ensures { result.now ≡ self.now.state.records.history }
    {
        self.records.history()
    }

    /// The calls that were applied so far, in an order that is legal for the history, from the opening to the
    /// words that `variables` lends: no call twice, each that ended, of two of them the later one did not end before
    /// the earlier one began, and made one at a time they have the replies that the history gives.
    pub fn order(&self) -> &[CallId]
        ensures calls { result.now ≡ self.now.state.records.order }
        ensures legal { ∥ IsLegal (E.effect self.now.engine) self.now.opening self.now.state.records.history result.now (variables_of self.now) ∥₁ }
        ensures once { NoRepeats result.now }
        ensures ended { (id : CallId) (reply : Reply) → Contains self.now.state.records.history (End id reply) → Contains result.now id }
        ensures in_time { (first second third : List CallId) (a b : CallId) → result.now ≡ first ++ a ∷ (second ++ b ∷ third) → ¬ Before self.now.state.records.history b a }
    {
        self.records.order()
    }

    /// Who stepped so far.
    pub fn schedule(&self) -> &[Turns]
        ensures { result.now ≡ self.now.state.records.schedule }
    {
        self.records.schedule()
    }

    /// What the process has spent on its open call, or on its last one where none is open: never more than
    /// two bodies for each process, and `bound` own steps outside bodies.
    pub fn spent(&self, p: usize) -> Spent
        requires { p < self.now.sizes.processes }
        ensures counts { result ≡ spent_of self.now.spent p }
        ensures bodies { result.bodies ≤ 2 * self.now.sizes.processes }
        ensures sharp { result.outside ≤ sharp self.now.sizes }
        ensures outside { result.outside ≤ bound self.now.sizes }
    {
        let spent = &self.spent[p];
        *spent
    }

    /// The own steps outside bodies that no call exceeds, whatever the other processes do.
    pub fn bound(&self) -> u128
        ensures { result ≡ bound self.now.sizes }
    {
        bound_of(self.sizes)
    }

    /// The variable words of the root.
    pub fn variables(&self) -> &[i64]
        ensures { result.now ≡ variables_of self.now }
    {
        self.shared.root_words(self.sizes.variables)
    }

    /// A copy of the words that `variables` lends.
    pub fn state_words(&self) -> Result<Vec<i64>, NoMemory>
        ensures { IfOk result (λ v. v.items ≡ variables_of self.now) }
    {
        Ok(self.variables().to_vec(self.alloc)?)
    }

    /// The engine, the history, the order and the schedule.
    pub fn into_parts(self) -> (E, History, Vec<CallId>, Vec<Turns>)
        ensures engine { result.0 ≡ self.engine }
        ensures history { result.1 ≡ self.state.records.history }
        ensures order { result.2.items ≡ self.state.records.order }
        ensures schedule { result.3.items ≡ self.state.records.schedule }
    {
        let Machine {
            alloc: _,
            engine,
            sizes: _,
            opening: _,
            shared: _,
            processes: _,
            records,
            spent: _,
        } = self;
        let (history, order, schedule) = records.into_parts();
        (engine, history, order, schedule)
    }
}
