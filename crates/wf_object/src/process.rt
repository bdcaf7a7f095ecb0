//! What a process keeps for itself.

use ob_interface::NoMemory;
use ob_interface::call::Call;
use std::marker::Model;
use wf_records::CallList;
use wf_table::{Label, Registers};

/// What a process keeps for itself.
#[derive(Drop)]
pub struct Process<R> {
    pub(crate) label: Label,
    /// The calls submitted so far, and how many of them have begun.
    pub(crate) calls: CallList,
    pub(crate) begun: usize,
    pub(crate) registers: Registers,
    /// The words of an announced call: the own one until FLIP, then the served process's.
    pub(crate) list: Vec<i64>,
    /// Status and results of the own call, as TAKE finds them.
    pub(crate) replies: Vec<i64>,
    /// The variables before the body.
    pub(crate) save: Vec<i64>,
    pub(crate) run: R,
}

impl<R> Model for Process<R> {
    ghost use Rattle.wf_object.specs.View.{process_view};
    ghost use Rattle.wf_table.specs.StepTable as table;

    ghost Value = { table.Process R };

    ghost view = { λ q. process_view q.label q.calls.calls q.begun q.registers q.list.items q.replies.items q.save.items q.run };
}

impl<R> Process<R> {
    ghost use Rattle.std.specs.Prelude.{◌≡◌, OnOk, OnErr, IfOk, length, ◌++◌, ◌∷◌, []};
    ghost use Rattle.ob_interface.specs.View.{call_of};

    /// Puts a call at the end of the script, and answers its number.
    pub fn submit(&mut self, call: Call) -> Result<usize, NoMemory>
        ensures submitted { OnOk result (self.new ≡ record self.old { calls = self.old.calls ++ call_of call ∷ [] }) }
        ensures number { IfOk result (λ number. number ≡ length self.new.calls) }
        ensures err { OnErr result (self.new ≡ self.old) }
    {
        self.calls.push(&call)?;
        Ok(self.calls.len())
    }

    /// Where it stands.
    pub fn label(&self) -> Label
        ensures { result ≡ self.now.label }
    {
        self.label
    }

    /// Its registers.
    pub fn registers(&self) -> Registers
        ensures { result ≡ self.now.registers }
    {
        self.registers
    }

    /// How many calls of its script have begun.
    pub fn begun(&self) -> usize
        ensures { result ≡ self.now.begun }
    {
        self.begun
    }

    /// How many calls its script has.
    pub fn submitted(&self) -> usize
        ensures { result ≡ length self.now.calls }
    {
        self.calls.len()
    }

    /// The words of an announced call.
    pub fn list(&self) -> &[i64]
        ensures { result.now ≡ self.now.list }
    {
        self.list.as_slice()
    }

    /// Status and results of the own call, as TAKE finds them.
    pub fn replies(&self) -> &[i64]
        ensures { result.now ≡ self.now.replies }
    {
        self.replies.as_slice()
    }

    /// The variables before the body.
    pub fn save(&self) -> &[i64]
        ensures { result.now ≡ self.now.save }
    {
        self.save.as_slice()
    }
}
