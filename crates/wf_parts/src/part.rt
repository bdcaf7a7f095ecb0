//! A part of a history, whose calls are numbered anew.

ghost use Rattle.std.specs.Prelude.{◌≡◌, ◌<◌, ◌+◌, ℕ, length, IfOk, OnOk, vec_len};
ghost use Rattle.wf_order.specs.Rows.{row_of};
ghost use Rattle.wf_parts.specs.View.{rows_in};
ghost use Rattle.wf_parts.specs.Split.{AreLonger};

use ob_interface::NoMemory;
use ob_interface::scalar::Scalar;
use std::alloc::Global;
use wf_history::{CallId, History, KeptCall, KeptReply};

/// The calls of a history with one value. In the part's own history the calls of each process count from 1.
#[derive(Drop)]
pub struct Part {
    /// The value.
    pub value: Scalar,
    /// Of each process, the numbers that its calls have in the whole history.
    pub numbers: Vec<Vec<u64>>,
    /// The events of the calls.
    pub history: History,
}

/// Rows for all processes up to this one.
fn reach(numbers: &mut Vec<Vec<u64>>, process: usize) -> Result<(), NoMemory>
    ensures rows { OnOk result ((q : ℕ) → row_of (rows_in numbers.new.items) q ≡ row_of (rows_in numbers.old.items) q) }
    ensures within { OnOk result (process < vec_len numbers.new) }
{
    let alloc = *numbers.allocator();
    while numbers.len() <= process {
        numbers.push(Vec::new(alloc))?;
    }
    Ok(())
}

/// One more call of a process, by its number: how many it has.
fn push_number(numbers: &mut Vec<Vec<u64>>, id: CallId) -> Result<u64, NoMemory>
    ensures rows { OnOk result (AreLonger (rows_in numbers.old.items) (rows_in numbers.new.items) id) }
    ensures count { IfOk result (λ count. count ≡ length (row_of (rows_in numbers.old.items) id.process) + 1) }
{
    reach(numbers, id.process)?;
    let row = &mut numbers[id.process];
    row.push(id.number)?;
    Ok(row.len() as u64)
}

/// How many calls a process has.
fn count_of(numbers: &[Vec<u64>], process: usize) -> u64
    ensures { result ≡ length (row_of (rows_in numbers.now) process) }
{
    match numbers.get(process) {
        Some(row) => row.len() as u64,
        None => 0,
    }
}

impl Part {
    ghost use Rattle.std.specs.Prelude.{◌≡◌, ◌∷◌, ◌++◌, [], IfOk, OnOk};
    ghost use Rattle.wf_history.specs.History.{Begin, End, IsHistory};
    ghost use Rattle.wf_history.specs.View.{kept_call, kept_reply};
    ghost use Rattle.wf_parts.specs.Split.{Begins, Ends, empty_part, last_id, next_id};
    ghost use Rattle.wf_parts.specs.View.{part_in, rows_in};

    /// No calls yet.
    pub(crate) fn new(alloc: Global, value: Scalar) -> Part
        ensures { part_in result ≡ empty_part value }
    {
        Part {
            value,
            numbers: Vec::new(alloc),
            history: History::new(alloc),
        }
    }

    /// The call begins, which has this name in the whole history.
    pub(crate) fn begin(&mut self, id: CallId, call: KeptCall) -> Result<(), NoMemory>
        requires { IsHistory (self.old.history ++ Begin (next_id (rows_in self.old.numbers.items) id.process) (kept_call call) ∷ []) }
        ensures { OnOk result (Begins (part_in self.old) id (kept_call call) (part_in self.new)) }
    {
        let process = id.process;
        let number = push_number(&mut self.numbers, id)?;
        self.history.push_begin(CallId { process, number }, call)?;
        Ok(())
    }

    /// The last call of its process ends, which has this name in the whole history.
    pub(crate) fn end(&mut self, id: CallId, reply: KeptReply) -> Result<(), NoMemory>
        requires { IsHistory (self.old.history ++ End (last_id (rows_in self.old.numbers.items) id.process) (kept_reply reply) ∷ []) }
        ensures { OnOk result (Ends (part_in self.old) id (kept_reply reply) (part_in self.new)) }
    {
        let process = id.process;
        let number = count_of(self.numbers.as_slice(), process);
        self.history.push_end(CallId { process, number }, reply)?;
        Ok(())
    }
}
