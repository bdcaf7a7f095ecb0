//! Steps that show something. What is noted of one depends on the state before it alone.

ghost use Rattle.std.specs.Prelude.{◌≡◌, ℕ, ◌+◌, ◌^◌, ◌<◌, ◌≤◌, ◌++◌, ◌∷◌, [], IfOk, OnOk, OnErr, length, not, false, slice_get, slice_index, if◌then◌else◌};
ghost use Rattle.std.specs.Ordering.{int_eq};
ghost use Rattle.ll_cell.specs.Cell.{block_of, own_of};
ghost use Rattle.wf_table.specs.declared.process.Label.TheVariants as At;
ghost use Rattle.wf_table.specs.Each.{Each};
ghost use Rattle.wf_table.specs.StepTable.{own_block, toggle_in, next, give};
ghost use Rattle.wf_table.specs.Ranges.{IsSized, IsShaped, IsInRange};
ghost use Rattle.wf_table.specs.Scripts.{CallsFit};
ghost use Rattle.wf_table.specs.Object.{ended, began, applied, applied_ids, begun_of, history_after, noted, answer_by, answer_of, label_by, seen_of, step_of};
ghost use Rattle.wf_table.specs.Spent.{has_more, spent_after};
ghost use Rattle.wf_object.specs.Shown.{spent_by, state_of};
ghost use Rattle.wf_object.specs.View.{answer_in};
ghost use Rattle.wf_object.specs.Packed.{packed};
ghost use Rattle.wf_object.specs.Quiet.{is_quiet};
ghost use Rattle.wf_history.specs.History.{IsHistory};

use crate::engine::Engine;
use crate::process::Process;
use crate::steps::{commit, own_toggle};
use ll_cell::Shared;
use ob_interface::NoMemory;
use smallvec::SmallVec;
use std::alloc::Global;
use wf_history::{CallId, KeptCall, KeptReply};
use wf_records::spent::count_step;
use wf_records::{Records, StepOut};
use wf_table::{Label, Sizes, Spent};

/// Whether a step at the label shows nothing.
#[inline(always)]
pub fn is_quiet(label: Label) -> bool
    ensures { result ≡ is_quiet label }
{
    !matches!(label, Label::Next | Label::Commit | Label::Give)
}

/// Takes a step of the process that shows something: it is noted, and what it spends is counted. Nothing changes where memory runs out.
#[inline(always)]
pub fn show_step<E: Engine>(
    alloc: Global,
    engine: &E,
    z: Sizes,
    shared: &mut Shared,
    processes: &mut [Process<E::Run>],
    spent: &mut Spent,
    p: usize,
    records: &mut Records,
) -> Result<StepOut, NoMemory>
    requires sized { IsSized z }
    requires shaped { IsShaped z shared.old.cell }
    requires packed { shared.old.form ≡ packed z }
    requires count { length processes.old ≡ z.processes }
    requires process { p < z.processes }
    requires shows { is_quiet (label_by (slice_get processes.old p)) ≡ false }
    requires in_range { Each (λ _ q. IsInRange z q) processes.old }
    requires replies { z.replies ≡ (E.meaning engine.now).replies }
    requires arguments { z.arguments ≡ (E.meaning engine.now).arguments }
    requires fits { Each (λ _ q. CallsFit (E.fits engine.now) q) processes.old }
    requires flip_mark { p < length records.old.flip_marks }
    requires root_mark { own_of shared.old.cell p < length records.old.root_marks }
    requires in_turn { IsHistory (history_after records.old.history (seen_of (E.meaning engine.now) z shared.old.cell processes.old p)) }
    requires bodies { spent.old.bodies + 1 < 2 ^ 128 }
    requires inside { spent.old.inside + 1 < 2 ^ 128 }
    requires outside { spent.old.outside + 1 < 2 ^ 128 }
    ensures state { OnOk result (state_of shared.new.cell processes.new records.new ≡ step_of (E.meaning engine.now) z (state_of shared.old.cell processes.old records.old) p) }
    ensures form { shared.new.form ≡ shared.old.form }
    ensures spent { OnOk result (spent.new ≡ spent_by (slice_get processes.old p) spent.old) }
    ensures answer { IfOk result (λ out. answer_in out ≡ answer_of (E.meaning engine.now) z (state_of shared.old.cell processes.old records.old) p) }
    ensures no_cell { OnErr result (shared.new ≡ shared.old) }
    ensures no_process { OnErr result (processes.new ≡ processes.old) }
    ensures no_spent { OnErr result (spent.new ≡ spent.old) }
    ensures no_record { OnErr result (records.new ≡ records.old) }
{
    let process = &processes[p];
    match process.label {
        Label::Next => begin(alloc, engine, &mut processes[p], spent, p, records),
        Label::Give => give(alloc, engine, z, &mut processes[p], spent, p, records),
        _ => {
            apply(alloc, z, shared, processes, p, records)?;
            count_step(spent, Label::Commit, false);
            commit(shared, &mut processes[p], p);
            Ok(StepOut::On)
        }
    }
}

/// The next call of the script begins, where there is one.
#[inline(always)]
fn begin<E: Engine>(
    alloc: Global,
    engine: &E,
    q: &mut Process<E::Run>,
    spent: &mut Spent,
    p: usize,
    records: &mut Records,
) -> Result<StepOut, NoMemory>
    requires list { length q.old.list ≡ (E.meaning engine.now).arguments }
    requires begun { q.old.begun ≤ length q.old.calls }
    requires fits { CallsFit (E.fits engine.now) q.old }
    requires flip_mark { p < length records.old.flip_marks }
    requires in_turn { IsHistory (history_after records.old.history (began p q.old)) }
    requires bodies { spent.old.bodies + 1 < 2 ^ 128 }
    requires inside { spent.old.inside + 1 < 2 ^ 128 }
    requires outside { spent.old.outside + 1 < 2 ^ 128 }
    ensures process { OnOk result (q.new ≡ (next (E.meaning engine.now) q.old).process) }
    ensures spent { OnOk result (spent.new ≡ spent_after At.Next (has_more q.old) spent.old) }
    ensures records { OnOk result ((block : ℕ) → records.new ≡ noted records.old p At.Next block (began p q.old)) }
    ensures answer { IfOk result (λ out. answer_in out ≡ answer_by At.Next (began p q.old)) }
    ensures no_process { OnErr result (q.new ≡ q.old) }
    ensures no_spent { OnErr result (spent.new ≡ spent.old) }
    ensures no_record { OnErr result (records.new ≡ records.old) }
{
    if q.begun >= q.calls.len() {
        records.note_quiet(p, Label::Next)?;
        return Ok(StepOut::Halted);
    }
    let number = q.begun + 1;
    q.calls.bring_to_hand(number)?;
    let id = CallId {
        process: p,
        number: number as u64,
    };
    let call = KeptCall::keep(alloc, q.calls.at_hand())?;
    records.note_begin(p, id, call)?;
    count_step(spent, Label::Next, true);
    engine.lay(q.calls.at_hand(), &mut q.list);
    q.begun = number;
    q.registers.i = 0;
    q.label = Label::Post;
    Ok(StepOut::Began(id))
}

/// The open calls are applied whose toggles differ between the root and the own block, where the process is linked.
#[inline(always)]
fn apply<R>(
    alloc: Global,
    z: Sizes,
    shared: &Shared,
    processes: &[Process<R>],
    p: usize,
    records: &mut Records,
) -> Result<(), NoMemory>
    requires sized { IsSized z }
    requires shaped { IsShaped z shared.now.cell }
    requires packed { shared.now.form ≡ packed z }
    requires count { length processes.now ≡ z.processes }
    requires process { p < z.processes }
    requires flip_mark { p < length records.old.flip_marks }
    requires root_mark { own_of shared.now.cell p < length records.old.root_marks }
    requires in_turn { IsHistory (history_after records.old.history (applied z shared.now.cell processes.now p)) }
    ensures ok { OnOk result (records.new ≡ noted records.old p At.Commit (own_of shared.now.cell p) (applied z shared.now.cell processes.now p)) }
    ensures err { OnErr result (records.new ≡ records.old) }
{
    if !shared.validate(p) {
        records.note_quiet(p, Label::Commit)?;
        return Ok(());
    }
    let ids = applied_ids(alloc, z, shared, processes, p)?;
    records.note_commit(p, shared.own_block(p), ids)?;
    Ok(())
}

/// The open call ends with the reply that the reply list stands for.
#[inline(always)]
fn give<E: Engine>(
    alloc: Global,
    engine: &E,
    z: Sizes,
    q: &mut Process<E::Run>,
    spent: &mut Spent,
    p: usize,
    records: &mut Records,
) -> Result<StepOut, NoMemory>
    requires in_range { IsInRange z q.old }
    requires label { q.old.label ≡ At.Give }
    requires replies { z.replies ≡ (E.meaning engine.now).replies }
    requires fits { CallsFit (E.fits engine.now) q.old }
    requires in_turn { IsHistory (history_after records.old.history (ended (E.meaning engine.now) p q.old)) }
    requires bodies { spent.old.bodies + 1 < 2 ^ 128 }
    requires inside { spent.old.inside + 1 < 2 ^ 128 }
    requires outside { spent.old.outside + 1 < 2 ^ 128 }
    ensures process { OnOk result (q.new ≡ (give q.old).process) }
    ensures spent { OnOk result (spent.new ≡ spent_after At.Give (has_more q.old) spent.old) }
    ensures records { OnOk result (records.new ≡ noted records.old p At.Give 0 (ended (E.meaning engine.now) p q.old)) }
    ensures answer { IfOk result (λ out. answer_in out ≡ answer_by At.Give (ended (E.meaning engine.now) p q.old)) }
    ensures no_process { OnErr result (q.new ≡ q.old) }
    ensures no_spent { OnErr result (spent.new ≡ spent.old) }
    ensures no_record { OnErr result (records.new ≡ records.old) }
{
    q.calls.bring_to_hand(q.begun)?;
    let id = CallId {
        process: p,
        number: q.begun as u64,
    };
    let reply = engine.reply(q.calls.at_hand(), &q.replies);
    let kept = KeptReply::keep(alloc, &reply)?;
    records.note_end(p, id, kept)?;
    count_step(spent, Label::Give, false);
    q.label = Label::Next;
    Ok(StepOut::Answered(id, reply))
}

/// The processes whose toggles differ between the root and p's own block, with their open calls.
#[inline(always)]
fn applied_ids<R>(
    alloc: Global,
    z: Sizes,
    shared: &Shared,
    processes: &[Process<R>],
    p: usize,
) -> Result<SmallVec<CallId, 1>, NoMemory>
    requires sized { IsSized z }
    requires shaped { IsShaped z shared.now.cell }
    requires packed { shared.now.form ≡ packed z }
    requires count { length processes.now ≡ z.processes }
    requires process { p < z.processes }
    ensures { IfOk result (λ ids. ids.items ≡ applied_ids z (block_of shared.now.cell shared.now.cell.root) (own_block shared.now.cell p) (begun_of processes.now)) }
{
    let mut ids = SmallVec::new(alloc);
    for q in 0..z.processes {
        add_if(&mut ids, differs(z, shared, p, q), open_id(processes, q))?;
    }
    Ok(ids)
}

#[inline(always)]
fn open_id<R>(processes: &[Process<R>], q: usize) -> CallId
    requires { q < length processes.now }
    ensures { result ≡ record { process = q; number = slice_index (begun_of processes.now) q } }
{
    let other = &processes[q];
    CallId {
        process: q,
        number: other.begun as u64,
    }
}

#[inline(always)]
fn add_if(ids: &mut SmallVec<CallId, 1>, yes: bool, id: CallId) -> Result<(), NoMemory>
    ensures { OnOk result (ids.new.items ≡ ids.old.items ++ (if yes then id ∷ [] else [])) }
{
    if yes {
        ids.push(id)?;
    }
    Ok(())
}

/// Whether the toggle of q differs between the root and p's own block.
#[inline(always)]
fn differs(z: Sizes, shared: &Shared, p: usize, q: usize) -> bool
    requires sized { IsSized z }
    requires shaped { IsShaped z shared.now.cell }
    requires packed { shared.now.form ≡ packed z }
    requires process { p < z.processes }
    requires other { q < z.processes }
    ensures { result ≡ not (int_eq (toggle_in z (block_of shared.now.cell shared.now.cell.root) q) (toggle_in z (own_block shared.now.cell p) q)) }
{
    shared.read_part(shared.root(), q, z.replies + 1) != own_toggle(z, shared, p, q)
}
