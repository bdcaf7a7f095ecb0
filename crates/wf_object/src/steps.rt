//! The rows of the table, one function each. Each changes the cell in at most one way, and the record of its process.

ghost use Rattle.std.specs.Prelude.{◌≡◌, ◌+◌, ◌*◌, ◌<◌, ◌≤◌, length, true};
ghost use Rattle.wf_table.specs.StepTable.{mine, fetch, save, enter, undo, keep, commit, kept_word, row, or_past, part, cell_after, post, flip, try};
ghost use Rattle.wf_table.specs.StepTable.{links, load, store, check, seen, read, take_reply, after_body, body_step, toggle_in, own_block, block_words};
ghost use Rattle.wf_table.specs.StepTable.{inverted};
ghost use Rattle.wf_table.specs.Ranges.{IsSized, IsShaped, IsInRange};
ghost use Rattle.wf_table.specs.Toggles.{StoresBit};
ghost use Rattle.wf_object.specs.Packed.{packed};
ghost use Rattle.wf_object.specs.Quiet.{is_quiet};
ghost use Rattle.wf_table.specs.declared.process.Label.TheVariants.{Post, Load, Store, Fetch, Save, Enter, Undo, Keep, Take};

use crate::bodies::step_body;
use crate::engine::Engine;
use crate::process::Process;
use ll_cell::Shared;
use wf_table::{EngineTurn, Label, Sizes};

#[inline(always)]
pub fn post<R>(z: Sizes, shared: &mut Shared, q: &mut Process<R>, p: usize)
    requires sized { IsSized z }
    requires shaped { IsShaped z shared.old.cell }
    requires packed { shared.old.form ≡ packed z }
    requires process { p < z.processes }
    requires in_range { IsInRange z q.old }
    requires label { q.old.label ≡ Post }
    ensures cell { shared.new.cell ≡ cell_after shared.old.cell p (post z q.old).change }
    ensures form { shared.new.form ≡ shared.old.form }
    ensures process { q.new ≡ (post z q.old).process }
{
    let i = q.registers.i;
    shared.write_announce(p, i, q.list[i]);
    q.registers.i = i + 1;
    if i + 1 == z.arguments {
        q.label = Label::Flip;
    }
}

#[inline(always)]
pub fn flip<R>(z: Sizes, shared: &mut Shared, q: &mut Process<R>, p: usize)
    requires sized { IsSized z }
    requires shaped { IsShaped z shared.old.cell }
    requires packed { shared.old.form ≡ packed z }
    requires process { p < z.processes }
    ensures cell { shared.new.cell ≡ cell_after shared.old.cell p (flip z shared.old.cell p q.old).change }
    ensures form { shared.new.form ≡ shared.old.form }
    ensures process { q.new ≡ (flip z shared.old.cell p q.old).process }
{
    let toggle = shared.read_announce(p, z.arguments);
    shared.write_announce(p, z.arguments, turned(toggle));
    q.registers.round = 0;
    q.label = Label::Try;
}

fn turned(toggle: i64) -> i64
    ensures { result ≡ inverted toggle }
{
    if toggle == 0 { 1 } else { 0 }
}

#[inline(always)]
pub fn try_round<R>(q: &mut Process<R>)
    requires { q.old.registers.round ≤ 2 }
    ensures process { q.new ≡ (try q.old).process }
{
    if q.registers.round == 2 {
        q.label = Label::Read;
    } else {
        q.registers.round += 1;
        q.label = Label::Link;
    }
}

#[inline(always)]
pub fn link<R>(shared: &mut Shared, q: &mut Process<R>, p: usize)
    requires { p < length shared.old.cell.linked }
    ensures cell { shared.new.cell ≡ cell_after shared.old.cell p (links shared.old.cell q.old).change }
    ensures form { shared.new.form ≡ shared.old.form }
    ensures process { q.new ≡ (links shared.old.cell q.old).process }
{
    q.registers.r = shared.load_linked(p);
    q.registers.i = 0;
    q.label = Label::Load;
}

#[inline(always)]
pub fn load<R>(z: Sizes, shared: &Shared, q: &mut Process<R>)
    requires shaped { IsShaped z shared.now.cell }
    requires in_range { IsInRange z q.old }
    requires label { q.old.label ≡ Load }
    ensures { q.new ≡ (load shared.now.cell q.old).process }
{
    q.registers.acc = shared.read_word(q.registers.r, q.registers.i);
    q.label = Label::Store;
}

#[inline(always)]
pub fn store<R>(z: Sizes, shared: &mut Shared, q: &mut Process<R>, p: usize)
    requires sized { IsSized z }
    requires shaped { IsShaped z shared.old.cell }
    requires packed { shared.old.form ≡ packed z }
    requires process { p < z.processes }
    requires in_range { IsInRange z q.old }
    requires label { q.old.label ≡ Store }
    requires stores_bit { StoresBit z q.old }
    ensures cell { shared.new.cell ≡ cell_after shared.old.cell p (store z q.old).change }
    ensures form { shared.new.form ≡ shared.old.form }
    ensures process { q.new ≡ (store z q.old).process }
{
    let i = q.registers.i;
    shared.write_word(p, i, q.registers.acc);
    q.registers.i = i + 1;
    q.label = if i + 1 == block_length(z) {
        Label::Check1
    } else {
        Label::Load
    };
}

#[inline(always)]
pub fn block_length(z: Sizes) -> usize
    requires { IsSized z }
    ensures { result ≡ block_words z }
{
    z.variables + z.processes * (z.replies + 2)
}

#[inline(always)]
pub fn check<R>(shared: &Shared, q: &mut Process<R>, p: usize, passed: Label)
    requires { p < length shared.now.cell.linked }
    ensures { q.new ≡ (check passed shared.now.cell p q.old).process }
{
    if shared.validate(p) {
        q.registers.i = 0;
        q.label = passed;
    } else {
        q.label = Label::Try;
    }
}

#[inline]
pub fn body<E: Engine>(engine: &E, z: Sizes, shared: &mut Shared, q: &mut Process<E::Run>, p: usize)
    requires sized { IsSized z }
    requires shaped { IsShaped z shared.old.cell }
    requires packed { shared.old.form ≡ packed z }
    requires process { p < z.processes }
    requires variables { z.variables ≡ (E.meaning engine.now).variables }
    requires ready { E.ready engine.now q.old.run }
    ensures cell { shared.new.cell ≡ cell_after shared.old.cell p (body_step (E.meaning engine.now) z shared.old.cell p q.old).change }
    ensures form { shared.new.form ≡ shared.old.form }
    ensures process { q.new ≡ (body_step (E.meaning engine.now) z shared.old.cell p q.old).process }
{
    let turn = step_body(engine, z, shared, &mut q.run, p);
    leave_body(z, q, turn);
}

/// Leaves the body where it has ended, by what its step answers.
#[inline(always)]
pub fn leave_body<R>(z: Sizes, q: &mut Process<R>, turn: EngineTurn)
    ensures { q.new ≡ after_body z turn q.old }
{
    match turn {
        EngineTurn::On | EngineTurn::Stuck => {}
        EngineTurn::Returned => {
            q.registers.i = 0;
            q.registers.status = 0;
            q.label = Label::Keep;
        }
        EngineTurn::Trapped(k) => {
            q.registers.i = 0;
            q.registers.status = i64::from(k);
            q.label = if z.variables == 0 {
                Label::Keep
            } else {
                Label::Undo
            };
        }
    }
}

#[inline(always)]
pub fn mine<R>(z: Sizes, shared: &Shared, q: &mut Process<R>, p: usize)
    requires sized { IsSized z }
    requires shaped { IsShaped z shared.now.cell }
    requires packed { shared.now.form ≡ packed z }
    requires process { p < z.processes }
    ensures { q.new ≡ (mine z shared.now.cell p q.old).process }
{
    if own_toggle(z, shared, p, p) == shared.read_announce(p, z.arguments) {
        q.label = Label::Read;
    } else {
        q.registers.j = 0;
        q.label = Label::Seen;
    }
}

/// The toggle of process q in p's own block.
pub fn own_toggle(z: Sizes, shared: &Shared, p: usize, q: usize) -> i64
    requires sized { IsSized z }
    requires shaped { IsShaped z shared.now.cell }
    requires packed { shared.now.form ≡ packed z }
    requires process { p < z.processes }
    requires other { q < z.processes }
    ensures { result ≡ toggle_in z (own_block shared.now.cell p) q }
{
    shared.read_part(shared.own_block(p), q, z.replies + 1)
}

#[inline(always)]
pub fn seen<R>(z: Sizes, shared: &Shared, q: &mut Process<R>, p: usize)
    requires sized { IsSized z }
    requires shaped { IsShaped z shared.now.cell }
    requires packed { shared.now.form ≡ packed z }
    requires process { p < z.processes }
    requires in_range { q.old.registers.j ≤ z.processes }
    ensures { q.new ≡ (seen z shared.now.cell p q.old).process }
{
    let j = q.registers.j;
    if j == z.processes {
        q.label = Label::Commit;
    } else if shared.read_announce(j, z.arguments) == own_toggle(z, shared, p, j) {
        q.registers.j = j + 1;
    } else {
        q.registers.i = 0;
        q.label = Label::Fetch;
    }
}

#[inline(always)]
pub fn fetch<R>(z: Sizes, shared: &Shared, q: &mut Process<R>)
    requires sized { IsSized z }
    requires shaped { IsShaped z shared.now.cell }
    requires in_range { IsInRange z q.old }
    requires label { q.old.label ≡ Fetch }
    ensures { q.new ≡ (fetch z shared.now.cell q.old).process }
{
    let i = q.registers.i;
    q.list[i] = shared.read_announce(q.registers.j, i);
    q.registers.i = i + 1;
    if i + 1 == z.arguments {
        q.label = Label::Check2;
    }
}

#[inline(always)]
pub fn save<R>(z: Sizes, shared: &Shared, q: &mut Process<R>, p: usize)
    requires sized { IsSized z }
    requires shaped { IsShaped z shared.now.cell }
    requires process { p < z.processes }
    requires in_range { IsInRange z q.old }
    requires label { q.old.label ≡ Save }
    ensures { q.new ≡ (save z shared.now.cell p q.old).process }
{
    let i = q.registers.i;
    q.save[i] = shared.read_word(shared.own_block(p), i);
    q.registers.i = i + 1;
    if i + 1 == z.variables {
        q.label = Label::Enter;
    }
}

pub fn enter<E: Engine>(engine: &E, q: &mut Process<E::Run>)
    requires list { length q.old.list ≡ (E.meaning engine.now).arguments }
    requires ready { E.ready engine.now q.old.run }
    ensures { q.new ≡ (enter (E.meaning engine.now) q.old).process }
{
    engine.start(&mut q.run, &q.list);
    q.label = Label::Body;
}

pub fn undo<R>(z: Sizes, shared: &mut Shared, q: &mut Process<R>, p: usize)
    requires sized { IsSized z }
    requires shaped { IsShaped z shared.old.cell }
    requires packed { shared.old.form ≡ packed z }
    requires process { p < z.processes }
    requires in_range { IsInRange z q.old }
    requires label { q.old.label ≡ Undo }
    ensures cell { shared.new.cell ≡ cell_after shared.old.cell p (undo z q.old).change }
    ensures form { shared.new.form ≡ shared.old.form }
    ensures process { q.new ≡ (undo z q.old).process }
{
    let i = q.registers.i;
    shared.write_word(p, i, q.save[i]);
    if i + 1 == z.variables {
        q.registers.i = 0;
        q.label = Label::Keep;
    } else {
        q.registers.i = i + 1;
    }
}

/// The word that KEEP writes next: status, results, toggle.
fn word_kept<E: Engine>(engine: &E, z: Sizes, shared: &Shared, q: &Process<E::Run>, p: usize) -> i64
    requires sized { IsSized z }
    requires shaped { IsShaped z shared.now.cell }
    requires packed { shared.now.form ≡ packed z }
    requires process { p < z.processes }
    requires in_range { IsInRange z q.now }
    requires label { q.now.label ≡ Keep }
    requires replies { z.replies ≡ (E.meaning engine.now).replies }
    requires ready { E.ready engine.now q.now.run }
    ensures { result ≡ kept_word (E.meaning engine.now) z shared.now.cell p q.now }
{
    let i = q.registers.i;
    if i == 0 {
        q.registers.status
    } else if i == z.replies + 1 {
        turned(own_toggle(z, shared, p, q.registers.j))
    } else if q.registers.status == 0 {
        engine.result(&q.run, i - 1)
    } else {
        0
    }
}

#[inline(always)]
pub fn keep<E: Engine>(engine: &E, z: Sizes, shared: &mut Shared, q: &mut Process<E::Run>, p: usize)
    requires sized { IsSized z }
    requires shaped { IsShaped z shared.old.cell }
    requires packed { shared.old.form ≡ packed z }
    requires process { p < z.processes }
    requires in_range { IsInRange z q.old }
    requires label { q.old.label ≡ Keep }
    requires replies { z.replies ≡ (E.meaning engine.now).replies }
    requires ready { E.ready engine.now q.old.run }
    ensures cell { shared.new.cell ≡ cell_after shared.old.cell p (keep (E.meaning engine.now) z shared.old.cell p q.old).change }
    ensures form { shared.new.form ≡ shared.old.form }
    ensures process { q.new ≡ (keep (E.meaning engine.now) z shared.old.cell p q.old).process }
{
    let w = word_kept(engine, z, shared, q, p);
    let i = q.registers.i;
    shared.write_part(p, q.registers.j, i, w);
    if i + 1 == z.replies + 2 {
        q.registers.i = 0;
        q.registers.j += 1;
        q.label = Label::Seen;
    } else {
        q.registers.i = i + 1;
    }
}

pub fn commit<R>(shared: &mut Shared, q: &mut Process<R>, p: usize)
    requires links { p < length shared.old.cell.linked }
    requires owns { p < length shared.old.cell.own }
    ensures cell { shared.new.cell ≡ cell_after shared.old.cell p (commit shared.old.cell p q.old).change }
    ensures form { shared.new.form ≡ shared.old.form }
    ensures process { q.new ≡ (commit shared.old.cell p q.old).process }
{
    q.label = if shared.store_conditional(p) {
        Label::Read
    } else {
        Label::Try
    };
}

#[inline(always)]
pub fn read<R>(shared: &Shared, q: &mut Process<R>)
    ensures { q.new ≡ (read shared.now.cell q.old).process }
{
    q.registers.r = shared.root();
    q.registers.i = 0;
    q.label = Label::Take;
}

#[inline(always)]
pub fn take_reply<R>(z: Sizes, shared: &Shared, q: &mut Process<R>, p: usize)
    requires sized { IsSized z }
    requires shaped { IsShaped z shared.now.cell }
    requires packed { shared.now.form ≡ packed z }
    requires process { p < z.processes }
    requires in_range { IsInRange z q.old }
    requires label { q.old.label ≡ Take }
    ensures { q.new ≡ (take_reply z shared.now.cell p q.old).process }
{
    let i = q.registers.i;
    q.replies[i] = shared.read_part(q.registers.r, p, i);
    q.registers.i = i + 1;
    if i + 1 == z.replies + 1 {
        q.label = Label::Give;
    }
}

/// The row behind the second check: a loop of no words takes no step.
#[inline(always)]
pub fn behind_fetch(z: Sizes) -> Label
    ensures { result ≡ or_past z.variables Save Enter }
{
    if z.variables == 0 {
        Label::Enter
    } else {
        Label::Save
    }
}

/// One step of the process on the cell, at a label that shows nothing.
#[inline(always)]
pub fn act<E: Engine>(engine: &E, z: Sizes, shared: &mut Shared, q: &mut Process<E::Run>, p: usize)
    requires sized { IsSized z }
    requires shaped { IsShaped z shared.old.cell }
    requires packed { shared.old.form ≡ packed z }
    requires process { p < z.processes }
    requires in_range { IsInRange z q.old }
    requires quiet { is_quiet q.old.label ≡ true }
    requires variables { z.variables ≡ (E.meaning engine.now).variables }
    requires replies { z.replies ≡ (E.meaning engine.now).replies }
    requires arguments { z.arguments ≡ (E.meaning engine.now).arguments }
    requires ready { E.ready engine.now q.old.run }
    requires stores_bit { StoresBit z q.old }
    ensures cell { shared.new.cell ≡ cell_after shared.old.cell p (row q.old.label (E.meaning engine.now) z shared.old.cell p q.old).change }
    ensures form { shared.new.form ≡ shared.old.form }
    ensures process { q.new ≡ (row q.old.label (E.meaning engine.now) z shared.old.cell p q.old).process }
{
    match q.label {
        Label::Post => post(z, shared, q, p),
        Label::Flip => flip(z, shared, q, p),
        Label::Try => try_round(q),
        Label::Link => link(shared, q, p),
        Label::Load => load(z, shared, q),
        Label::Store => store(z, shared, q, p),
        Label::Check1 => check(shared, q, p, Label::Mine),
        Label::Mine => mine(z, shared, q, p),
        Label::Seen => seen(z, shared, q, p),
        Label::Fetch => fetch(z, shared, q),
        Label::Check2 => check(shared, q, p, behind_fetch(z)),
        Label::Save => save(z, shared, q, p),
        Label::Enter => enter(engine, q),
        Label::Body => body(engine, z, shared, q, p),
        Label::Undo => undo(z, shared, q, p),
        Label::Keep => keep(engine, z, shared, q, p),
        Label::Read => read(shared, q),
        Label::Take => take_reply(z, shared, q, p),
        // These show something: `show_step` takes them.
        Label::Next | Label::Commit | Label::Give => {}
    }
}
