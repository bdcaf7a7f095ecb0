//! Steps of one process in a row of which nothing but their turns is noted.

ghost use Rattle.std.specs.Prelude.{◌≡◌, ◌+◌, ◌<◌, ◌≤◌, ◌^◌};
ghost use Rattle.wf_object.specs.Packed.{packed};
ghost use Rattle.wf_object.specs.Progress.{AreUnmarked, IsInObject, by_rows, progress, progress_on};
ghost use Rattle.wf_table.specs.Ranges.{IsSized, IsShaped, IsInRange};
ghost use Rattle.wf_table.specs.Toggles.{StoresBit};
ghost use Rattle.wf_table.specs.declared.process.Label.TheVariants as Labels;

use crate::blocks::{load_words, save_words, words_ahead};
use crate::bodies::stay;
use crate::engine::Engine;
use crate::process::Process;
use crate::steps::{
    behind_fetch, check, enter, fetch, keep, link, load, mine, post, read, seen, store, take_reply,
    try_round, undo,
};
use ll_cell::Shared;
use wf_records::spent::{count_inside, count_outside};
use wf_table::{Label, Sizes, Spent};

/// Steps of the process, at most so many, and how many they are: where it stands at POST, READ or TAKE those at these labels, up to the
/// first at another one; else those up to the first at one of these labels, the first of which more than its turn is noted, or a LOAD
/// where there is room for one alone. The former are few and short, and are put in where they are taken; the others stand apart.
#[inline(always)]
pub fn take_rows<E: Engine>(
    engine: &E,
    z: Sizes,
    shared: &mut Shared,
    q: &mut Process<E::Run>,
    spent: &mut Spent,
    p: usize,
    most: u64,
) -> u64
    requires object { IsInObject (E.meaning engine.now) (E.lawful engine.now) (E.fits engine.now) (E.ready engine.now) z p (progress shared.old.cell q.old spent.old) }
    requires packed { shared.old.form ≡ packed z }
    requires room { spent.old.inside + most < 2 ^ 128 }
    ensures few { result ≤ most }
    ensures leads { progress shared.new.cell q.new spent.new ≡ by_rows (E.meaning engine.now) z p result (progress shared.old.cell q.old spent.old) }
    ensures form { shared.new.form ≡ shared.old.form }
    ensures unmarked { AreUnmarked (E.meaning engine.now) z p result (progress shared.old.cell q.old spent.old) }
{
    match q.label {
        Label::Post | Label::Read | Label::Take => {
            take_words(engine, z, shared, q, spent, p, most)
        }
        _ => take_many(engine, z, shared, q, spent, p, most),
    }
}

/// The same at POST, READ and TAKE alone.
#[inline(always)]
fn take_words<E: Engine>(
    engine: &E,
    z: Sizes,
    shared: &mut Shared,
    q: &mut Process<E::Run>,
    spent: &mut Spent,
    p: usize,
    most: u64,
) -> u64
    requires object { IsInObject (E.meaning engine.now) (E.lawful engine.now) (E.fits engine.now) (E.ready engine.now) z p (progress shared.old.cell q.old spent.old) }
    requires packed { shared.old.form ≡ packed z }
    ensures few { result ≤ most }
    ensures leads { progress shared.new.cell q.new spent.new ≡ by_rows (E.meaning engine.now) z p result (progress shared.old.cell q.old spent.old) }
    ensures form { shared.new.form ≡ shared.old.form }
    ensures unmarked { AreUnmarked (E.meaning engine.now) z p result (progress shared.old.cell q.old spent.old) }
{
    let mut count = 0;
    while count < most {
        match q.label {
            Label::Post => post(z, shared, q, p),
            Label::Read => read(shared, q),
            Label::Take => take_reply(z, shared, q, p),
            _ => break,
        }
        count += 1;
    }
    count_outside(spent, count);
    count
}

/// The same, but none at POST, READ and TAKE.
#[inline(never)]
fn take_many<E: Engine>(
    engine: &E,
    z: Sizes,
    shared: &mut Shared,
    q: &mut Process<E::Run>,
    spent: &mut Spent,
    p: usize,
    most: u64,
) -> u64
    requires object { IsInObject (E.meaning engine.now) (E.lawful engine.now) (E.fits engine.now) (E.ready engine.now) z p (progress shared.old.cell q.old spent.old) }
    requires packed { shared.old.form ≡ packed z }
    requires room { spent.old.inside + most < 2 ^ 128 }
    ensures few { result ≤ most }
    ensures leads { progress shared.new.cell q.new spent.new ≡ by_rows (E.meaning engine.now) z p result (progress shared.old.cell q.old spent.old) }
    ensures form { shared.new.form ≡ shared.old.form }
    ensures unmarked { AreUnmarked (E.meaning engine.now) z p result (progress shared.old.cell q.old spent.old) }
{
    let mut count = 0;
    let mut outside = 0;
    while count < most {
        let some = take_some(engine, z, shared, q, spent, &mut outside, p, most - count);
        if some == 0 {
            break;
        }
        count += some;
    }
    count_outside(spent, outside);
    count
}

/// Steps of the process from where it stands, at most so many, and how many they are: in a body those of the body, at LOAD those that
/// bring words over, else one; none at POST, READ and TAKE, and none where more than its turn is noted of the step. The label is
/// looked at once.
#[inline(always)]
fn take_some<E: Engine>(
    engine: &E,
    z: Sizes,
    shared: &mut Shared,
    q: &mut Process<E::Run>,
    spent: &mut Spent,
    outside: &mut u64,
    p: usize,
    most: u64,
) -> u64
    requires object { IsInObject (E.meaning engine.now) (E.lawful engine.now) (E.fits engine.now) (E.ready engine.now) z p (progress_on shared.old.cell q.old spent.old outside.old) }
    requires sized { IsSized z }
    requires shaped { IsShaped z shared.old.cell }
    requires packed { shared.old.form ≡ packed z }
    requires process { p < z.processes }
    requires in_range { IsInRange z q.old }
    requires stores_bit { StoresBit z q.old }
    requires room { spent.old.inside + most < 2 ^ 128 }
    requires room_outside { outside.old + most < 2 ^ 64 }
    requires some { 0 < most }
    ensures few { result ≤ most }
    ensures outside { outside.new ≤ outside.old + result }
    ensures leads { progress_on shared.new.cell q.new spent.new outside.new ≡ by_rows (E.meaning engine.now) z p result (progress_on shared.old.cell q.old spent.old outside.old) }
    ensures form { shared.new.form ≡ shared.old.form }
    ensures unmarked { AreUnmarked (E.meaning engine.now) z p result (progress_on shared.old.cell q.old spent.old outside.old) }
{
    match q.label {
        Label::Next | Label::Flip | Label::Commit | Label::Give => 0,
        Label::Post | Label::Read | Label::Take => 0,
        Label::Try => counted(outside, try_round(q)),
        Label::Link => counted(outside, link(shared, q, p)),
        Label::Load => load_some(engine, z, shared, q, spent, outside, p, most),
        Label::Store => counted(outside, store(z, shared, q, p)),
        Label::Check1 => counted(outside, check(shared, q, p, Label::Mine)),
        Label::Mine => counted(outside, mine(z, shared, q, p)),
        Label::Seen => counted(outside, seen(z, shared, q, p)),
        Label::Fetch => counted(outside, fetch(z, shared, q)),
        Label::Check2 => counted(outside, check(shared, q, p, behind_fetch(z))),
        Label::Save => save_some(engine, z, shared, q, spent, outside, p, most),
        Label::Enter => {
            enter(engine, q);
            spent.bodies += 1;
            *outside += 1;
            1
        }
        Label::Body => {
            let count = stay(engine, z, shared, q, p, most);
            count_inside(spent, count);
            count
        }
        Label::Undo => counted(outside, undo(z, shared, q, p)),
        Label::Keep => counted(outside, keep(engine, z, shared, q, p)),
    }
}

/// Words of the linked block are brought over, by LOAD and STORE each: of variables as many as there is room for as one move, else by
/// words; and how many steps these are.
#[inline(always)]
fn load_some<E: Engine>(
    engine: &E,
    z: Sizes,
    shared: &mut Shared,
    q: &mut Process<E::Run>,
    spent: &Spent,
    outside: &mut u64,
    p: usize,
    most: u64,
) -> u64
    requires object { IsInObject (E.meaning engine.now) (E.lawful engine.now) (E.fits engine.now) (E.ready engine.now) z p (progress_on shared.old.cell q.old spent.now outside.old) }
    requires sized { IsSized z }
    requires shaped { IsShaped z shared.old.cell }
    requires packed { shared.old.form ≡ packed z }
    requires process { p < z.processes }
    requires in_range { IsInRange z q.old }
    requires here { q.old.label ≡ Labels.Load }
    requires room_outside { outside.old + most < 2 ^ 64 }
    ensures few { result ≤ most }
    ensures outside { outside.new ≤ outside.old + result }
    ensures leads { progress_on shared.new.cell q.new spent.now outside.new ≡ by_rows (E.meaning engine.now) z p result (progress_on shared.old.cell q.old spent.now outside.old) }
    ensures form { shared.new.form ≡ shared.old.form }
    ensures unmarked { AreUnmarked (E.meaning engine.now) z p result (progress_on shared.old.cell q.old spent.now outside.old) }
{
    let words = words_ahead(z, q.registers.i, most / 2);
    if words == 0 {
        return copy_words(engine, z, shared, q, spent, outside, p, most);
    }
    load_words(z, shared, q, p, words);
    let steps = 2 * (words as u64);
    *outside += steps;
    steps
}

/// Words of the own block are saved, as many as there is room for as one move; and how many steps these are.
#[inline(always)]
fn save_some<E: Engine>(
    _engine: &E,
    z: Sizes,
    shared: &Shared,
    q: &mut Process<E::Run>,
    spent: &Spent,
    outside: &mut u64,
    p: usize,
    most: u64,
) -> u64
    requires sized { IsSized z }
    requires shaped { IsShaped z shared.now.cell }
    requires packed { shared.now.form ≡ packed z }
    requires process { p < z.processes }
    requires in_range { IsInRange z q.old }
    requires here { q.old.label ≡ Labels.Save }
    requires room_outside { outside.old + most < 2 ^ 64 }
    ensures few { result ≤ most }
    ensures outside { outside.new ≤ outside.old + result }
    ensures leads { progress_on shared.now.cell q.new spent.now outside.new ≡ by_rows (E.meaning _engine.now) z p result (progress_on shared.now.cell q.old spent.now outside.old) }
    ensures unmarked { AreUnmarked (E.meaning _engine.now) z p result (progress_on shared.now.cell q.old spent.now outside.old) }
{
    let words = words_ahead(z, q.registers.i, most);
    save_words(z, shared, q, p, words);
    let steps = words as u64;
    *outside += steps;
    steps
}

/// Words of the linked block are brought over, by LOAD and STORE each, while there is room for both; and how many steps these are.
#[inline(always)]
fn copy_words<E: Engine>(
    engine: &E,
    z: Sizes,
    shared: &mut Shared,
    q: &mut Process<E::Run>,
    spent: &Spent,
    outside: &mut u64,
    p: usize,
    most: u64,
) -> u64
    requires object { IsInObject (E.meaning engine.now) (E.lawful engine.now) (E.fits engine.now) (E.ready engine.now) z p (progress_on shared.old.cell q.old spent.now outside.old) }
    requires sized { IsSized z }
    requires packed { shared.old.form ≡ packed z }
    requires process { p < z.processes }
    requires room_outside { outside.old + most < 2 ^ 64 }
    ensures few { result ≤ most }
    ensures outside { outside.new ≤ outside.old + result }
    ensures leads { progress_on shared.new.cell q.new spent.now outside.new ≡ by_rows (E.meaning engine.now) z p result (progress_on shared.old.cell q.old spent.now outside.old) }
    ensures form { shared.new.form ≡ shared.old.form }
    ensures unmarked { AreUnmarked (E.meaning engine.now) z p result (progress_on shared.old.cell q.old spent.now outside.old) }
{
    let mut count = 0;
    while most - count > 1 && q.label == Label::Load {
        load(z, shared, q);
        store(z, shared, q, p);
        *outside += 2;
        count += 2;
    }
    count
}

/// One step outside bodies more, a row that was taken; and how many steps it is.
#[inline(always)]
fn counted(outside: &mut u64, _row: ()) -> u64
    requires { outside.old + 1 < 2 ^ 64 }
    ensures one { result ≡ 1 }
    ensures more { outside.new ≡ outside.old + 1 }
{
    *outside += 1;
    1
}
