//! The steps of one body in a row.

ghost use Rattle.std.specs.Prelude.{◌≡◌, ◌↔◌, IsTrue, List, length, map, option_copied, slice_get};
ghost use Rattle.std.specs.List.{range_with_len};
ghost use Rattle.ob_code_calls.specs.Calls.{asked, meaning_of};
ghost use Rattle.ob_code_correct.specs.Compiled.{HasReserve, IsFitting};
ghost use Rattle.ob_interface.specs.Call.{Answers};
ghost use Rattle.ob_interface.specs.View.{reply_of};
ghost use Rattle.ob_interface.specs.declared.scalar.Scalar as Scalars;
ghost use Rattle.wf_table.specs.Meaning.{kept, steps};

use crate::wanted_values::are_results;
use ob_code_engine::call_words::{lay, reply_in};
use ob_code_engine::{CodeEngine, Entrance};
use ob_code_machine::Body;
use ob_interface::call::Reply;
use ob_interface::scalar::Scalar;
use smallvec::SmallVec;
use std::alloc::Global;
use wf_object::Engine;
use wf_table::EngineTurn;

/// Begins the body of a call, by the words of which it is written in these.
#[inline(always)]
pub(crate) fn begin(
    engine: &CodeEngine,
    run: &mut Body,
    proc: usize,
    arguments: &[Scalar],
    words: &mut [i64],
)
    requires ready { HasReserve engine.now.parts run.old }
    requires fits { ∥ IsFitting engine.now.parts.exports (asked proc arguments.now) ∥₁ }
    requires room { length words.old ≡ (meaning_of engine.now.parts).arguments }
    ensures ready { HasReserve engine.now.parts run.new }
    ensures begun { run.new ≡ (meaning_of engine.now.parts).start ((meaning_of engine.now.parts).lay (asked proc arguments.now)) }
{
    // The exports stand in memory, so that their numbers are words.
    let _exports = engine.exports();
    lay(proc, arguments, words);
    engine.start(run, words);
}

/// Steps of a body on a block, at most so many, up to the first behind which it doesn't go on; what the last one answers, and how many
/// there were.
#[inline(always)]
pub(crate) fn run_on(
    engine: &CodeEngine,
    run: &mut Body,
    block: &mut [i64],
    most: u64,
) -> (EngineTurn, u64)
    requires ready { HasReserve engine.now.parts run.old }
    requires block { length block.old ≡ engine.now.parts.variables }
    ensures ready { HasReserve engine.now.parts run.new }
    ensures steps { record { turn = result.0; run = run.new; block = block.new } ≡ steps (meaning_of engine.now.parts) most run.old block.old }
{
    let (taken, turn) = engine.run_on(run, block, most);
    (turn, taken)
}

/// Writes the words of the results of a body that has returned.
fn note_results(engine: &CodeEngine, run: &Body, words: &mut [i64])
    requires ready { HasReserve engine.now.parts run.now }
    requires room { length words.old ≡ (meaning_of engine.now.parts).replies }
    ensures { words.new ≡ map ((meaning_of engine.now.parts).result run.now) (range_with_len 0 (meaning_of engine.now.parts).replies) }
{
    for place in 0..words.len() {
        words[place] = engine.result(run, place);
    }
}

/// The export of a number.
fn export_at(engine: &CodeEngine, proc: usize) -> Option<&Entrance>
    ensures { option_copied result ≡ slice_get engine.now.parts.exports proc }
{
    engine.exports().get(proc)
}

/// The reply to a call of an export whose body has returned.
pub(crate) fn reply_to(
    alloc: Global,
    engine: &CodeEngine,
    run: &Body,
    proc: usize,
    words: &mut [i64],
) -> Reply
    requires ready { HasReserve engine.now.parts run.now }
    requires room { length words.old ≡ (meaning_of engine.now.parts).replies }
    ensures { (arguments : List Scalars.Scalar)
        → reply_of result ≡ (meaning_of engine.now.parts).reply (asked proc arguments) (kept (meaning_of engine.now.parts) run.now) }
{
    note_results(engine, run, words);
    match export_at(engine, proc) {
        Some(export) => reply_in(alloc, export.parameters(), words),
        None => Reply::Done(SmallVec::new(alloc)),
    }
}

/// Whether a call of an export whose body has returned is answered by these values.
#[inline(always)]
pub(crate) fn has_replied(engine: &CodeEngine, run: &Body, proc: usize, values: &[Scalar]) -> bool
    requires { HasReserve engine.now.parts run.now }
    ensures { (arguments : List Scalars.Scalar) → IsTrue result
        ↔ ((meaning_of engine.now.parts).reply (asked proc arguments) (kept (meaning_of engine.now.parts) run.now) ≡ Answers values.now) }
{
    match export_at(engine, proc) {
        Some(export) => are_results(engine, run, export.parameters(), values),
        None => are_results(engine, run, &[], values),
    }
}
