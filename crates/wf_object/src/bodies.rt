//! Steps of one body in a row: nothing of a step but its instruction is done for each of them.

ghost use Rattle.std.specs.Prelude.{◌≡◌, ℕ, ◌<◌, ◌≤◌, take};
ghost use Rattle.ll_cell.specs.Cell.{refill_own};
ghost use Rattle.wf_object.specs.InBody.{body_behind, cell_behind, process_behind};
ghost use Rattle.wf_object.specs.Packed.{packed};
ghost use Rattle.wf_table.specs.declared.engine_turn.EngineTurn.TheVariants as Turn;
ghost use Rattle.wf_table.specs.Meaning.{steps};
ghost use Rattle.wf_table.specs.Ranges.{IsShaped};
ghost use Rattle.wf_table.specs.StepTable.{own_block};

use crate::engine::Engine;
use crate::process::Process;
use crate::steps::leave_body;
use ll_cell::Shared;
use wf_table::{EngineTurn, Sizes};

/// Steps of a body on the variables of p's own block, at most so many, up to the first behind which it doesn't go on: how many they
/// are, and what the last one answers.
fn run_on_own<E: Engine>(
    engine: &E,
    z: Sizes,
    shared: &mut Shared,
    run: &mut E::Run,
    p: usize,
    most: u64,
) -> (u64, EngineTurn)
    requires shaped { IsShaped z shared.old.cell }
    requires packed { shared.old.form ≡ packed z }
    requires process { p < z.processes }
    requires variables { z.variables ≡ (E.meaning engine.now).variables }
    requires ready { E.ready engine.now run.old }
    ensures few { result.0 ≤ most }
    ensures some { 0 < most → 0 < result.0 }
    ensures on { (j : ℕ) → j < result.0 → (steps (E.meaning engine.now) j run.old (take z.variables (own_block shared.old.cell p))).turn ≡ Turn.On }
    ensures cell { shared.new.cell ≡ refill_own shared.old.cell p (steps (E.meaning engine.now) result.0 run.old (take z.variables (own_block shared.old.cell p))).block }
    ensures form { shared.new.form ≡ shared.old.form }
    ensures run { run.new ≡ (steps (E.meaning engine.now) result.0 run.old (take z.variables (own_block shared.old.cell p))).run }
    ensures turn { result.1 ≡ (steps (E.meaning engine.now) result.0 run.old (take z.variables (own_block shared.old.cell p))).turn }
{
    let block = shared.own_words(p, z.variables);
    engine.steps(run, block, most)
}

/// One step of the body on the variables of p's own block: a row of one step, so that the engine is asked for steps at one place.
pub fn step_body<E: Engine>(
    engine: &E,
    z: Sizes,
    shared: &mut Shared,
    run: &mut E::Run,
    p: usize,
) -> EngineTurn
    requires shaped { IsShaped z shared.old.cell }
    requires packed { shared.old.form ≡ packed z }
    requires process { p < z.processes }
    requires variables { z.variables ≡ (E.meaning engine.now).variables }
    requires ready { E.ready engine.now run.old }
    ensures cell { shared.new.cell ≡ refill_own shared.old.cell p ((E.meaning engine.now).step run.old (take z.variables (own_block shared.old.cell p))).block }
    ensures form { shared.new.form ≡ shared.old.form }
    ensures run { run.new ≡ ((E.meaning engine.now).step run.old (take z.variables (own_block shared.old.cell p))).run }
    ensures turn { result ≡ ((E.meaning engine.now).step run.old (take z.variables (own_block shared.old.cell p))).turn }
{
    let (_count, turn) = run_on_own(engine, z, shared, run, p, 1);
    turn
}

/// Steps of the body in which the process stands, at most so many, up to the first behind which it doesn't go on; and how many
/// they are.
#[inline(always)]
pub fn stay<E: Engine>(
    engine: &E,
    z: Sizes,
    shared: &mut Shared,
    q: &mut Process<E::Run>,
    p: usize,
    most: u64,
) -> u64
    requires shaped { IsShaped z shared.old.cell }
    requires packed { shared.old.form ≡ packed z }
    requires process { p < z.processes }
    requires variables { z.variables ≡ (E.meaning engine.now).variables }
    requires ready { E.ready engine.now q.old.run }
    ensures few { result ≤ most }
    ensures some { 0 < most → 0 < result }
    ensures on { (j : ℕ) → j < result → (body_behind (E.meaning engine.now) z shared.old.cell p q.old j).turn ≡ Turn.On }
    ensures cell { shared.new.cell ≡ cell_behind (E.meaning engine.now) z shared.old.cell p q.old result }
    ensures form { shared.new.form ≡ shared.old.form }
    ensures process { q.new ≡ process_behind (E.meaning engine.now) z shared.old.cell p q.old result }
{
    let (count, turn) = run_on_own(engine, z, shared, &mut q.run, p, most);
    leave_body(z, q, turn);
    count
}
