//! Where an object begins.

ghost use Rattle.std.specs.Prelude.{◌≡◌, ◌+◌, ◌<◌, ◌≤◌, ◌^◌, IfOk, IfErr, length};
ghost use Rattle.ll_cell.specs.Cell.{own_of, block_of, refill_own};
ghost use Rattle.wf_object.specs.Packed.{packed};
ghost use Rattle.ll_cell.specs.declared.fault.CellFault.TheVariants as Faults;
ghost use Rattle.wf_table.specs.Ranges.{IsSized};
ghost use Rattle.wf_table.specs.Start.{cell_at_start, IsIdle};
ghost use Rattle.wf_table.specs.Each.{Each};

use crate::engine::Engine;
use crate::process::Process;
use ll_cell::{CellFault, Shared};
use ob_interface::NoMemory;
use std::alloc::Global;
use wf_records::CallList;
use wf_table::{Label, Registers, Sizes};

/// The cell with these words in its root: they enter by process 0's own block and one exchange.
pub fn opened(alloc: Global, z: Sizes, block: &[i64]) -> Result<Shared, CellFault>
    requires sized { IsSized z }
    requires words { length block.now ≡ z.variables }
    ensures cell { IfOk result (λ shared. shared.cell ≡ cell_at_start z block.now) }
    ensures form { IfOk result (λ shared. shared.form ≡ packed z) }
    ensures memory { IfErr result (λ fault. fault ≡ Faults.NoMemory) }
{
    let mut shared = Shared::packed(
        alloc,
        z.processes,
        z.variables,
        z.replies + 2,
        z.arguments + 1,
    )?;
    fill(&mut shared, block);
    let _ = shared.load_linked(0);
    let _ = shared.store_conditional(0);
    Ok(shared)
}

/// Writes these words over the first ones of process 0's own block.
fn fill(shared: &mut Shared, block: &[i64])
    requires owns { 0 < length shared.old.cell.own }
    requires own { own_of shared.old.cell 0 < length shared.old.cell.blocks }
    requires words { length block.now ≤ shared.old.form.head }
    requires room { length block.now ≤ length (block_of shared.old.cell (own_of shared.old.cell 0)) }
    ensures cell { shared.new.cell ≡ refill_own shared.old.cell 0 block.now }
    ensures form { shared.new.form ≡ shared.old.form }
{
    shared.own_words(0, block.len()).copy_from_slice(block);
}

fn idle_process<E: Engine>(alloc: Global, engine: &E, z: Sizes) -> Result<Process<E::Run>, NoMemory>
    requires { z.arguments + z.replies + z.variables < 2 ^ 62 }
    ensures { IfOk result (IsIdle (E.ready engine.now) z) }
{
    Ok(Process {
        label: Label::Next,
        calls: CallList::new(alloc),
        begun: 0,
        registers: Registers {
            r: 0,
            acc: 0,
            i: 0,
            j: 0,
            round: 0,
            status: 0,
        },
        list: vec![in alloc; 0; z.arguments]?,
        replies: vec![in alloc; 0; z.replies + 1]?,
        save: vec![in alloc; 0; z.variables]?,
        run: engine.new_run(alloc)?,
    })
}

/// Processes that have no call yet.
pub fn idle<E: Engine>(
    alloc: Global,
    engine: &E,
    z: Sizes,
) -> Result<Vec<Process<E::Run>>, NoMemory>
    requires sized { IsSized z }
    ensures count { IfOk result (λ v. length v.items ≡ z.processes) }
    ensures idle { IfOk result (λ v. Each (λ _ q. IsIdle (E.ready engine.now) z q) v.items) }
{
    let mut v = Vec::new(alloc);
    for _p in 0..z.processes {
        v.push(idle_process(alloc, engine, z)?)?;
    }
    Ok(v)
}
