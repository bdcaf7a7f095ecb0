//! The exports that change no variable of the module.

ghost use Rattle.std.specs.Prelude.{IfOk};
ghost use Rattle.std.specs.List.{AllZip};
ghost use Rattle.ob_checked.specs.CheckedModule.{program_in};
ghost use Rattle.ob_carry.specs.ReadOnly.{TellsReadOnly};
ghost use Rattle.ob_carry.specs.ReadOnlyExports.{AllKeep, SparesIf, exported};

use crate::spared::{is_told, spared_procedures};
use ob_checked::checked::Checked;
use ob_checked::program::Procedure;
use ob_interface::no_memory::NoMemory;
use std::alloc::Global;

/// What is told of procedures, of the exported ones alone.
fn told_of_exports(
    alloc: Global,
    procedures: &[Procedure],
    spared: &[bool],
) -> Result<Vec<bool>, NoMemory>
    ensures { IfOk result (λ told. AllKeep procedures.now spared.now → AllZip (SparesIf spared.now) (exported procedures.now) told.items) }
{
    let mut told = Vec::new(alloc);
    for (number, procedure) in procedures.iter().enumerate() {
        let spares = is_told(spared, number);
        if procedure.is_exported {
            told.push(spares)?;
        }
    }
    Ok(told)
}

/// Tells of each export, by its number, whether it is known to change no variable of the module.
pub fn read_only_exports(alloc: Global, checked: &Checked) -> Result<Vec<bool>, NoMemory>
    ensures { IfOk result (λ told. TellsReadOnly (program_in checked.now) told.items) }
{
    let procedures = checked.program().procedures.as_slice();
    let spared = spared_procedures(alloc, procedures)?;
    told_of_exports(alloc, procedures, spared.as_slice())
}
