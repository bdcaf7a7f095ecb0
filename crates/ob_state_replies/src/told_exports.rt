//! The exports whose reply depends on the state alone.

ghost use Rattle.std.specs.Prelude.{◌≡◌, IfOk, false, get_or};
ghost use Rattle.std.specs.List.{AllZip};
ghost use Rattle.ob_checked.specs.CheckedModule.{program_in};
ghost use Rattle.ob_carry.specs.ReadOnlyExports.{exported};
ghost use Rattle.ob_state_replies.specs.AnswersAndNotes.{KeepsIf};
ghost use Rattle.ob_state_replies.specs.StateReplies.{TellsStateReplies};

use crate::answers_and_notes::keeps_the_rule;
use ob_checked::checked::Checked;
use ob_checked::program::Procedure;
use ob_interface::no_memory::NoMemory;
use std::alloc::Global;

/// Tells of each exported procedure whether it keeps the rule.
fn told_of_exports(alloc: Global, procedures: &[Procedure]) -> Result<Vec<bool>, NoMemory>
    ensures { IfOk result (λ told. AllZip KeepsIf (exported procedures.now) told.items) }
{
    let mut told = Vec::new(alloc);
    for procedure in procedures {
        if procedure.is_exported {
            told.push(keeps_the_rule(procedure))?;
        }
    }
    Ok(told)
}

/// Tells of each export, by its number, whether its reply is known to depend on the state alone.
pub fn state_replies(alloc: Global, checked: &Checked) -> Result<Vec<bool>, NoMemory>
    ensures { IfOk result (λ told. TellsStateReplies (program_in checked.now) told.items) }
{
    let procedures = checked.program().procedures.as_slice();
    told_of_exports(alloc, procedures)
}

/// Whether it is told of an export; of one that has no row it isn't.
#[inline(always)]
pub fn is_told(told: &[bool], export: usize) -> bool
    ensures { result ≡ get_or told.now export false }
{
    match told.get(export) {
        Some(known) => *known,
        None => false,
    }
}
