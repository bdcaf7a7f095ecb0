//! The work of a procedure.

ghost use Rattle.std.specs.Prelude.{◌≡◌, map, option_copied, slice_get};
ghost use Rattle.ob_layout.specs.Layout.{parts_of};
ghost use Rattle.ob_code_scheme.specs.Types.{frame_scope};
ghost use Rattle.ob_checked.specs.View.{program_of};
ghost use Rattle.ob_tree.specs.Procedures.{AreSmallFrames};
ghost use Rattle.ob_tree_tasks.specs.WorkTasks.{HasRoomFor, with_tasks};
ghost use Rattle.ob_tree_law.specs.Work.{procedure_tasks};

use ob_checked::program::{Procedure, Program};
use ob_code_machine::Instr;
use ob_layout::Layout;
use ob_tree_tasks::{Scopes, Task, WorkList};

/// The procedure of a number, in the order of headings.
pub fn procedure_at(procedures: &[Procedure], number: usize) -> Option<&Procedure>
    ensures { option_copied result ≡ slice_get procedures.now number }
{
    procedures.get(number)
}

/// Puts the work of a procedure in front, by its number: FRAME, its statements, its end. Where there is no such procedure, nothing is left
/// to be done.
pub fn push_procedure<'a>(
    work: &mut WorkList<'a>,
    layout: &'a Layout,
    program: &'a Program,
    number: usize,
)
    requires room { HasRoomFor 3 work.old }
    requires frames { (parts_of layout.now).frames ≡ map frame_scope (program_of program.now).procedures }
    requires small { AreSmallFrames (program_of program.now).procedures }
    ensures { work.new ≡ with_tasks work.old (procedure_tasks (slice_get (program_of program.now).procedures number) work.old.tasks) }
{
    let Some(procedure) = procedure_at(program.procedures.as_slice(), number) else {
        work.clear();
        return;
    };
    let own = Scopes {
        layout,
        procedure: number,
    };
    let words = layout.words_from(number, procedure.parameters.len()) as u16;
    work.push(Task::Leaving);
    work.push(Task::All {
        own,
        statements: procedure.body.as_slice(),
    });
    work.push(Task::Instruction(Instr::Frame { words }));
}
