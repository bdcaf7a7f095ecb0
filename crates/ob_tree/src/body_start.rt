//! The start of a body on a program's tree.

ghost use Rattle.std.specs.Prelude.{◌≡◌, ◌≤◌, map, slice_get};
ghost use Rattle.ob_checked.specs.View.{program_of};
ghost use Rattle.ob_layout.specs.Layout.{parts_of};
ghost use Rattle.ob_code_scheme.specs.Layout.{variable_words};
ghost use Rattle.ob_code_scheme.specs.Types.{frame_scope};
ghost use Rattle.ob_tree.specs.Procedures.{AreSmallFrames};
ghost use Rattle.ob_tree.specs.Stepping.{HasRoomOf};
ghost use Rattle.ob_tree_law.specs.TreeEngine.{over_run, tree_entered};

use crate::body_run::TreeRun;
use crate::procedure_work::{procedure_at, push_procedure};
use ob_checked::program::Program;
use ob_code_machine::Argument;
use ob_code_machine::entering::{push_arguments, result_count};
use ob_layout::Layout;

impl<'a> TreeRun<'a> {
    /// Ends the body: it holds nothing.
    pub fn clear(&mut self, program: &Program)
        requires { HasRoomOf (program_of program.now) self.old }
        ensures { self.new ≡ over_run (program_of program.now) }
    {
        let _procedures = &program.procedures;
        self.stack.truncate(0);
        self.work.clear();
        self.frames.clear();
        self.fp = 0;
        self.turns = 0;
        self.is_over = true;
    }

    /// Starts a procedure, with a budget of turns; what the body held before is gone. Where there is no such procedure, or no room for
    /// results and arguments, the body is over.
    pub fn start(
        &mut self,
        program: &'a Program,
        layout: &'a Layout,
        number: usize,
        arguments: &[Argument],
        budget: u32,
    )
        requires frames { (parts_of layout.now).frames ≡ map frame_scope (program_of program.now).procedures }
        requires variables { (parts_of layout.now).variables ≡ (program_of program.now).variables }
        requires few { variable_words (program_of program.now).variables ≤ 4096 }
        requires small { AreSmallFrames (program_of program.now).procedures }
        requires room { HasRoomOf (program_of program.now) self.old }
        ensures { self.new ≡ tree_entered (program_of program.now) budget number (slice_get (program_of program.now).procedures number) arguments.now }
    {
        self.clear(program);
        if procedure_at(program.procedures.as_slice(), number).is_none() {
            return;
        }
        let results = result_count(arguments);
        if self.stack.room() < arguments.len() || self.stack.room() - arguments.len() < results {
            return;
        }
        self.stack.push_zeros(results);
        push_arguments(&mut self.stack, layout.variable_words() as u32, arguments);
        push_procedure(&mut self.work, layout, program, number);
        self.fp = results;
        self.turns = budget;
        self.is_over = false;
    }
}
