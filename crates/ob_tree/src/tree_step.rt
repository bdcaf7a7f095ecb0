//! One step of a body on a program's tree.

ghost use Rattle.std.specs.Prelude.{◌≡◌, ◌+◌, ◌≤◌, ℤ, List, length, map};
ghost use Rattle.ob_checked.specs.View.{program_of};
ghost use Rattle.ob_layout.specs.Layout.{block_in, parts_of};
ghost use Rattle.ob_code_scheme.specs.Types.{frame_scope, variables_scope};
ghost use Rattle.ob_tree.specs.Acting.{Does, DoesFirst, HasFirst};
ghost use Rattle.ob_tree.specs.Procedures.{AreSmallFrames};
ghost use Rattle.ob_tree.specs.Stepping.{CanStep};
ghost use Rattle.ob_tree_law.specs.TreeEngine.{tree_step};
ghost use Rattle.ob_tree_tasks.specs.Tasks.{task_of};
ghost use Rattle.ob_tree_law.specs.Work as Work;

use crate::body_run::TreeRun;
use crate::frame_places::Frames;
use crate::procedure_work::push_procedure;
use crate::settle::settle;
use ob_checked::program::Program;
use ob_layout::Layout;
use ob_tree_tasks::Task;
use wf_object::EngineTurn;

impl<'a> TreeRun<'a> {
    /// A call of a procedure: it begins below the words handed over.
    fn call(
        &mut self,
        program: &'a Program,
        layout: &'a Layout,
        number: usize,
        parameters: usize,
    ) -> EngineTurn
        requires first { HasFirst self.old }
        requires frames { (parts_of layout.now).frames ≡ map frame_scope (program_of program.now).procedures }
        requires small { AreSmallFrames (program_of program.now).procedures }
        ensures { (block : List ℤ) → Does (program_of program.now) (Work.Calling number parameters) result self.new block self.old block }
    {
        if self.frames.len() >= Frames::LIMIT {
            self.is_over = true;
            return EngineTurn::Trapped(4);
        }
        if self.turns == 0 {
            self.is_over = true;
            return EngineTurn::Trapped(5);
        }
        let height = self.stack.height();
        if height < parameters {
            return EngineTurn::Stuck;
        }
        self.turns -= 1;
        self.frames.push(self.fp);
        self.fp = height - parameters;
        self.work.remove_first();
        push_procedure(&mut self.work, layout, program, number);
        EngineTurn::On
    }

    /// What a task does that is in front. A silent one does nothing.
    #[inline(never)]
    fn act(
        &mut self,
        program: &'a Program,
        layout: &'a Layout,
        task: Task<'a>,
        block: &mut [i64],
    ) -> EngineTurn
        requires first { HasFirst self.old }
        requires frames { (parts_of layout.now).frames ≡ map frame_scope (program_of program.now).procedures }
        requires small { AreSmallFrames (program_of program.now).procedures }
        ensures { Does (program_of program.now) (task_of task.entry) result self.new block.new self.old block.old }
    {
        match task {
            Task::Instruction(instr) => self.compute(instr, block),
            Task::AndThen { own, right } => self.decide(0, own, right),
            Task::OrElse { own, right } => self.decide(1, own, right),
            Task::Alternative {
                own,
                body,
                branches,
                otherwise,
            } => self.choose(own, body, branches, otherwise),
            Task::Over => self.pass_over(),
            Task::Looping {
                own,
                condition,
                body,
            } => self.go_round(own, condition, body),
            Task::Again {
                own,
                condition,
                body,
            } => self.go_back(own, condition, body),
            Task::Until {
                own,
                body,
                condition,
            } => self.repeat(own, body, condition),
            Task::Taking => self.take_turn(),
            Task::Calling {
                procedure,
                parameters,
            } => self.call(program, layout, procedure, parameters),
            Task::Leaving => self.leave(),
            _ => EngineTurn::Stuck,
        }
    }

    /// What the task in front does. An instruction, as most are, is not copied with all that a task has room for.
    #[inline(always)]
    fn act_first(
        &mut self,
        program: &'a Program,
        layout: &'a Layout,
        block: &mut [i64],
    ) -> EngineTurn
        requires room { length self.old.body.work + 3 ≤ self.old.room }
        requires frames { (parts_of layout.now).frames ≡ map frame_scope (program_of program.now).procedures }
        requires small { AreSmallFrames (program_of program.now).procedures }
        ensures { DoesFirst (program_of program.now) result self.new block.new self.old block.old }
    {
        let Some(task) = self.work.first() else {
            return EngineTurn::Stuck;
        };
        match *task {
            Task::Instruction(instr) => self.compute(instr, block),
            task => self.act(program, layout, task, block),
        }
    }

    /// One step on a block: what one instruction of the code does. A body that is over is stuck. It stands in the loop that takes steps, so
    /// that an instruction is done and the next task looked at without a call.
    #[inline(always)]
    pub fn step(
        &mut self,
        program: &'a Program,
        layout: &'a Layout,
        block: &mut [i64],
    ) -> EngineTurn
        requires globals { block_in layout.now ≡ variables_scope (program_of program.now).variables }
        requires frames { (parts_of layout.now).frames ≡ map frame_scope (program_of program.now).procedures }
        requires small { AreSmallFrames (program_of program.now).procedures }
        requires ready { CanStep (program_of program.now) self.old }
        ensures { record { turn = result; run = self.new; block = block.new } ≡ tree_step (program_of program.now) self.old block.old }
    {
        if self.is_over {
            return EngineTurn::Stuck;
        }
        match self.act_first(program, layout, block) {
            EngineTurn::On => {
                settle(&mut self.work, layout);
                EngineTurn::On
            }
            turn => turn,
        }
    }
}
