//! What the task in front does.

ghost use Rattle.ob_typing.specs.Program.{Program};
ghost use Rattle.ob_checked.specs.View.{branches_in, expression_of, otherwise_of, statements_in};
ghost use Rattle.ob_tree.specs.Acting.{Decides, Does, DoesAlways, HasFirst};
ghost use Rattle.ob_tree_tasks.specs.Scoped.{own_in};
ghost use Rattle.ob_tree_law.specs.Work as Work;

use crate::body_run::TreeRun;
use crate::effects::effect_at_once;
use ob_checked::program::{Branch, Expression, Statement};
use ob_code_machine::Instr;
use ob_code_words::effect::Answer;
use ob_tree_tasks::statements::follows;
use ob_tree_tasks::{Scopes, Task};
use wf_object::EngineTurn;

impl<'a> TreeRun<'a> {
    /// An instruction that does not jump.
    #[inline(always)]
    pub(crate) fn compute(&mut self, instr: Instr, block: &mut [i64]) -> EngineTurn
        requires { HasFirst self.old }
        ensures { (program : Program) → Does program (Work.Instruction instr) result self.new block.new self.old block.old }
    {
        match effect_at_once(instr, self.fp, block, &mut self.stack) {
            Answer::Done => {
                self.work.remove_first();
                EngineTurn::On
            }
            Answer::Trap(number) => {
                self.is_over = true;
                EngineTurn::Trapped(number)
            }
            Answer::Stuck => EngineTurn::Stuck,
        }
    }

    /// Takes a turn.
    pub(crate) fn take_turn(&mut self) -> EngineTurn
        requires { HasFirst self.old }
        ensures { DoesAlways Work.Taking result self.new self.old }
    {
        if self.turns == 0 {
            self.is_over = true;
            return EngineTurn::Trapped(5);
        }
        self.turns -= 1;
        self.work.remove_first();
        EngineTurn::On
    }

    /// `&` and OR: where the word on top decides, it is the value; else the right side is.
    pub(crate) fn decide(
        &mut self,
        decides: i64,
        own: Scopes<'a>,
        right: &'a Expression,
    ) -> EngineTurn
        requires { HasFirst self.old }
        ensures { Decides decides (own_in own.entry) (expression_of right.now) result self.new self.old }
    {
        let Some(word) = self.stack.top() else {
            return EngineTurn::Stuck;
        };
        self.work.remove_first();
        if word != decides {
            let below = self.stack.height() - 1;
            self.stack.truncate(below);
            self.work.push(Task::Value {
                own,
                expression: right,
            });
        }
        EngineTurn::On
    }

    /// An alternative, on the value of its condition.
    pub(crate) fn choose(
        &mut self,
        own: Scopes<'a>,
        body: &'a [Statement],
        branches: &'a [Branch],
        otherwise: &'a Option<Vec<Statement>>,
    ) -> EngineTurn
        requires { HasFirst self.old }
        ensures { DoesAlways (Work.Alternative (own_in own.entry) (statements_in body.now) (branches_in branches.now (otherwise_of otherwise.now))) result self.new self.old }
    {
        let Some(word) = self.stack.top() else {
            return EngineTurn::Stuck;
        };
        let below = self.stack.height() - 1;
        self.stack.truncate(below);
        self.work.remove_first();
        if word == 0 {
            self.work.push(Task::Choosing {
                own,
                branches,
                otherwise,
            });
            return EngineTurn::On;
        }
        if follows(branches, otherwise) {
            self.work.push(Task::Over);
        }
        self.work.push(Task::All {
            own,
            statements: body,
        });
        EngineTurn::On
    }

    /// WHILE, on the value of its condition.
    pub(crate) fn go_round(
        &mut self,
        own: Scopes<'a>,
        condition: &'a Expression,
        body: &'a [Statement],
    ) -> EngineTurn
        requires { HasFirst self.old }
        ensures { DoesAlways (Work.Looping (own_in own.entry) (expression_of condition.now) (statements_in body.now)) result self.new self.old }
    {
        let Some(word) = self.stack.top() else {
            return EngineTurn::Stuck;
        };
        let below = self.stack.height() - 1;
        self.stack.truncate(below);
        self.work.remove_first();
        if word != 0 {
            self.work.push(Task::Again {
                own,
                condition,
                body,
            });
            self.work.push(Task::All {
                own,
                statements: body,
            });
            self.work.push(Task::Taking);
        }
        EngineTurn::On
    }

    /// The end of the statements of WHILE.
    pub(crate) fn go_back(
        &mut self,
        own: Scopes<'a>,
        condition: &'a Expression,
        body: &'a [Statement],
    ) -> EngineTurn
        requires { HasFirst self.old }
        ensures { DoesAlways (Work.Again (own_in own.entry) (expression_of condition.now) (statements_in body.now)) result self.new self.old }
    {
        self.work.remove_first();
        self.work.push(Task::While {
            own,
            condition,
            body,
        });
        EngineTurn::On
    }

    /// REPEAT, on the value of its condition.
    pub(crate) fn repeat(
        &mut self,
        own: Scopes<'a>,
        body: &'a [Statement],
        condition: &'a Expression,
    ) -> EngineTurn
        requires { HasFirst self.old }
        ensures { DoesAlways (Work.Until (own_in own.entry) (statements_in body.now) (expression_of condition.now)) result self.new self.old }
    {
        let Some(word) = self.stack.top() else {
            return EngineTurn::Stuck;
        };
        let below = self.stack.height() - 1;
        self.stack.truncate(below);
        self.work.remove_first();
        if word == 0 {
            self.work.push(Task::Repeat {
                own,
                body,
                condition,
            });
        }
        EngineTurn::On
    }

    /// The end of an alternative.
    pub(crate) fn pass_over(&mut self) -> EngineTurn
        requires { HasFirst self.old }
        ensures { DoesAlways Work.Over result self.new self.old }
    {
        self.work.remove_first();
        EngineTurn::On
    }

    /// The end of a procedure.
    pub(crate) fn leave(&mut self) -> EngineTurn
        requires { HasFirst self.old }
        ensures { DoesAlways Work.Leaving result self.new self.old }
    {
        if self.stack.height() < self.fp {
            return EngineTurn::Stuck;
        }
        self.stack.truncate(self.fp);
        match self.frames.pop() {
            Some(height) => {
                self.fp = height;
                self.work.remove_first();
                EngineTurn::On
            }
            None => {
                self.is_over = true;
                EngineTurn::Returned
            }
        }
    }
}
