//! The tasks of the engine over a program's tree.

use crate::scopes::Scopes;
use ob_checked::program::{Actual, Branch, Expression, Operation, Selector, Statement};
use ob_checked::types::DataType;
use ob_code_machine::Instr;
use ob_layout::Layout;

/// What is still to be done. Tasks over parts of the tree know the scopes that these stand in. Some are silent, and give way to tasks
/// over smaller parts; each other one does what one instruction of the code does.
#[derive(Clone, Copy)]
pub enum Task<'a> {
    /// Silent: the value of an expression.
    Value {
        own: Scopes<'a>,
        expression: &'a Expression,
    },
    /// Silent: operators and operands, behind the value of what stands before them.
    Operators {
        own: Scopes<'a>,
        operations: &'a [Operation],
    },
    /// Silent: from the address of something of a type, which the layout knows by its number, to that of a part of it.
    Selecting {
        own: Scopes<'a>,
        layout: &'a Layout,
        data_type: DataType,
        selectors: &'a [Selector],
    },
    /// Silent: the words that a call hands over.
    Handing {
        own: Scopes<'a>,
        actuals: &'a [Actual],
    },
    /// Silent: WHILE, from its condition on.
    While {
        own: Scopes<'a>,
        condition: &'a Expression,
        body: &'a [Statement],
    },
    /// Silent: REPEAT, from its turn on.
    Repeat {
        own: Scopes<'a>,
        body: &'a [Statement],
        condition: &'a Expression,
    },
    /// Silent: statements one after the other.
    All {
        own: Scopes<'a>,
        statements: &'a [Statement],
    },
    /// Silent: the alternatives of IF that are left, and ELSE where it stands.
    Choosing {
        own: Scopes<'a>,
        branches: &'a [Branch],
        otherwise: &'a Option<Vec<Statement>>,
    },
    /// An instruction that has an effect and does not jump.
    Instruction(Instr),
    /// `&`, on the value of the left side.
    AndThen {
        own: Scopes<'a>,
        right: &'a Expression,
    },
    /// OR, on the value of the left side.
    OrElse {
        own: Scopes<'a>,
        right: &'a Expression,
    },
    /// An alternative, on the value of its condition, and those behind it.
    Alternative {
        own: Scopes<'a>,
        body: &'a [Statement],
        branches: &'a [Branch],
        otherwise: &'a Option<Vec<Statement>>,
    },
    /// The end of an alternative behind which others stand.
    Over,
    /// WHILE, on the value of its condition.
    Looping {
        own: Scopes<'a>,
        condition: &'a Expression,
        body: &'a [Statement],
    },
    /// The end of its statements.
    Again {
        own: Scopes<'a>,
        condition: &'a Expression,
        body: &'a [Statement],
    },
    /// REPEAT, on the value of its condition.
    Until {
        own: Scopes<'a>,
        body: &'a [Statement],
        condition: &'a Expression,
    },
    /// A turn is taken.
    Taking,
    /// A call of a procedure, by its number, on the words handed over.
    Calling {
        procedure: usize,
        parameters: usize,
    },
    /// The end of a procedure.
    Leaving,
}

impl<'a> Task<'a> {
    ghost use Rattle.std.specs.Prelude.{◌≡◌};
    ghost use Rattle.ob_tree_tasks.specs.Opening.{is_silent};
    ghost use Rattle.ob_tree_tasks.specs.Tasks.{task_of};

    /// Whether it gives way to tasks over smaller parts.
    pub fn is_silent(&self) -> bool
        ensures { result ≡ is_silent (task_of self.now) }
    {
        matches!(
            self,
            Task::Value { .. }
                | Task::Operators { .. }
                | Task::Selecting { .. }
                | Task::Handing { .. }
                | Task::While { .. }
                | Task::Repeat { .. }
                | Task::All { .. }
                | Task::Choosing { .. }
        )
    }
}
