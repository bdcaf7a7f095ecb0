//! How statements give way to their parts: the last part is put first, and the first one is opened at once.

ghost use Rattle.std.specs.Prelude.{◌≡◌, ◌+◌, ◌≤◌, length};
ghost use Rattle.ob_checked.specs.View.{branches_in, otherwise_of, statement_of, statements_in};
ghost use Rattle.ob_layout.specs.Layout.{block_in};
ghost use Rattle.ob_code_scheme.specs.Types.{Scope};
ghost use Rattle.ob_tree_tasks.specs.Opening.{CanBeOpened, GivesWay, is_more};
ghost use Rattle.ob_tree_tasks.specs.Scoped.{own_in};
ghost use Rattle.ob_tree_tasks.specs.Tasks.{repeat_task, while_task};
ghost use Rattle.ob_tree_tasks.specs.WorkTasks.{HasRoom, before, with_first};
ghost use Rattle.ob_tree_law.specs.Work as Work;

use crate::expressions::{open_address, open_handing, open_value};
use crate::scopes::Scopes;
use crate::task::Task;
use crate::work_list::WorkList;
use ob_checked::program::{Branch, Expression, Statement};
use ob_code_machine::Instr;
use ob_layout::Layout;

/// A statement.
fn open_doing<'a>(
    work: &mut WorkList<'a>,
    layout: &'a Layout,
    own: Scopes<'a>,
    statement: &'a Statement,
)
    requires room { HasRoom work.old }
    requires fits { CanBeOpened (block_in layout.now) (with_first (Work.Doing (own_in own) (statement_of statement.now)) work.old) }
    ensures { GivesWay (block_in layout.now) (with_first (Work.Doing (own_in own.entry) (statement_of statement.now)) work.old) work.new }
{
    match statement {
        Statement::Assign { target, value } => {
            work.push(Task::Instruction(Instr::Put));
            work.push(Task::Value {
                own,
                expression: value,
            });
            open_address(work, layout, own, target);
        }
        Statement::Call { procedure, actuals } => {
            work.push(Task::Calling {
                procedure: *procedure,
                parameters: actuals.len(),
            });
            open_handing(work, layout, own, actuals.as_slice());
        }
        Statement::If {
            branches,
            otherwise,
        } => open_choosing(work, layout, own, branches.as_slice(), otherwise),
        Statement::While { condition, body } => {
            open_while(work, layout, own, condition, body.as_slice());
        }
        Statement::Repeat { body, condition } => {
            open_repeat(work, layout, own, body.as_slice(), condition);
        }
    }
}

/// WHILE: its condition first.
pub fn open_while<'a>(
    work: &mut WorkList<'a>,
    layout: &'a Layout,
    own: Scopes<'a>,
    condition: &'a Expression,
    body: &'a [Statement],
)
    requires room { HasRoom work.old }
    requires fits { CanBeOpened (block_in layout.now) (with_first (while_task (own_in own) condition.now body.now) work.old) }
    ensures { GivesWay (block_in layout.now) (with_first (while_task (own_in own.entry) condition.now body.now) work.old) work.new }
{
    work.push(Task::Looping {
        own,
        condition,
        body,
    });
    open_value(work, layout, own, condition);
}

/// REPEAT: a turn, its statements, and then its condition.
#[inline(never)]
pub fn open_repeat<'a>(
    work: &mut WorkList<'a>,
    layout: &'a Layout,
    own: Scopes<'a>,
    body: &'a [Statement],
    condition: &'a Expression,
)
    requires room { HasRoom work.old }
    requires fits { CanBeOpened (block_in layout.now) (with_first (repeat_task (own_in own) body.now condition.now) work.old) }
    ensures { GivesWay (block_in layout.now) (with_first (repeat_task (own_in own.entry) body.now condition.now) work.old) work.new }
{
    let _frames = layout;
    work.push(Task::Until {
        own,
        body,
        condition,
    });
    work.push(Task::Value {
        own,
        expression: condition,
    });
    work.push(Task::All {
        own,
        statements: body,
    });
    work.push(Task::Taking);
}

/// Statements one after the other.
#[inline(never)]
pub fn open_all<'a>(
    work: &mut WorkList<'a>,
    layout: &'a Layout,
    own: Scopes<'a>,
    statements: &'a [Statement],
)
    requires room { HasRoom work.old }
    requires fits { CanBeOpened (block_in layout.now) (with_first (Work.All (own_in own) (statements_in statements.now)) work.old) }
    ensures { GivesWay (block_in layout.now) (with_first (Work.All (own_in own.entry) (statements_in statements.now)) work.old) work.new }
{
    let Some((statement, rest)) = statements.split_first() else {
        return;
    };
    leave_statements(work, own, rest);
    open_doing(work, layout, own, statement);
}

/// The statements that are left, where there are some.
fn leave_statements<'a>(work: &mut WorkList<'a>, own: Scopes<'a>, statements: &'a [Statement])
    requires { HasRoom work.old }
    ensures left { work.new ≡ before (Work.all_left (own_in own.entry) (statements_in statements.now)) work.old }
    ensures few { length work.new.tasks ≤ length work.old.tasks + 1 }
{
    if !statements.is_empty() {
        work.push(Task::All { own, statements });
    }
}

/// What stands behind ELSE, where it stands.
fn open_otherwise<'a>(
    work: &mut WorkList<'a>,
    own: Scopes<'a>,
    otherwise: &'a Option<Vec<Statement>>,
)
    requires { HasRoom work.old }
    ensures { (globals : Scope) → work.new ≡ before (Work.choosing_parts globals (own_in own.entry) (otherwise_of otherwise.now)) work.old }
{
    if let Some(body) = otherwise {
        work.push(Task::All {
            own,
            statements: body.as_slice(),
        });
    }
}

/// The alternatives that are left.
#[inline(never)]
pub fn open_choosing<'a>(
    work: &mut WorkList<'a>,
    layout: &'a Layout,
    own: Scopes<'a>,
    branches: &'a [Branch],
    otherwise: &'a Option<Vec<Statement>>,
)
    requires room { HasRoom work.old }
    requires fits { CanBeOpened (block_in layout.now) (with_first (Work.Choosing (own_in own) (branches_in branches.now (otherwise_of otherwise.now))) work.old) }
    ensures { GivesWay (block_in layout.now) (with_first (Work.Choosing (own_in own.entry) (branches_in branches.now (otherwise_of otherwise.now))) work.old) work.new }
{
    match branches.split_first() {
        Some((branch, rest)) => {
            work.push(Task::Alternative {
                own,
                body: branch.body.as_slice(),
                branches: rest,
                otherwise,
            });
            open_value(work, layout, own, &branch.condition);
        }
        None => open_otherwise(work, own, otherwise),
    }
}

/// Whether an alternative or ELSE follows.
pub fn follows(branches: &[Branch], otherwise: &Option<Vec<Statement>>) -> bool
    ensures { result ≡ is_more (branches_in branches.now (otherwise_of otherwise.now)) }
{
    if branches.is_empty() {
        return otherwise.is_some();
    }
    true
}
