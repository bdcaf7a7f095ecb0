//! How silent tasks give way to their parts.

ghost use Rattle.std.specs.Prelude.{◌≡◌, true};
ghost use Rattle.ob_layout.specs.Layout.{block_in};
ghost use Rattle.ob_tree_tasks.specs.Opening.{CanBeOpened, GivesWay, starts_silent};

use crate::expressions::{open_handing, open_operators, open_selecting, open_value};
use crate::statements::{open_all, open_choosing, open_repeat, open_while};
use crate::task::Task;
use crate::work_list::WorkList;
use ob_layout::Layout;

/// The silent task in front gives way to its parts. It stands apart from the steps that open nothing, which are most of them.
#[inline(never)]
pub fn open<'a>(work: &mut WorkList<'a>, layout: &'a Layout)
    requires silent { starts_silent work.old.tasks ≡ true }
    requires fits { CanBeOpened (block_in layout.now) work.old }
    ensures { GivesWay (block_in layout.now) work.old work.new }
{
    let Some(task) = work.pop() else {
        return;
    };
    match task {
        Task::Value { own, expression } => open_value(work, layout, own, expression),
        Task::Operators { own, operations } => open_operators(work, layout, own, operations),
        Task::Selecting {
            own,
            layout: types,
            data_type,
            selectors,
        } => open_selecting(work, layout, own, types, data_type, selectors),
        Task::Handing { own, actuals } => open_handing(work, layout, own, actuals),
        Task::While {
            own,
            condition,
            body,
        } => open_while(work, layout, own, condition, body),
        Task::Repeat {
            own,
            body,
            condition,
        } => open_repeat(work, layout, own, body, condition),
        Task::All { own, statements } => open_all(work, layout, own, statements),
        Task::Choosing {
            own,
            branches,
            otherwise,
        } => open_choosing(work, layout, own, branches, otherwise),
        _ => {}
    }
}
