//! How work is opened, until the task in front is not silent.

ghost use Rattle.std.specs.Prelude.{◌≡◌};
ghost use Rattle.ob_layout.specs.Layout.{block_in};
ghost use Rattle.ob_tree_tasks.specs.Opening.{CanBeOpened};
ghost use Rattle.ob_tree_tasks.specs.WorkTasks.{with_tasks};
ghost use Rattle.ob_tree_law.specs.Work.{opened};

use ob_layout::Layout;
use ob_tree_tasks::{WorkList, open};

/// Opens silent tasks in front, until there is none.
pub fn settle<'a>(work: &mut WorkList<'a>, layout: &'a Layout)
    requires { CanBeOpened (block_in layout.now) work.old }
    ensures { work.new ≡ with_tasks work.old (opened (block_in layout.now) work.old.tasks) }
{
    while work.is_silent() {
        open(work, layout);
    }
}
