//! The body of one call on a program's tree.

ghost use Rattle.std.specs.Prelude.{◌≡◌, IfOk, slice_index_or, true, pos};
ghost use Rattle.ob_tree_law.specs.TreeEngine.{tree_empty};

use crate::frame_places::Frames;
use ob_code_words::stack::Stack;
use ob_interface::NoMemory;
use ob_tree_tasks::WorkList;
use std::alloc::Global;
use std::marker::Model;

/// The body of one call: its stack, its work list and the frames of its callers are reserved once, and no call but `new` takes memory.
#[derive(Drop)]
pub struct TreeRun<'a> {
    pub(crate) stack: Stack,
    pub(crate) work: WorkList<'a>,
    pub(crate) frames: Frames,
    pub(crate) fp: usize,
    pub(crate) turns: u32,
    pub(crate) is_over: bool,
}

impl<'a> Model for TreeRun<'a> {
    ghost use Rattle.ob_tree.specs.Runs.{coded_run, tree_run_view};
    ghost use Rattle.ob_tree_law.specs.TreeEngine.{TreeRun};

    ghost Value = { TreeRun };

    ghost coded = { coded_run };

    ghost view = { λ r. tree_run_view r.stack r.work r.fp r.frames r.turns r.is_over };
}

impl<'a> TreeRun<'a> {
    /// A body that is over, with room for so many words and so many tasks.
    pub fn new(alloc: Global, stack_words: u32, tasks: usize) -> Result<TreeRun<'a>, NoMemory>
        ensures { IfOk result (λ r. r ≡ record { reserve = stack_words; room = tasks; is_over = true; body = tree_empty }) }
    {
        Ok(TreeRun {
            stack: Stack::new(alloc, stack_words)?,
            work: WorkList::new(alloc, tasks)?,
            frames: Frames::new(alloc)?,
            fp: 0,
            turns: 0,
            is_over: true,
        })
    }

    /// The word of a result of a body that has returned; 0 where there is none.
    pub fn result(&self, i: usize) -> i64
        ensures { result ≡ slice_index_or self.now.body.stack i (pos 0) }
    {
        if i < self.stack.height() {
            return self.stack.word(i);
        }
        0
    }
}
