//! The work list: tasks in memory that is reserved once.

ghost use Rattle.std.specs.Prelude.{◌≡◌, ◌<◌, ◌∷◌, [], length, IfOk, MatchOption};
ghost use Rattle.ob_tree_tasks.specs.Opening.{starts_silent};
ghost use Rattle.ob_tree_tasks.specs.Tasks.{task_of};
ghost use Rattle.ob_tree_tasks.specs.WorkTasks.{behind, with_tasks};

use crate::task::Task;
use std::alloc::{AllocError, Global};
use std::marker::Model;

/// The tasks below the count, the next one on top; what lies above is room.
#[derive(Drop)]
pub struct WorkList<'a> {
    tasks: Vec<Task<'a>>,
    count: usize,
}

impl<'a> Model for WorkList<'a> {
    ghost use Rattle.std.specs.Prelude.{◌≤◌, length};
    ghost use Rattle.ob_tree_tasks.specs.WorkTasks.{WorkTasks, coded_work};

    ghost Value = { WorkTasks };

    ghost coded = { coded_work };

    ghost use Rattle.ob_tree_tasks.specs.Tasks.{tasks_of};

    ghost view = { λ w. record { room = length w.tasks.items; tasks = tasks_of w.tasks.items w.count } };

    ghost invariant = { λ w. w.count ≤ length w.tasks.items };
}

impl<'a> WorkList<'a> {
    /// An empty list with room for so many tasks.
    pub fn new(alloc: Global, room: usize) -> Result<WorkList<'a>, AllocError>
        ensures { IfOk result (λ w. w ≡ record { room = room; tasks = [] }) }
    {
        Ok(WorkList {
            tasks: vec![in alloc; Task::Over; room]?,
            count: 0,
        })
    }

    /// Drops all tasks.
    pub fn clear(&mut self)
        ensures { self.new ≡ with_tasks self.old [] }
    {
        self.count = 0;
    }

    /// Puts a task in front.
    pub fn push(&mut self, task: Task<'a>)
        requires { length self.old.tasks < self.old.room }
        ensures { self.new ≡ with_tasks self.old (task_of task.entry ∷ self.old.tasks) }
    {
        self.tasks[self.count] = task;
        self.count += 1;
    }

    /// Takes the task in front.
    pub fn pop(&mut self) -> Option<Task<'a>>
        ensures { MatchOption result ((self.old.tasks ≡ []) × (self.new ≡ self.old)) (λ t. self.old ≡ with_tasks self.new (task_of t ∷ self.new.tasks)) }
    {
        if self.count == 0 {
            return None;
        }
        self.count -= 1;
        Some(self.tasks[self.count])
    }

    /// The task in front.
    pub fn first(&self) -> Option<&Task<'a>>
        ensures { MatchOption result (self.now.tasks ≡ []) (λ t. self.now.tasks ≡ task_of t.now ∷ behind self.now.tasks) }
    {
        if self.count == 0 {
            return None;
        }
        Some(&self.tasks[self.count - 1])
    }

    /// Whether the task in front is silent.
    pub fn is_silent(&self) -> bool
        ensures { result ≡ starts_silent self.now.tasks }
    {
        match self.first() {
            Some(task) => task.is_silent(),
            None => false,
        }
    }

    /// Drops the task in front.
    pub fn remove_first(&mut self)
        requires { 0 < length self.old.tasks }
        ensures { self.new ≡ with_tasks self.old (behind self.old.tasks) }
    {
        self.count -= 1;
    }
}
