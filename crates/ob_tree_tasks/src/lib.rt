//! The work list of the engine over a program's tree: its tasks, and how silent ones give way to their parts.
#![tactic(auto)]

pub mod expressions;
pub mod scopes;
pub mod silent_tasks;
pub mod statements;
pub mod task;
pub mod work_list;

pub use scopes::Scopes;
pub use silent_tasks::open;
pub use task::Task;
pub use work_list::WorkList;
