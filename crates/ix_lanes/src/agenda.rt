//! The tasks of a lane that are left.
ghost use Rattle.std.specs.Prelude.{◌≡◌, [], ◌∷◌, drop, map, slice_get};
ghost use Rattle.std.specs.Option.{option_copied, option_map};
ghost use Rattle.ix_lanes.specs.Tasks.{kind_of};
ghost use Rattle.ix_lanes.specs.Views.{shown_task};

use crate::doing::Kind;
use crate::task::Task;
use std::marker::Model;

/// The tasks of a lane, and how many of them are over. Contracts see those that are left.
#[derive(Debug, Drop)]
pub(crate) struct Agenda {
    tasks: Vec<Task>,
    over: usize,
}

impl Model for Agenda {
    ghost use Rattle.std.specs.Prelude.{List, drop, map, ◌≤◌, length};
    ghost use Rattle.ix_lanes.specs.Tasks.{Task};
    ghost use Rattle.ix_lanes.specs.Views.{shown_task};

    ghost Value = { List Task };

    ghost view = { λ a. map shown_task (drop a.over a.tasks.items) };

    ghost invariant = { λ a. a.over ≤ length a.tasks.items };
}

impl Agenda {
    /// All tasks are left.
    pub(crate) fn new(tasks: Vec<Task>) -> Agenda
        ensures { result ≡ map shown_task tasks.items }
    {
        Agenda { tasks, over: 0 }
    }

    /// The task under way; None where none is left.
    pub(crate) fn first(&self) -> Option<&Task>
        ensures { option_map shown_task (option_copied result) ≡ slice_get self.now 0 }
    {
        self.tasks.get(self.over)
    }

    /// The kind of the task under way.
    pub(crate) fn kind(&self) -> Kind
        ensures { result ≡ kind_of self.now }
    {
        match self.first() {
            None => Kind::Ended,
            Some(task) => kind_of(task),
        }
    }

    /// The task under way is over.
    pub(crate) fn advance(&mut self)
        ensures { self.new ≡ drop 1 self.old }
    {
        if self.over < self.tasks.len() {
            self.over += 1;
        }
    }
}

/// The kind of a task.
fn kind_of(task: &Task) -> Kind
    ensures { result ≡ kind_of (shown_task task.now ∷ []) }
{
    match task {
        Task::Build(_) => Kind::Build,
        Task::Remove(_) => Kind::Remove,
        Task::Poll => Kind::Poll,
        Task::Refresh => Kind::Refresh,
        Task::Ask(_) => Kind::Ask,
        Task::Release => Kind::Release,
        Task::Collect => Kind::Collect,
    }
}
