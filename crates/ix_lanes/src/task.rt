//! The steps of a lane, each build with what its job writes.
ghost use Rattle.std.specs.Prelude.{◌≡◌, map, IfOk};
ghost use Rattle.std.specs.List.{AllByRecursion};
ghost use Rattle.ix_lanes.specs.Rules.{IsReady};
ghost use Rattle.ix_lanes.specs.Tasks.{task_of, tasks_of};
ghost use Rattle.ix_lanes.specs.Views.{shown_task};

use ix_jobs::JobPlan;
use ix_plan::Step;
use ix_types::{Memory, Naming, Query, Text};
use std::alloc::{AllocError, Global};

/// A step of a lane.
#[derive(Debug, Drop)]
pub(crate) enum Task {
    Build(JobPlan),
    Remove(Text),
    Poll,
    Refresh,
    Ask(Query),
    Release,
    Collect,
}

/// What each step asks of the lane.
pub(crate) fn tasks_of<N: Naming>(
    alloc: Global,
    steps: &[Step],
    naming: &N,
) -> Result<Vec<Task>, Memory>
    requires { AllByRecursion IsReady steps.now }
    ensures { IfOk result (λ tasks. map shown_task tasks.items ≡ tasks_of N.name_of steps.now) }
{
    let mut tasks = Vec::new(alloc);
    for step in steps {
        tasks.push(task_of(alloc, step, naming)?)?;
    }
    Ok(tasks)
}

/// What a step asks of the lane.
fn task_of<N: Naming>(alloc: Global, step: &Step, naming: &N) -> Result<Task, Memory>
    requires { IsReady step.now }
    ensures { IfOk result (λ task. shown_task task ≡ task_of N.name_of step.now) }
{
    match step {
        Step::Build(plan) => Ok(Task::Build(JobPlan::make(alloc, plan, naming)?)),
        Step::Remove(output) => Ok(Task::Remove(output.clone()?)),
        Step::Poll => Ok(Task::Poll),
        Step::Refresh => Ok(Task::Refresh),
        Step::Ask(query) => Ok(Task::Ask(copy_of(query)?)),
        Step::Release => Ok(Task::Release),
        Step::Collect => Ok(Task::Collect),
    }
}

/// The same query once more.
fn copy_of(query: &Query) -> Result<Query, AllocError>
    ensures { IfOk result (λ copy. copy ≡ query.now) }
{
    match query {
        Query::Def { usr } => Ok(Query::Def { usr: usr.clone()? }),
        Query::Refs { usr } => Ok(Query::Refs { usr: usr.clone()? }),
        Query::Occ { usr, roles } => Ok(Query::Occ {
            usr: usr.clone()?,
            roles: *roles,
        }),
        Query::Rel { usr, roles } => Ok(Query::Rel {
            usr: usr.clone()?,
            roles: *roles,
        }),
        Query::Callers { usr } => Ok(Query::Callers { usr: usr.clone()? }),
        Query::Overrides { usr } => Ok(Query::Overrides { usr: usr.clone()? }),
        Query::Name { name } => Ok(Query::Name {
            name: name.clone()?,
        }),
        Query::Pattern {
            text,
            start,
            end,
            fold,
        } => Ok(Query::Pattern {
            text: text.clone()?,
            start: *start,
            end: *end,
            fold: *fold,
        }),
        Query::Symbols { path } => Ok(Query::Symbols {
            path: path.clone()?,
        }),
        Query::Mains { path } => Ok(Query::Mains {
            path: path.clone()?,
        }),
        Query::Units { path } => Ok(Query::Units {
            path: path.clone()?,
        }),
        Query::Includes { path } => Ok(Query::Includes {
            path: path.clone()?,
        }),
        Query::Includers { path } => Ok(Query::Includers {
            path: path.clone()?,
        }),
        Query::Incoming { usr, depth } => Ok(Query::Incoming {
            usr: usr.clone()?,
            depth: *depth,
        }),
        Query::Outgoing { usr, depth } => Ok(Query::Outgoing {
            usr: usr.clone()?,
            depth: *depth,
        }),
        Query::Supertypes { usr, depth } => Ok(Query::Supertypes {
            usr: usr.clone()?,
            depth: *depth,
        }),
        Query::Subtypes { usr, depth } => Ok(Query::Subtypes {
            usr: usr.clone()?,
            depth: *depth,
        }),
        Query::Codegen { codegen } => Ok(Query::Codegen {
            codegen: codegen.clone()?,
        }),
    }
}
