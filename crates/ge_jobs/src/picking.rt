// The tasks that targets name.
ghost use Rattle.std.specs.Prelude.{◌≡◌, IfOk, OnOk};
ghost use Rattle.ge_model_jobs.specs.Picks.{named_in as named_of, unnamed_in as unnamed_of, names_task, both_named, with_named, join_pick, joined_picks};

use crate::gathered::{Gathered, one_set, part_of, with_more};
use ge_ranges::{contains, difference, meet};
use ge_rows::{Pick, Table, TaskSet, Twin};
use std::alloc::{AllocError, Global};
use std::marker::Model;

/// The tasks of a job that targets name together: some, or all. Contracts see them as an option, where none is all.
///
/// What the targets name is kept as they have it: the time and memory of each call are bounded by the job's own tasks and the
/// number of targets, however far these reach.
#[derive(Drop)]
pub struct NamedTasks {
    tasks: Option<Gathered>,
}

impl Model for NamedTasks {
    ghost use Rattle.std.specs.Prelude.{Option, List};
    ghost use Rattle.ge_model_rows.specs.TaskRows.{TaskSpan};

    ghost Value = { Option (List TaskSpan) };

    ghost view = { λ n. n.tasks };
}

impl NamedTasks {
    /// The part of a set that they name.
    pub fn named_in(&self, alloc: Global, set: &TaskSet) -> Result<TaskSet, AllocError>
        ensures { IfOk result (λ part. part ≡ named_of self.now set.now) }
    {
        match &self.tasks {
            None => set.twin(alloc),
            Some(all) => part_of(alloc, all, set),
        }
    }

    /// The sets that name them, if not all are named.
    pub(crate) fn sets(&self) -> &Option<Gathered>
        ensures { result.now ≡ self.now }
    {
        &self.tasks
    }
}

/// Whether a target's tasks, all where it names none, have a number.
pub(crate) fn names(tasks: &Option<TaskSet>, task: u32) -> bool
    ensures { result ≡ names_task tasks.now task }
{
    match tasks {
        None => true,
        Some(tasks) => contains(tasks, task),
    }
}

/// The part of a set that a target names.
pub(crate) fn named_in(
    alloc: Global,
    tasks: &Option<TaskSet>,
    set: &TaskSet,
) -> Result<TaskSet, AllocError>
    ensures { IfOk result (λ part. part ≡ named_of tasks.now set.now) }
{
    match tasks {
        None => set.twin(alloc),
        Some(tasks) => meet(alloc, set, tasks),
    }
}

/// The part of a set that a target doesn't name.
pub(crate) fn unnamed_in(
    alloc: Global,
    tasks: &Option<TaskSet>,
    set: &TaskSet,
) -> Result<TaskSet, AllocError>
    ensures { IfOk result (λ part. part ≡ unnamed_of tasks.now set.now) }
{
    match tasks {
        None => Ok(TaskSet::new(alloc)),
        Some(tasks) => difference(alloc, set, tasks),
    }
}

// What one target of a job names.
fn alone(alloc: Global, tasks: &Option<TaskSet>) -> Result<Option<Gathered>, AllocError>
    ensures { IfOk result (λ named. named ≡ tasks.now) }
{
    match tasks {
        None => Ok(None),
        Some(tasks) => {
            let all = one_set(alloc, tasks)?;
            Ok(Some(all))
        }
    }
}

// What targets of one job name with one more.
fn both(
    alloc: Global,
    so_far: Option<Gathered>,
    tasks: &Option<TaskSet>,
) -> Result<Option<Gathered>, AllocError>
    ensures { IfOk result (λ named. named ≡ both_named so_far tasks.now) }
{
    let Some(so_far) = so_far else {
        return Ok(None);
    };
    let Some(tasks) = tasks else {
        return Ok(None);
    };
    let all = with_more(alloc, so_far, tasks)?;
    Ok(Some(all))
}

// What the targets of a job name, if there were some, with one more.
fn more(
    alloc: Global,
    so_far: Option<NamedTasks>,
    tasks: &Option<TaskSet>,
) -> Result<NamedTasks, AllocError>
    ensures { IfOk result (λ named. named ≡ with_named so_far tasks.now) }
{
    let tasks = match so_far {
        None => alone(alloc, tasks)?,
        Some(NamedTasks { tasks: named }) => both(alloc, named, tasks)?,
    };
    Ok(NamedTasks { tasks })
}

// One target more. What its job's targets named is taken out of the table, so that none of it is copied.
fn join(alloc: Global, rows: &mut Table<u32, NamedTasks>, pick: &Pick) -> Result<(), AllocError>
    ensures { OnOk result (rows.new ≡ join_pick rows.old pick.now) }
{
    let so_far = rows.insert(pick.job, NamedTasks { tasks: None })?;
    let named = more(alloc, so_far, &pick.tasks)?;
    let _meanwhile = rows.insert(pick.job, named)?;
    Ok(())
}

/// The jobs that targets name (qdel, qmod), each once, by number, with the tasks that any of its targets names.
pub fn joined(alloc: Global, picks: &[Pick]) -> Result<Table<u32, NamedTasks>, AllocError>
    ensures { IfOk result (λ rows. rows ≡ joined_picks picks.now) }
{
    let mut rows = Table::new(alloc);
    for pick in picks {
        join(alloc, &mut rows, pick)?;
    }
    Ok(rows)
}
