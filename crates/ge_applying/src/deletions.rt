// Tasks that are deleted: qdel.
ghost use Rattle.std.specs.Prelude.{◌≡◌, ◌++◌, ◌∷◌, [], OnOk, fold, filter, map};
ghost use Rattle.ge_model_jobs.specs.Accounts.{line_of};
ghost use Rattle.ge_model_jobs.specs.Ending.{forced, forced_lines, is_named, delete_from, with_deleted};
ghost use Rattle.ge_model_jobs.specs.Picks.{names_task};

use crate::accounts::{Told, new_line};
use ge_jobs::{NamedTasks, delete_named, get, joined, narrowed};
use ge_ranges::contains;
use ge_rows::{Cluster, Job, Line, List, Pick, Running, Table, TaskId, TaskSet};
use std::alloc::{AllocError, Global};

// Whether a pick's tasks, all where it names none, have a number.
fn names(tasks: &Option<TaskSet>, task: u32) -> bool
    ensures { result ≡ names_task tasks.now task }
{
    match tasks {
        None => true,
        Some(tasks) => contains(tasks, task),
    }
}

// The line of a task that a deletion ends by force.
fn push_forced(
    alloc: Global,
    lines: &mut List<Line>,
    moment: u64,
    id: TaskId,
    job: &Job,
    running: &Running,
) -> Result<(), AllocError>
    ensures { OnOk result (lines.new
        ≡ lines.old ++ line_of moment id.job job.now id.task running.now forced ∷ []) }
{
    let told = Told {
        failure: 1,
        status: 0,
        time: 0,
        memory: 0,
        transfer: 0,
    };
    let line = new_line(alloc, moment, id, job, running, &told)?;
    lines.push(line)?;
    Ok(())
}

// The lines of the running tasks of a job that a pick names, by number.
fn push_named(
    alloc: Global,
    lines: &mut List<Line>,
    moment: u64,
    number: u32,
    job: &Job,
    tasks: &Option<TaskSet>,
) -> Result<(), AllocError>
    ensures { OnOk result (lines.new ≡ lines.old
        ++ map (λ task. line_of moment number job.now task.0 task.1 forced)
        (filter (is_named tasks.now) job.now.running)) }
{
    for (task, running) in job.running.iter() {
        if names(tasks, *task) {
            let id = TaskId {
                job: number,
                task: *task,
            };
            push_forced(alloc, lines, moment, id, job, running)?;
        }
    }
    Ok(())
}

// The lines of the running tasks of a job that a deletion ends.
fn push_lines(
    alloc: Global,
    lines: &mut List<Line>,
    moment: u64,
    force: bool,
    number: u32,
    job: &Job,
    named: &NamedTasks,
) -> Result<(), AllocError>
    ensures { OnOk result (lines.new
        ≡ lines.old ++ forced_lines moment force number job.now named.now) }
{
    if !force {
        return Ok(());
    }
    let part = narrowed(alloc, named, job)?;
    push_named(alloc, lines, moment, number, job, &part)?;
    Ok(())
}

// A job loses the tasks that picks name; by force those that run end, each with its line.
fn delete_one(
    alloc: Global,
    c: &mut Cluster,
    moment: u64,
    force: bool,
    number: u32,
    named: &NamedTasks,
) -> Result<(), AllocError>
    ensures { OnOk result (c.new ≡ delete_from moment force c.old (number, named.now)) }
{
    let Some(job) = get(&c.jobs, number) else {
        return Ok(());
    };
    push_lines(alloc, &mut c.lines, moment, force, number, job, named)?;
    delete_named(alloc, &mut c.jobs, number, force, named)?;
    Ok(())
}

fn delete_all(
    alloc: Global,
    c: &mut Cluster,
    moment: u64,
    force: bool,
    named: &Table<u32, NamedTasks>,
) -> Result<(), AllocError>
    ensures { OnOk result (c.new ≡ fold (delete_from moment force) c.old named.now) }
{
    for (number, tasks) in named.iter() {
        delete_one(alloc, c, moment, force, *number, tasks)?;
    }
    Ok(())
}

/// The tasks that picks name are deleted, job by job.
#[tactic(auto, unfolding(ge_model_jobs::specs::Ending::with_deleted))]
pub(crate) fn delete_tasks(
    alloc: Global,
    c: &mut Cluster,
    moment: u64,
    picks: &[Pick],
    force: bool,
) -> Result<(), AllocError>
    ensures { OnOk result (c.new ≡ with_deleted moment c.old picks.now force) }
{
    let named = joined(alloc, picks)?;
    delete_all(alloc, c, moment, force, &named)?;
    Ok(())
}
