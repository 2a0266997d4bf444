// Tasks that are named, counted.
ghost use Rattle.std.specs.Prelude.{◌≡◌, ◌+◌, IfOk, filter, length, sum_by};
ghost use Rattle.ge_model_rows.specs.Sets.{count_of};
ghost use Rattle.ge_model_rows.specs.Sets as sets;
ghost use Rattle.ge_model_core.specs.Deleting.{task_runs_in};
ghost use Rattle.ge_deleting.specs.Counts.{count_of_part, shown};

use crate::targets::NamedJob;
use ge_ranges::{contains, len, meet, union};
use ge_rows::{Job, Running, Table, TaskSet};
use std::alloc::{AllocError, Global};

/// What is counted of the tasks of a job that are named.
#[derive(Clone, Copy)]
pub(crate) enum Part {
    /// All of them.
    All,
    /// Those that wait or are in error.
    Pending,
    /// Those that run.
    Running,
    /// Those in error.
    Broken,
}

// A sum that fits: a job has fewer than 2^32 tasks, and there are fewer than 2^32 jobs.
fn add(sum: u64, more: u64) -> Result<u64, AllocError>
    ensures { IfOk result (λ total. total ≡ sum + more) }
{
    match sum.checked_add(more) {
        Some(total) => Ok(total),
        None => Err(AllocError),
    }
}

// How many numbers two sets have in common.
fn count_both(alloc: Global, set: &TaskSet, tasks: &TaskSet) -> Result<u64, AllocError>
    ensures { IfOk result (λ count. count ≡ count_of (sets.meet set.now tasks.now)) }
{
    let both = meet(alloc, set, tasks)?;
    Ok(u64::from(len(&both)))
}

// How many running tasks have a number of a set.
fn count_running(running: &Table<u32, Running>, tasks: &TaskSet) -> Result<u64, AllocError>
    ensures { IfOk result (λ count. count ≡ length (filter (task_runs_in tasks.now) running.now)) }
{
    let mut count = 0;
    for (number, _running) in running.iter() {
        if contains(tasks, *number) {
            count = add(count, 1)?;
        }
    }
    Ok(count)
}

fn count(alloc: Global, part: Part, job: &Job, tasks: &TaskSet) -> Result<u64, AllocError>
    ensures { IfOk result (λ count. count ≡ count_of_part part (job.now, tasks.now)) }
{
    match part {
        Part::All => Ok(u64::from(len(tasks))),
        Part::Pending => {
            let pending = union(alloc, &job.queued, &job.broken)?;
            count_both(alloc, &pending, tasks)
        }
        Part::Running => count_running(&job.running, tasks),
        Part::Broken => count_both(alloc, &job.broken, tasks),
    }
}

/// What is counted of the tasks of all jobs that are named.
pub(crate) fn count_all(alloc: Global, part: Part, named: &[NamedJob]) -> Result<u64, AllocError>
    ensures { IfOk result (λ sum. sum ≡ sum_by (count_of_part part) (shown named.now)) }
{
    let mut sum = 0;
    for named_job in named {
        sum = add(sum, count(alloc, part, named_job.job, &named_job.tasks)?)?;
    }
    Ok(sum)
}
