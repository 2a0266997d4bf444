// The tasks of a job that a run may start.
ghost use Rattle.std.specs.Prelude.{◌≡◌, ◌∷◌, [], ◌++◌, IfSome, OnOk, map};
ghost use Rattle.std.specs.Option.{option_copied};
ghost use Rattle.ge_collections.specs.Met.{AreFound};
ghost use Rattle.ge_collections.specs.Keyed.{at_number};
ghost use Rattle.ge_model_rows.specs.Pieces.{is_empty as is_empty_list};
ghost use Rattle.ge_order.specs.Ranked.{task_at, tasks_of_job};
ghost use Rattle.ge_order.specs.Told as telling;

use ge_collections::next_at;
use ge_jobs::{eligible, get};
use ge_rows::{Cluster, Job, JobRow, List, TaskId, TaskSpan};
use std::alloc::{AllocError, Global};
use std::collections::btree_map::Iter;

fn has_none(numbers: &[u32]) -> bool
    ensures { result ≡ is_empty_list numbers.now }
{
    numbers.is_empty()
}

// Whether no hold and no other job keeps the tasks of a job from starting, and its time has come.
fn is_free(job: &Job, now: u64) -> bool
    ensures { result ≡ telling.is_free job.now now }
{
    job.hold == 0
        && has_none(job.after.items())
        && has_none(job.after_each.items())
        && !(now < job.not_before)
}

// The number of a set that has one.
fn only_number(spans: &[TaskSpan]) -> Option<u32>
    ensures { result ≡ telling.only_number spans.now }
{
    match spans {
        [] => None,
        [span] => {
            if span.first == span.last {
                Some(span.first)
            } else {
                None
            }
        }
        [_, _, ..] => None,
    }
}

// The eligible task of a job of which one task waits, where the job alone tells that.
fn only_task(job: &Job, now: u64) -> Option<u32>
    ensures { result ≡ telling.only_task job.now now }
{
    if is_free(job, now) {
        only_number(job.queued.spans())
    } else {
        None
    }
}

// A job, met in a walk over all or looked up.
fn job_at<'a>(c: &'a Cluster, left: &mut Iter<'a, u32, JobRow>, number: u32) -> Option<&'a Job>
    ensures job { AreFound c.now.jobs left.old → option_copied result
        ≡ at_number c.now.jobs number }
    ensures others { AreFound c.now.jobs left.old → AreFound c.now.jobs left.new }
{
    match next_at(left, number) {
        Some(row) => Some(row.job()),
        None => get(&c.jobs, number),
    }
}

// The same by the job's number.
fn only_task_at<'a>(
    c: &'a Cluster,
    left: &mut Iter<'a, u32, JobRow>,
    number: u32,
    now: u64,
) -> Option<u32>
    ensures task { AreFound c.now.jobs left.old
        → IfSome result (λ task. tasks_of_job c.now now number ≡ task_at number task ∷ []) }
    ensures others { AreFound c.now.jobs left.old → AreFound c.now.jobs left.new }
{
    match job_at(c, left, number) {
        Some(job) => only_task(job, now),
        None => None,
    }
}

// The tasks of these numbers, put behind others.
fn push_tasks(order: &mut List<TaskId>, job: u32, tasks: &[u32]) -> Result<(), AllocError>
    ensures { OnOk result (order.new ≡ order.old ++ map (task_at job) tasks.now) }
{
    for task in tasks {
        order.push(TaskId { job, task: *task })?;
    }
    Ok(())
}

// The eligible tasks of any job, put behind others.
fn push_eligible(
    alloc: Global,
    c: &Cluster,
    job: u32,
    now: u64,
    order: &mut List<TaskId>,
) -> Result<(), AllocError>
    ensures { OnOk result (order.new ≡ order.old ++ tasks_of_job c.now now job) }
{
    let tasks = eligible(alloc, &c.jobs, job, now, c.sched.max_pending)?;
    push_tasks(order, job, tasks.items())
}

/// A walk over all jobs, of which none is met yet.
pub(crate) fn walk_jobs(c: &Cluster) -> Iter<'_, u32, JobRow>
    ensures { AreFound c.now.jobs result }
{
    c.jobs.iter()
}

/// The eligible tasks of a job, at most as many as a run considers, put behind others. The job is met in a walk over all, where
/// its number is above those before. Of most jobs one task waits: that one takes no list.
pub(crate) fn add_tasks<'a>(
    alloc: Global,
    c: &'a Cluster,
    left: &mut Iter<'a, u32, JobRow>,
    job: u32,
    now: u64,
    order: &mut List<TaskId>,
) -> Result<(), AllocError>
    ensures tasks { AreFound c.now.jobs left.old
        → OnOk result (order.new ≡ order.old ++ tasks_of_job c.now now job) }
    ensures others { AreFound c.now.jobs left.old → AreFound c.now.jobs left.new }
{
    match only_task_at(c, left, job, now) {
        Some(task) => {
            order.push(TaskId { job, task })?;
            Ok(())
        }
        None => push_eligible(alloc, c, job, now, order),
    }
}
