// Holds, array predecessors and eligible tasks.
ghost use Rattle.std.specs.Prelude.{◌≡◌, ◌≤◌, ◌==◌, [], ◌∷◌, ◌++◌, IfOk, OnOk, not, map, filter, fold, nat_le, nat_lt, ◌||◌, Some};
ghost use Rattle.std.specs.List.{list_any};
ghost use Rattle.std.specs.Map.{keys_of};
ghost use Rattle.ge_collections.specs.Keyed.{at_number};
ghost use Rattle.ge_model_rows.specs.Sets.{set_of as set_of_numbers, difference as difference_of};
ghost use Rattle.ge_model_jobs.specs.Holds.{is_live_job, is_job_held, holding_tasks as holding_of, holding_in, with_holding, predecessor_tasks as tasks_of_predecessors, held_tasks as held_of, free_tasks as free_of, first_tasks, eligible_of, eligible_tasks};

use crate::asking::{get, is_live};
use ge_ranges::{difference, first_of, meet, numbers, set_of, union};
use ge_rows::{Job, JobTable, List, Running, Table, TaskSet};
use std::alloc::{AllocError, Global};

// Whether one of these jobs lives.
fn has_live(jobs: &JobTable, numbers: &[u32]) -> bool
    ensures { result ≡ list_any (is_live_job jobs.now) numbers.now }
{
    numbers.iter().any(|number| is_live(jobs, *number))
}

// Whether a job is held whole: by a hold of its own or by a live predecessor.
fn is_held(jobs: &JobTable, job: &Job) -> bool
    ensures { result ≡ is_job_held jobs.now job.now }
{
    !(job.hold == 0) || has_live(jobs, job.after.items())
}

// The numbers of running tasks that a set may have.
fn running_numbers(alloc: Global, running: &Table<u32, Running>) -> Result<List<u32>, AllocError>
    ensures { IfOk result (λ numbers. numbers ≡ filter (nat_le 1) (keys_of running.now)) }
{
    let mut numbers = List::new(alloc);
    for number in running.keys() {
        if *number >= 1 {
            numbers.push(*number)?;
        }
    }
    Ok(numbers)
}

fn running_set(alloc: Global, running: &Table<u32, Running>) -> Result<TaskSet, AllocError>
    ensures { IfOk result (λ set. set ≡ set_of_numbers (filter (nat_le 1) (keys_of running.now))) }
{
    let numbers = running_numbers(alloc, running)?;
    running.orderly();
    set_of(alloc, numbers.items())
}

/// The live tasks of a job, by which it holds those of others.
pub(crate) fn holding_tasks(alloc: Global, job: &Job) -> Result<TaskSet, AllocError>
    ensures { IfOk result (λ set. set ≡ holding_of job.now) }
{
    let waiting = union(alloc, &job.queued, &job.broken)?;
    let running = running_set(alloc, &job.running)?;
    union(alloc, &waiting, &running)
}

// A set with the live tasks of one more job.
fn more_tasks(
    alloc: Global,
    jobs: &JobTable,
    tasks: &TaskSet,
    number: u32,
) -> Result<TaskSet, AllocError>
    ensures { IfOk result (λ set. set ≡ with_holding jobs.now tasks.now number) }
{
    match get(jobs, number) {
        None => union(alloc, tasks, &TaskSet::new(alloc)),
        Some(job) => union(alloc, tasks, &holding_tasks(alloc, job)?),
    }
}

// The live tasks of all array predecessors of a job.
fn predecessor_tasks(alloc: Global, jobs: &JobTable, job: &Job) -> Result<TaskSet, AllocError>
    ensures { IfOk result (λ set. set ≡ tasks_of_predecessors jobs.now job.now) }
{
    let mut tasks = TaskSet::new(alloc);
    for number in job.after_each.items() {
        tasks = more_tasks(alloc, jobs, &tasks, *number)?;
    }
    Ok(tasks)
}

/// The waiting tasks of a job that array predecessors hold (qsub, -hold_jid_ad): those whose number is that of a live
/// task there.
pub fn held_tasks(alloc: Global, jobs: &JobTable, job: &Job) -> Result<TaskSet, AllocError>
    ensures { IfOk result (λ set. set ≡ held_of jobs.now job.now) }
{
    let tasks = predecessor_tasks(alloc, jobs, job)?;
    meet(alloc, &job.queued, &tasks)
}

/// The waiting tasks of a job that no array predecessor holds (qsub, -hold_jid_ad).
pub fn free_tasks(alloc: Global, jobs: &JobTable, job: &Job) -> Result<TaskSet, AllocError>
    ensures { IfOk result (λ set. set ≡ free_of jobs.now job.now) }
{
    let tasks = predecessor_tasks(alloc, jobs, job)?;
    difference(alloc, &job.queued, &tasks)
}

// The first tasks of a set, as many as a bound allows, 0 being no bound.
fn up_to(alloc: Global, set: &TaskSet, bound: u64) -> Result<List<u32>, AllocError>
    ensures { IfOk result (λ tasks. tasks ≡ first_tasks bound set.now) }
{
    if bound == 0 {
        numbers(alloc, set)
    } else {
        first_of(alloc, set, bound)
    }
}

// Whether no task of a job may start at a moment.
fn must_wait(jobs: &JobTable, job: &Job, now: u64) -> bool
    ensures { result ≡ (is_job_held jobs.now job.now || nat_lt now job.now.not_before) }
{
    is_held(jobs, job) || now < job.not_before
}

fn eligible_in(
    alloc: Global,
    jobs: &JobTable,
    job: &Job,
    now: u64,
    bound: u64,
) -> Result<List<u32>, AllocError>
    ensures { IfOk result (λ tasks. tasks ≡ eligible_of jobs.now now bound (Some job.now)) }
{
    if must_wait(jobs, job, now) {
        return Ok(List::new(alloc));
    }
    up_to(alloc, &free_tasks(alloc, jobs, job)?, bound)
}

/// The tasks of a job that a run may start at a moment: those that wait, in a job without hold and live predecessor
/// (qsub, -hold_jid) whose time has come (-a), and that no array predecessor holds (-hold_jid_ad). Of these the first by number,
/// at most so many; 0 is no bound (sched_conf, max_pending_tasks_per_job).
#[tactic(auto, unfolding(ge_model_jobs::specs::Holds::eligible_tasks))]
pub fn eligible(
    alloc: Global,
    jobs: &JobTable,
    number: u32,
    now: u64,
    bound: u64,
) -> Result<List<u32>, AllocError>
    ensures { IfOk result (λ tasks. tasks ≡ eligible_tasks jobs.now number now bound) }
{
    match get(jobs, number) {
        None => Ok(List::new(alloc)),
        Some(job) => eligible_in(alloc, jobs, job, now, bound),
    }
}
