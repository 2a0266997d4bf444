//! What tasks and reservations book.

ghost use Rattle.std.specs.Prelude.{◌≡◌, ◌++◌, ◌||◌, ℕ, IfOk, OnOk, flat_map, map, not};
ghost use Rattle.std.specs.List.{list_any};
ghost use Rattle.std.specs.BTreeSet.{contains};
ghost use Rattle.std.specs.Ordering.{nat_cmp};
ghost use Rattle.ge_model_rows.specs.Pieces.{is_empty};
ghost use Rattle.ge_model_place.specs.Limits.{demands_of};
ghost use Rattle.ge_model_place.specs.Windows.{booked_until, job_bookings, runs_in_advance};
ghost use Rattle.ge_model_place.specs.Windows as windows;
ghost use Rattle.ge_windows.specs.InUse.{AreInUse};
ghost use Rattle.ge_windows.specs.Running.{running_in, bookings_at};

use crate::repeating::demands_after;
use crate::standing::stand_in;
use crate::windows::window_end_from;
use ge_demands::demands;
use ge_rows::{
    Advance, Booking, Cluster, Demand, Grant, Groups, Job, JobMark, JobTable, List, MarkSort,
    Running, TaskId, job_at,
};
use std::alloc::{AllocError, Global};
use std::collections::BTreeSet;

/// What a task of a job books with these grants from a moment on, to where its window ends (qsub, qrsub).
pub fn booking(
    alloc: Global,
    cluster: &Cluster,
    groups: &Groups,
    job: &Job,
    task: TaskId,
    grants: &[Grant],
    from: u64,
) -> Result<Booking, AllocError>
    ensures { IfOk result (λ booking. booking
        ≡ windows.booking_of cluster.now groups.now job.now task grants.now from) }
{
    let demands = demands(alloc, cluster, groups, job, grants)?;
    let until = window_end_from(cluster, job, from);
    Ok(Booking {
        task,
        demands,
        from,
        until,
    })
}

fn next_moment(now: u64) -> u64
    ensures { result ≡ windows.next_moment now }
{
    now.saturating_add(1)
}

// What a running task books that takes this: one that overran is booked up to the next moment. The groups are lent for the
// contract alone.
fn running_booking(
    cluster: &Cluster,
    _groups: &Groups,
    now: u64,
    job: &Job,
    task: TaskId,
    running: &Running,
    demands: List<Demand>,
) -> Booking
    requires { demands ≡ demands_of cluster.now _groups.now job.now running.now.grants }
    ensures { result
        ≡ windows.running_booking cluster.now _groups.now now (task.job, job.now)
        (task.task, running.now) }
{
    let from = running.start;
    let until = window_end_from(cluster, job, from).max(next_moment(now));
    Booking {
        task,
        demands,
        from,
        until,
    }
}

#[tactic(auto, using(crate::proofs::Alike::none_alike, crate::proofs::Alike::pushed_last))]
fn add_job(
    alloc: Global,
    cluster: &Cluster,
    groups: &Groups,
    now: u64,
    bookings: &mut List<Booking>,
    number: u32,
    job: &Job,
) -> Result<(), AllocError>
    ensures { OnOk result (bookings.new ≡ bookings.old
        ++ job_bookings cluster.now groups.now now (number, job.now)) }
{
    let mut last: &[Grant] = &[];
    for (task, running) in job.running.iter() {
        let task = TaskId {
            job: number,
            task: *task,
        };
        let grants = running.grants.items();
        let demands = demands_after(alloc, cluster, groups, job, bookings.items(), last, grants)?;
        bookings.push(running_booking(cluster, groups, now, job, task, running, demands))?;
        last = grants;
    }
    Ok(())
}

// The numbers of the jobs of which a task runs, which the table keeps.
fn running_jobs(alloc: Global, jobs: &JobTable) -> Result<Vec<u32>, AllocError>
    ensures { IfOk result (λ numbers. numbers.items ≡ running_in jobs.now) }
{
    let runs = JobMark::new(alloc, MarkSort::Runs, b"", b"", 0)?;
    jobs.bearers(alloc, &runs)
}

fn add_job_at(
    alloc: Global,
    cluster: &Cluster,
    groups: &Groups,
    now: u64,
    bookings: &mut List<Booking>,
    number: u32,
) -> Result<(), AllocError>
    ensures { OnOk result (bookings.new ≡ bookings.old
        ++ bookings_at cluster.now groups.now now number) }
{
    match job_at(&cluster.jobs, number) {
        Some(job) => add_job(alloc, cluster, groups, now, bookings, number, job),
        None => Ok(()),
    }
}

fn add_jobs_at(
    alloc: Global,
    cluster: &Cluster,
    groups: &Groups,
    now: u64,
    bookings: &mut List<Booking>,
    numbers: Vec<u32>,
) -> Result<(), AllocError>
    ensures { OnOk result (bookings.new ≡ bookings.old
        ++ flat_map (bookings_at cluster.now groups.now now) numbers.items) }
{
    for number in numbers {
        add_job_at(alloc, cluster, groups, now, bookings, number)?;
    }
    Ok(())
}

// What running tasks book, job by job. Jobs of which none runs aren't looked at.
fn add_jobs(
    alloc: Global,
    cluster: &Cluster,
    groups: &Groups,
    now: u64,
    bookings: &mut List<Booking>,
) -> Result<(), AllocError>
    ensures { OnOk result (bookings.new ≡ bookings.old
        ++ flat_map (job_bookings cluster.now groups.now now) cluster.now.jobs) }
{
    cluster.jobs.orderly();
    let numbers = running_jobs(alloc, &cluster.jobs)?;
    add_jobs_at(alloc, cluster, groups, now, bookings, numbers)
}

fn has_running(job: &Job) -> bool
    ensures { result ≡ not (is_empty job.now.running) }
{
    job.running.len() > 0
}

#[tactic(auto, using(crate::proofs::Noted::noted))]
fn note_job(numbers: &mut BTreeSet<u32>, key: u32, job: &Job) -> Result<(), AllocError>
    ensures { OnOk result ((number : ℕ) → contains nat_cmp numbers.new number
        ≡ (runs_in_advance number (key, job.now) || contains nat_cmp numbers.old number)) }
{
    if has_running(job) {
        numbers.insert(job.advance)?;
    }
    Ok(())
}

// The numbers of the reservations in which a task runs, with 0 for the jobs that were sent into none.
fn numbers_in_use(alloc: Global, jobs: &JobTable) -> Result<BTreeSet<u32>, AllocError>
    ensures { IfOk result (λ numbers. AreInUse numbers jobs.now) }
{
    let mut numbers = BTreeSet::new(alloc);
    for (key, row) in jobs.iter() {
        note_job(&mut numbers, *key, row.job())?;
    }
    Ok(numbers)
}

// What a reservation books: up to the next moment where a task in it overran.
fn advance_booking(
    alloc: Global,
    cluster: &Cluster,
    groups: &Groups,
    now: u64,
    in_use: &BTreeSet<u32>,
    number: u32,
    advance: &Advance,
) -> Result<Booking, AllocError>
    requires { AreInUse in_use.now cluster.now.jobs }
    ensures { IfOk result (λ booking. booking
        ≡ windows.advance_booking cluster.now groups.now now (number, advance.now)) }
{
    let job = stand_in(alloc, advance)?;
    let demands = demands(alloc, cluster, groups, &job, advance.grants.items())?;
    let until = if in_use.contains(&number) {
        advance.until.max(next_moment(now))
    } else {
        advance.until
    };
    let task = TaskId {
        job: 0,
        task: number,
    };
    Ok(Booking {
        task,
        demands,
        from: advance.from,
        until,
    })
}

fn add_advances(
    alloc: Global,
    cluster: &Cluster,
    groups: &Groups,
    now: u64,
    in_use: &BTreeSet<u32>,
    bookings: &mut List<Booking>,
) -> Result<(), AllocError>
    requires { AreInUse in_use.now cluster.now.jobs }
    ensures { OnOk result (bookings.new ≡ bookings.old
        ++ map (windows.advance_booking cluster.now groups.now now) cluster.now.advances) }
{
    for (number, advance) in cluster.advances.iter() {
        bookings.push(advance_booking(alloc, cluster, groups, now, in_use, *number, advance)?)?;
    }
    Ok(())
}

/// One booking for each running task, by job and task, and one for each advance reservation, by number: its task has the job
/// 0. What overran is booked up to one second past now. All jobs are walked only where there is a reservation, else those alone
/// of which a task runs (qsub, qrsub).
#[tactic(auto, unfolding(ge_model_place::specs::Windows::base_bookings))]
pub fn base_bookings(
    alloc: Global,
    cluster: &Cluster,
    groups: &Groups,
    now: u64,
) -> Result<List<Booking>, AllocError>
    ensures { IfOk result (λ bookings. bookings
        ≡ windows.base_bookings cluster.now groups.now now) }
{
    let mut bookings = List::new(alloc);
    add_jobs(alloc, cluster, groups, now, &mut bookings)?;
    if !cluster.advances.is_empty() {
        let in_use = numbers_in_use(alloc, &cluster.jobs)?;
        add_advances(alloc, cluster, groups, now, &in_use, &mut bookings)?;
    }
    Ok(bookings)
}
