// What is counted of the decisions so far, so that no task walks them.
ghost use Rattle.std.specs.Prelude.{◌≡◌, ℕ, ◌+◌, ◌++◌, ◌∷◌, [], cond, sum_by, IfOk, OnOk, List as Items};
ghost use Rattle.ge_collections.specs.Keyed.{text_eq, at_number};
ghost use Rattle.ge_model_rows.specs.DecisionRows.{Decision as Decided};
ghost use Rattle.ge_model_place.specs.Running.{belongs_to, running_in};
ghost use Rattle.ge_attempts.specs.Counts.{count_at, is_over, may_be_reserved, IsTallied, IsCounted, StartsOf};

use ge_rows::{Cluster, Decision, Job, Sched, Table, Text, Twin, job_at};
use std::alloc::{AllocError, Global};

/// What is counted of the decisions so far.
#[derive(Drop)]
pub struct Tally {
    /// The number that the next start gets.
    pub serial: u64,
    /// How many tasks have slots kept.
    pub reserved: u64,
    /// How many tasks of each user run, where that is bounded (sched_conf, `maxujobs`); else nothing.
    pub running: Table<Text, u64>,
}

fn count_of(running: &Table<Text, u64>, owner: &Text) -> u64
    ensures { result ≡ count_at running.now owner.now }
{
    match running.get(owner) {
        Some(count) => *count,
        None => 0,
    }
}

// One more. Counts of what is in memory don't reach the end of 64 bits, nor do numbers of starts.
fn more(count: u64, by: u64) -> Result<u64, AllocError>
    ensures { IfOk result (λ next. next ≡ count + by) }
{
    match count.checked_add(by) {
        Some(next) => Ok(next),
        None => Err(AllocError),
    }
}

// So many more tasks of a user run.
fn raise(
    alloc: Global,
    running: &mut Table<Text, u64>,
    owner: &Text,
    by: u64,
) -> Result<(), AllocError>
    ensures { OnOk result ((q : Items ℕ) → count_at running.new q
        ≡ count_at running.old q + cond (text_eq owner.now q) by 0) }
{
    let next = more(count_of(running, owner), by)?;
    let key = owner.twin(alloc)?;
    let _before = running.insert(key, next)?;
    Ok(())
}

fn count_job(alloc: Global, running: &mut Table<Text, u64>, job: &Job) -> Result<(), AllocError>
    ensures { OnOk result ((q : Items ℕ) → count_at running.new q
        ≡ count_at running.old q + running_in q (0, job.now)) }
{
    let tasks = job.running.len() as u64;
    raise(alloc, running, &job.owner, tasks)?;
    Ok(())
}

fn count_all(alloc: Global, cluster: &Cluster) -> Result<Table<Text, u64>, AllocError>
    ensures { IfOk result (λ running. (q : Items ℕ) → count_at running q
        ≡ sum_by (running_in q) cluster.now.jobs) }
{
    let mut running = Table::new(alloc);
    for (_number, row) in cluster.jobs.iter() {
        count_job(alloc, &mut running, row.job())?;
    }
    Ok(running)
}

// How many tasks of each user run before a run; nothing where that isn't bounded.
fn count_running(alloc: Global, cluster: &Cluster) -> Result<Table<Text, u64>, AllocError>
    ensures { IfOk result (λ running. IsCounted cluster.now [] running) }
{
    let bound = cluster.sched.maxujobs;
    if bound == 0 {
        return Ok(Table::new(alloc));
    }
    let running = count_all(alloc, cluster)?;
    Ok(running)
}

/// What is counted before any decision.
pub fn first_tally(alloc: Global, cluster: &Cluster) -> Result<Tally, AllocError>
    ensures { IfOk result (λ tally. IsTallied cluster.now [] tally) }
{
    let running = count_running(alloc, cluster)?;
    Ok(Tally {
        serial: cluster.next_serial,
        reserved: 0,
        running,
    })
}

/// Whether a user has as many running tasks as there may be; 0 is no bound.
pub fn is_full(sched: &Sched, tally: &Tally, owner: &Text) -> bool
    ensures { result ≡ is_over sched.now tally.now owner.now }
{
    sched.maxujobs != 0 && sched.maxujobs <= count_of(&tally.running, owner)
}

/// Whether slots may be kept for a task of a job: it asks for that, is sent into no advance reservation, and fewer have some
/// than may.
pub fn may_reserve(sched: &Sched, tally: &Tally, job: &Job) -> bool
    ensures { result ≡ may_be_reserved sched.now tally.now job.now }
{
    job.reserve && job.advance == 0 && tally.reserved < sched.max_reservation
}

fn raise_owner(
    alloc: Global,
    cluster: &Cluster,
    running: &mut Table<Text, u64>,
    number: u32,
) -> Result<(), AllocError>
    ensures { OnOk result ((q : Items ℕ) → count_at running.new q ≡ count_at running.old q
        + cond (belongs_to q (at_number cluster.now.jobs number)) 1 0) }
{
    match job_at(&cluster.jobs, number) {
        Some(job) => raise(alloc, running, &job.owner, 1),
        None => Ok(()),
    }
}

// One more task of a job runs.
fn count_start(
    alloc: Global,
    cluster: &Cluster,
    running: &mut Table<Text, u64>,
    number: u32,
) -> Result<(), AllocError>
    ensures { OnOk result ((decisions : Items Decided) (d : Decided) → StartsOf number d
        → IsCounted cluster.now decisions running.old
        → IsCounted cluster.now (decisions ++ d ∷ []) running.new) }
{
    let bound = cluster.sched.maxujobs;
    if bound == 0 {
        return Ok(());
    }
    raise_owner(alloc, cluster, running, number)?;
    Ok(())
}

/// One more decision is counted.
pub fn count(
    alloc: Global,
    cluster: &Cluster,
    tally: &mut Tally,
    decision: &Decision,
) -> Result<(), AllocError>
    ensures { OnOk result ((decisions : Items Decided) → IsTallied cluster.now decisions tally.old
        → IsTallied cluster.now (decisions ++ decision.now ∷ []) tally.new) }
{
    match decision {
        Decision::Start(start) => {
            tally.serial = more(tally.serial, 1)?;
            count_start(alloc, cluster, &mut tally.running, start.task.job)?;
            Ok(())
        }
        Decision::Reserve(_) => {
            tally.reserved = more(tally.reserved, 1)?;
            Ok(())
        }
        Decision::Skip(_) => Ok(()),
    }
}
