// Tasks that end: end.
ghost use Rattle.std.specs.Prelude.{◌≡◌, IfOk, OnOk};
ghost use Rattle.ge_model_jobs.specs.Ending.{after_exit};
ghost use Rattle.ge_applying.specs.Ends.{ending_of, with_ending, end_with};
ghost use Rattle.ge_applying.specs.Reports.{report_of};

use crate::accounts::{Told, new_line};
use crate::usages::{UsageKey, add_usage, amount_of, epoch};
use ge_jobs::{After, end, find_running};
use ge_rows::{Cluster, Job, Line, Running, Sched, TaskId, twins2};
use std::alloc::{AllocError, Global};

// What becomes of a running task by its exit status: with 99 it waits again, with 100 it is in error. One that is marked for
// deletion is gone with any.
fn fate(exit: u32, running: &Running) -> After
    ensures { result ≡ after_exit exit running.now }
{
    if running.deleting {
        return After::Gone;
    }
    match exit {
        99 => After::Again,
        100 => After::Broken,
        _ => After::Gone,
    }
}

// What an end comes to: the task and what becomes of it, the usage that it adds and where, and its line.
#[derive(Drop)]
struct Ending {
    id: TaskId,
    after: After,
    key: UsageKey,
    amount: u128,
    line: Line,
}

fn new_ending(
    alloc: Global,
    sched: &Sched,
    moment: u64,
    id: TaskId,
    job: &Job,
    running: &Running,
    told: &Told,
) -> Result<Ending, AllocError>
    ensures { IfOk result (λ ending. ending
        ≡ ending_of sched.now moment id job.now running.now (report_of told.now)) }
{
    let line = new_line(alloc, moment, id, job, running, told)?;
    let (user, project) = twins2(alloc, &job.owner, &job.project)?;
    Ok(Ending {
        id,
        after: fate(told.status, running),
        key: (user, project, epoch(moment, sched.halftime)),
        amount: amount_of(sched, told),
        line,
    })
}

fn put_ending(alloc: Global, c: &mut Cluster, ending: Ending) -> Result<(), AllocError>
    ensures { OnOk result (c.new ≡ with_ending c.old ending) }
{
    let Ending {
        id,
        after,
        key,
        amount,
        line,
    } = ending;
    end(alloc, &mut c.jobs, id, after)?;
    add_usage(&mut c.usage, key, amount)?;
    c.lines.push(line)?;
    Ok(())
}

/// The task of a serial ends at a moment: its line is written, and its usage counted. A serial of no running task, as that
/// of an end that is reported again, changes nothing.
pub(crate) fn end_task(
    alloc: Global,
    c: &mut Cluster,
    moment: u64,
    serial: u64,
    told: &Told,
) -> Result<(), AllocError>
    ensures { OnOk result (c.new ≡ end_with moment c.old serial (report_of told.now)) }
{
    let Some((number, job, task, running)) = find_running(alloc, &c.jobs, serial) else {
        return Ok(());
    };
    let id = TaskId { job: number, task };
    let ending = new_ending(alloc, &c.sched, moment, id, job, running, told)?;
    put_ending(alloc, c, ending)?;
    Ok(())
}
