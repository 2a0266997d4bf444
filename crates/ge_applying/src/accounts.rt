// Accounting lines.
ghost use Rattle.std.specs.Prelude.{◌≡◌, IfOk, if◌then◌else◌};
ghost use Rattle.ge_model_jobs.specs.Accounts.{first_instance, pe_name, line_slots, line_of};
ghost use Rattle.ge_applying.specs.Reports.{report_of};

use ge_rows::{Grant, InstanceId, Job, Line, PeRequest, Running, TaskId, Text, Twin, twins4};
use std::alloc::{AllocError, Global};

/// What is told of an end: 1 where it was forced, else 0, the exit status, and what was used.
#[derive(Clone, Copy)]
pub(crate) struct Told {
    pub(crate) failure: u32,
    pub(crate) status: u32,
    pub(crate) time: u64,
    pub(crate) memory: u64,
    pub(crate) transfer: u64,
}

// The instance whose host runs a task.
fn instance(alloc: Global, grants: &[Grant]) -> Result<InstanceId, AllocError>
    ensures { IfOk result (λ at. at ≡ first_instance grants.now) }
{
    match grants {
        [] => Ok(InstanceId {
            queue: Text::new(alloc),
            host: Text::new(alloc),
        }),
        [grant, ..] => grant.at.twin(alloc),
    }
}

fn name_of_pe(alloc: Global, pe: &Option<PeRequest>) -> Result<Text, AllocError>
    ensures { IfOk result (λ name. name ≡ pe_name pe.now) }
{
    match pe {
        None => Ok(Text::new(alloc)),
        Some(pe) => pe.name.twin(alloc),
    }
}

fn slots_of(grants: &[Grant]) -> u32
    ensures { result ≡ line_slots grants.now }
{
    let mut slots: u32 = 0;
    for grant in grants {
        slots = slots.saturating_add(grant.slots);
    }
    slots
}

// The number of a task in its line: 0 where its job is no array.
fn number_in(job: &Job, task: u32) -> u32
    ensures { result ≡ (if job.now.array then task else 0) }
{
    if job.array { task } else { 0 }
}

/// The line of a task of a job that ran and ends at a moment.
pub(crate) fn new_line(
    alloc: Global,
    moment: u64,
    id: TaskId,
    job: &Job,
    running: &Running,
    told: &Told,
) -> Result<Line, AllocError>
    ensures { IfOk result (λ line. line
        ≡ line_of moment id.job job.now id.task running.now (report_of told.now)) }
{
    let InstanceId { queue, host } = instance(alloc, running.grants.items())?;
    let (group, owner, name, account) = twins4(
        alloc,
        &job.group,
        &job.owner,
        &job.name,
        &job.account,
    )?;
    let project = job.project.twin(alloc)?;
    let pe = name_of_pe(alloc, &job.request.pe)?;
    Ok(Line {
        queue,
        host,
        group,
        owner,
        name,
        job: id.job,
        account,
        priority: job.priority,
        submitted: job.submitted,
        start: running.start,
        end: moment,
        failed: told.failure,
        exit: told.status,
        project,
        pe,
        slots: slots_of(running.grants.items()),
        task: number_in(job, id.task),
        cpu: told.time,
        mem: told.memory,
        io: told.transfer,
    })
}
