//! The lines of one job's tasks.

ghost use Rattle.std.specs.Prelude.{◌≡◌, ◌++◌, ◌∷◌, [], IfOk, OnOk, codes, decimal, map};
ghost use Rattle.std.specs.List.{list_any};
ghost use Rattle.ge_model_jobs.specs.Holds.{is_job_held, is_live_job};
ghost use Rattle.ge_model_rows.specs.Spans.{one};
ghost use Rattle.ge_model_report.specs.Grants.{worded};
ghost use Rattle.ge_model_report.specs.JobLines.{free_waiting, held_waiting, job_lines, least_slots, pending_lines, running_line, running_state, tasks_text};

use crate::grants::{first_instance, slots_of};
use ge_jobs::{free_tasks, held_tasks, is_live};
use ge_printing::{Column, decimal_text, join_columns};
use ge_ranges::text;
use ge_rows::{Job, JobTable, List, PeRequest, Running, TaskSet, Text};
use std::alloc::{AllocError, Global};

/// What a line shows of tasks beside their job.
#[derive(Clone, Copy)]
struct Shown<'a> {
    /// `r`, `dr`, `qw`, `hqw` or `Eqw`.
    state: &'a [u8],
    /// The start of a task that runs, else the submission, in seconds.
    moment: u64,
    /// The queue instance, or `-`.
    queue: &'a [u8],
    /// The slots that are granted, else the least that the job asks for.
    slots: u128,
    /// The numbers of the tasks, or `-`.
    tasks: &'a [u8],
}

fn line_of<'a>(
    alloc: Global,
    number: u32,
    job: &'a Job,
    shown: &Shown<'a>,
) -> Result<Text, AllocError>
    ensures { IfOk result (λ line. line ≡ worded (decimal number ∷ job.now.name ∷ job.now.owner
        ∷ shown.now.state.now
        ∷ decimal shown.now.moment ∷ shown.now.queue.now ∷ decimal shown.now.slots ∷ shown.now.tasks.now ∷ [])) }
{
    let columns = [
        Column::Number(u128::from(number)),
        Column::Word(job.name.bytes()),
        Column::Word(job.owner.bytes()),
        Column::Word(shown.state),
        Column::Number(u128::from(shown.moment)),
        Column::Word(shown.queue),
        Column::Number(shown.slots),
        Column::Word(shown.tasks),
    ];
    join_columns(alloc, &columns)
}

fn state_of_running(running: &Running) -> &[u8]
    ensures { result.now ≡ running_state running.now }
{
    if running.deleting { b"dr" } else { b"r" }
}

// One task, or `-` where the job is no array.
fn task_text(alloc: Global, job: &Job, task: u32) -> Result<Text, AllocError>
    ensures { IfOk result (λ text. text ≡ tasks_text job.now (one task ∷ [])) }
{
    if job.array {
        decimal_text(alloc, u128::from(task))
    } else {
        Text::from_bytes(alloc, b"-")
    }
}

// Tasks by their spans, or `-` where the job is no array.
fn set_text(alloc: Global, job: &Job, tasks: &TaskSet) -> Result<Text, AllocError>
    ensures { IfOk result (λ text. text ≡ tasks_text job.now tasks.now) }
{
    if job.array {
        text(alloc, tasks)
    } else {
        Text::from_bytes(alloc, b"-")
    }
}

fn line_of_running(
    alloc: Global,
    number: u32,
    job: &Job,
    task: u32,
    running: &Running,
) -> Result<Text, AllocError>
    ensures { IfOk result (λ line. line ≡ running_line number job.now (task, running.now)) }
{
    let grants = running.grants.items();
    let queue = first_instance(alloc, grants)?;
    let tasks = task_text(alloc, job, task)?;
    let shown = Shown {
        state: state_of_running(running),
        moment: running.start,
        queue: queue.bytes(),
        slots: slots_of(grants),
        tasks: tasks.bytes(),
    };
    line_of(alloc, number, job, &shown)
}

// The tasks that run, by number.
fn put_running(
    alloc: Global,
    lines: &mut List<Text>,
    number: u32,
    job: &Job,
) -> Result<(), AllocError>
    ensures { OnOk result (lines.new ≡ lines.old ++ map
        (running_line number job.now) job.now.running) }
{
    for (task, running) in job.running.iter() {
        lines.push(line_of_running(alloc, number, job, *task, running)?)?;
    }
    Ok(())
}

fn least_of(pe: &Option<PeRequest>) -> u32
    ensures { result ≡ least_slots pe.now }
{
    match pe {
        None => 1,
        Some(pe) => pe.low,
    }
}

fn line_of_pending(
    alloc: Global,
    number: u32,
    job: &Job,
    state: &[u8],
    tasks: &TaskSet,
) -> Result<Text, AllocError>
    ensures { IfOk result (λ line. line ≡ worded (decimal number ∷ job.now.name ∷ job.now.owner
        ∷ state.now
        ∷ decimal job.now.submitted ∷ codes "-" ∷ decimal (least_slots job.now.request.pe) ∷ tasks_text job.now tasks.now ∷ [])) }
{
    let tasks = set_text(alloc, job, tasks)?;
    let shown = Shown {
        state,
        moment: job.submitted,
        queue: b"-",
        slots: u128::from(least_of(&job.request.pe)),
        tasks: tasks.bytes(),
    };
    line_of(alloc, number, job, &shown)
}

// One line for tasks that don't run, if there are any.
fn put_pending(
    alloc: Global,
    lines: &mut List<Text>,
    number: u32,
    job: &Job,
    state: &[u8],
    tasks: &TaskSet,
) -> Result<(), AllocError>
    ensures { OnOk result (lines.new ≡ lines.old ++ pending_lines number job.now state.now
        tasks.now) }
{
    if tasks.spans().is_empty() {
        return Ok(());
    }
    lines.push(line_of_pending(alloc, number, job, state, tasks)?)
}

fn has_live(jobs: &JobTable, numbers: &[u32]) -> bool
    ensures { result ≡ list_any (is_live_job jobs.now) numbers.now }
{
    numbers.iter().any(|number| is_live(jobs, *number))
}

// Whether a job is held whole: by a hold of its own, or by a predecessor that lives.
fn is_held(jobs: &JobTable, job: &Job) -> bool
    ensures { result ≡ is_job_held jobs.now job.now }
{
    job.hold != 0 || has_live(jobs, job.after.items())
}

// The tasks that wait: those that nothing holds, then those that are held.
fn put_waiting(
    alloc: Global,
    lines: &mut List<Text>,
    jobs: &JobTable,
    number: u32,
    job: &Job,
) -> Result<(), AllocError>
    ensures { OnOk result (lines.new ≡ lines.old
        ++ pending_lines number job.now (codes "qw") (free_waiting jobs.now job.now)
        ++ pending_lines number job.now (codes "hqw") (held_waiting jobs.now job.now)) }
{
    if is_held(jobs, job) {
        return put_pending(alloc, lines, number, job, b"hqw", &job.queued);
    }
    let free = free_tasks(alloc, jobs, job)?;
    let held = held_tasks(alloc, jobs, job)?;
    put_pending(alloc, lines, number, job, b"qw", &free)?;
    put_pending(alloc, lines, number, job, b"hqw", &held)
}

/// The lines of a job: the tasks that run, by number, then those that wait, those that are held, and those in error.
pub(crate) fn put_job(
    alloc: Global,
    lines: &mut List<Text>,
    jobs: &JobTable,
    number: u32,
    job: &Job,
) -> Result<(), AllocError>
    ensures { OnOk result (lines.new ≡ lines.old ++ job_lines jobs.now (number, job.now)) }
{
    put_running(alloc, lines, number, job)?;
    put_waiting(alloc, lines, jobs, number, job)?;
    put_pending(alloc, lines, number, job, b"Eqw", &job.broken)
}
