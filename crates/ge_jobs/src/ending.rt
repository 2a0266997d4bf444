// Tasks that end, and jobs that go.
ghost use Rattle.std.specs.Prelude.{◌≡◌, ◌&&◌, ◌==◌, IfOk, OnOk, OnErr, IsTrue, Some, length};
ghost use Rattle.ge_collections.specs.Keyed.{drop_number};
ghost use Rattle.ge_rows.specs.Marks.{task_marks_at};
ghost use Rattle.ge_model_jobs.specs.Ending.{has_no_task, without_ended, runs_in, ended};
ghost use Rattle.ge_model_rows.specs.Pieces.{is_empty as has_nothing};
ghost use Rattle.ge_jobs.specs.JobEdits.{is_gone_with};

use crate::asking::get;
use ge_model_jobs::After;
use ge_ranges::with_number;
use ge_rows::{InRow, Job, JobMark, JobTable, TaskId, TaskSet, TryEdit, task_marks};
use std::alloc::{AllocError, Global};

/// A job goes with all its tasks.
pub fn remove(jobs: &mut JobTable, number: u32)
    ensures { jobs.new ≡ drop_number jobs.old number }
{
    let _job = jobs.remove(&number);
}

// A running task of a job ends.
fn end_in(alloc: Global, job: &mut Job, task: u32, after: After) -> Result<(), AllocError>
    ensures ok { OnOk result (job.new ≡ without_ended after task job.old) }
    ensures err { OnErr result (job.new ≡ job.old) }
{
    if task > 0 {
        match after {
            After::Gone => {}
            After::Again => job.queued = with_number(alloc, &job.queued, task)?,
            After::Broken => job.broken = with_number(alloc, &job.broken, task)?,
        }
    }
    let _task = job.running.remove(&task);
    Ok(())
}

// The end of a running task, as an edit of its job.
#[derive(Clone, Copy)]
struct Ended {
    task: u32,
    after: After,
}

impl TryEdit<Job> for Ended {
    ghost edited = { λ e job. without_ended e.after e.task job };

    ghost lost = { λ e job. task_marks_at e.task job.running };

    fn lost(&self, alloc: Global, job: &Job) -> Result<Vec<JobMark>, AllocError> {
        match job.running.get(&self.task) {
            Some(task) => task_marks(alloc, task),
            None => Ok(Vec::new(alloc)),
        }
    }

    fn gained(&self, alloc: Global, _job: &Job) -> Result<Vec<JobMark>, AllocError> {
        Ok(Vec::new(alloc))
    }

    #[tactic(auto, using(crate::proofs::SameLabels::end_keeps))]
    fn relabels(&self, _job: &Job) -> bool {
        false
    }

    fn try_edit(&self, alloc: Global, job: &mut Job) -> Result<(), AllocError> {
        end_in(alloc, job, self.task, self.after)?;
        Ok(())
    }
}

// Whether a task of a job runs.
fn runs(job: &Job, task: u32) -> bool
    ensures { result ≡ runs_in (Some job.now) task }
{
    job.running.get(&task).is_some()
}

// Whether a task is gone with its end; one of number 0, which no set holds, is gone with any.
fn is_gone(after: After, task: u32) -> bool
    ensures { result ≡ is_gone_with after task }
{
    match after {
        After::Gone => true,
        After::Again | After::Broken => task == 0,
    }
}

pub(crate) fn has_none(set: &TaskSet) -> bool
    ensures { result ≡ has_nothing set.now }
{
    set.spans().len() == 0
}

// Whether a job has no task but one that runs.
fn has_one(job: &Job) -> bool
    ensures { result ≡ (has_nothing job.now.queued && has_nothing job.now.broken
        && length job.now.running == 1) }
{
    has_none(&job.queued) && has_none(&job.broken) && job.running.len() == 1
}

// Whether a job has no task left once a running one ends.
fn is_spent(job: &Job, task: u32, after: After) -> bool
    requires { IsTrue (runs_in (Some job.now) task) }
    ensures { result ≡ has_no_task (without_ended after task job.now) }
{
    let _queued = job.queued.spans();
    let _broken = job.broken.spans();
    if is_gone(after, task) {
        has_one(job)
    } else {
        false
    }
}

/// A running task of a job ends: it is gone, waits again (exit status 99) or is in error (100). A job without a task left
/// goes. Where no such task runs, nothing changes. After want of memory the table is as it was.
pub fn end(alloc: Global, jobs: &mut JobTable, id: TaskId, after: After) -> Result<(), AllocError>
    ensures ok { OnOk result (jobs.new ≡ ended jobs.old id after) }
    ensures err { OnErr result (jobs.new ≡ jobs.old) }
{
    let Some(job) = get(jobs, id.job) else {
        return Ok(());
    };
    if !runs(job, id.task) {
        return Ok(());
    }
    if is_spent(job, id.task, after) {
        remove(jobs, id.job);
        return Ok(());
    }
    let edit = InRow {
        edit: &Ended {
            task: id.task,
            after,
        },
    };
    let _found = jobs.try_change(alloc, &id.job, &edit)?;
    Ok(())
}
