// Error states that are cleared.
ghost use Rattle.std.specs.Prelude.{◌≡◌, OnOk, OnErr};
ghost use Rattle.ge_model_jobs.specs.Ending.{cleared, clear_from};

use crate::asking::get;
use crate::narrowing::narrowed;
use crate::picking::{NamedTasks, named_in, unnamed_in};
use ge_ranges::union;
use ge_rows::{InRow, Job, JobMark, JobTable, TaskSet, TryEdit};
use std::alloc::{AllocError, Global};

// The tasks in error that a target names wait again, as an edit of their job.
#[derive(Clone, Copy)]
struct Cleared<'a> {
    tasks: &'a Option<TaskSet>,
}

impl TryEdit<Job> for Cleared<'_> {
    ghost edited = { λ c job. cleared c.tasks.now job };

    fn lost(&self, alloc: Global, _job: &Job) -> Result<Vec<JobMark>, AllocError> {
        Ok(Vec::new(alloc))
    }

    fn gained(&self, alloc: Global, _job: &Job) -> Result<Vec<JobMark>, AllocError> {
        Ok(Vec::new(alloc))
    }

    fn relabels(&self, _job: &Job) -> bool {
        false
    }

    fn try_edit(&self, alloc: Global, job: &mut Job) -> Result<(), AllocError> {
        let named = named_in(alloc, self.tasks, &job.broken)?;
        let queued = union(alloc, &job.queued, &named)?;
        let broken = unnamed_in(alloc, self.tasks, &job.broken)?;
        job.queued = queued;
        job.broken = broken;
        Ok(())
    }
}

/// The tasks in error of a job that a target names wait again (qmod -cj). After want of memory the table is as it was.
pub fn clear(
    alloc: Global,
    jobs: &mut JobTable,
    number: u32,
    tasks: &Option<TaskSet>,
) -> Result<(), AllocError>
    ensures ok { OnOk result (jobs.new ≡ clear_from jobs.old (number, tasks.now)) }
    ensures err { OnErr result (jobs.new ≡ jobs.old) }
{
    let edit = InRow {
        edit: &Cleared { tasks },
    };
    let _found = jobs.try_change(alloc, &number, &edit)?;
    Ok(())
}

/// The tasks in error of a job that targets name together wait again. A job that isn't there stays so. After want of memory the
/// table is as it was.
#[tactic(auto, using(crate::proofs::NarrowedRows::none_cleared))]
pub fn clear_named(
    alloc: Global,
    jobs: &mut JobTable,
    number: u32,
    named: &NamedTasks,
) -> Result<(), AllocError>
    ensures ok { OnOk result (jobs.new ≡ clear_from jobs.old (number, named.now)) }
    ensures err { OnErr result (jobs.new ≡ jobs.old) }
{
    let Some(job) = get(jobs, number) else {
        return Ok(());
    };
    let part = narrowed(alloc, named, job)?;
    clear(alloc, jobs, number, &part)?;
    Ok(())
}
