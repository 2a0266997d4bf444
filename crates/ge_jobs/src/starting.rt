// Tasks that start.
ghost use Rattle.std.specs.Prelude.{◌≡◌, IfOk, OnOk, OnErr};
ghost use Rattle.ge_model_jobs.specs.Starting.{running_from, with_start, start_task};
ghost use Rattle.ge_jobs.specs.JobEdits.{lost_by_start, gained_by_start};

use ge_ranges::{contains, without_number};
use ge_rows::{InRow, Job, JobMark, JobTable, Running, Start, TryEdit, Twin, task_marks};
use std::alloc::{AllocError, Global};

// The start of a task at a moment, as an edit of its job.
#[derive(Clone, Copy)]
struct Started<'a> {
    start: &'a Start,
    moment: u64,
}

fn new_running(alloc: Global, moment: u64, start: &Start) -> Result<Running, AllocError>
    ensures { IfOk result (λ running. running ≡ running_from moment start.now) }
{
    let grants = start.grants.twin(alloc)?;
    Ok(Running {
        serial: start.serial,
        start: moment,
        grants,
        deleting: false,
    })
}

impl TryEdit<Job> for Started<'_> {
    ghost edited = { λ s job. with_start s.moment s.start.now job };

    ghost lost = { λ s job. lost_by_start s.start.now job };

    ghost gained = { λ s job. gained_by_start s.moment s.start.now job };

    fn lost(&self, alloc: Global, job: &Job) -> Result<Vec<JobMark>, AllocError> {
        if !contains(&job.queued, self.start.task.task) {
            return Ok(Vec::new(alloc));
        }
        match job.running.get(&self.start.task.task) {
            Some(task) => task_marks(alloc, task),
            None => Ok(Vec::new(alloc)),
        }
    }

    fn gained(&self, alloc: Global, job: &Job) -> Result<Vec<JobMark>, AllocError> {
        if !contains(&job.queued, self.start.task.task) {
            return Ok(Vec::new(alloc));
        }
        task_marks(alloc, &new_running(alloc, self.moment, self.start)?)
    }

    #[tactic(auto, using(crate::proofs::SameLabels::start_keeps))]
    fn relabels(&self, _job: &Job) -> bool {
        false
    }

    fn try_edit(&self, alloc: Global, job: &mut Job) -> Result<(), AllocError> {
        if contains(&job.queued, self.start.task.task) {
            let running = new_running(alloc, self.moment, self.start)?;
            let queued = without_number(alloc, &job.queued, self.start.task.task)?;
            job.running.orderly();
            let _before = job.running.insert(self.start.task.task, running)?;
            job.queued = queued;
        }
        Ok(())
    }
}

/// A waiting task of a job starts at a moment: it runs, and waits no more. Where no such task waits, nothing changes. After want
/// of memory the table is as it was.
pub fn start(
    alloc: Global,
    jobs: &mut JobTable,
    start: &Start,
    moment: u64,
) -> Result<(), AllocError>
    ensures ok { OnOk result (jobs.new ≡ start_task moment jobs.old start.now) }
    ensures err { OnErr result (jobs.new ≡ jobs.old) }
{
    let edit = InRow {
        edit: &Started { start, moment },
    };
    let _found = jobs.try_change(alloc, &start.task.job, &edit)?;
    Ok(())
}
