//! The jobs of owners.

ghost use Rattle.std.specs.Prelude.{◌≡◌, ◌++◌, IfOk, filter, flat_map};
ghost use Rattle.ge_model_text.specs.Pattern.{pattern_covers};
ghost use Rattle.ge_model_report.specs.JobLines.{job_lines, jobs_listing};

use crate::job_lines::put_job;
use ge_rows::{Cluster, List, Text};
use ge_text::matches;
use std::alloc::{AllocError, Global};

/// The lines of the jobs of the owners that a pattern stands for, by number: `qstat`, and `qstat -u`. See the manual page
/// qstat.
///
/// A job has a line for each task that runs, by number, then one for the tasks that wait, one for those that are held,
/// and one for those in error. The columns are the job's number, its name, its owner, the state, a moment, the queue
/// instance, the slots and the tasks. The state is `r`, `dr` where the task is marked for deletion, `qw`, `hqw` or
/// `Eqw`. A task is held where the job has a hold or a predecessor that lives (`-hold_jid`), and where the task of its
/// number lives in an array predecessor (`-hold_jid_ad`). The moment is the start of a task that runs, else the
/// submission, in seconds. The instance is that of the first grant, as `queue@host`, and the slots are those of all
/// grants; a task that doesn't run has `-` and the least slots that it asks for. The tasks are `-` where the job is no
/// array.
pub fn list_jobs(alloc: Global, c: &Cluster, pattern: &[u8]) -> Result<List<Text>, AllocError>
    ensures { IfOk result (λ lines. lines ≡ jobs_listing c.now pattern.now) }
{
    let mut lines = List::new(alloc);
    for (number, row) in c.jobs.iter() {
        let job = row.job();
        if matches(pattern, job.owner.bytes()) {
            put_job(alloc, &mut lines, &c.jobs, *number, job)?;
        }
    }
    Ok(lines)
}
