// What the table of jobs tells by its marks.
ghost use Rattle.std.specs.Prelude.{◌≡◌, [], IfOk};
ghost use Rattle.ge_job_index.specs.Asked.{is_borne};
ghost use Rattle.ge_rows.specs.Marks.{job_marks, mark_of};

use ge_rows::{JobMark, JobTable, MarkSort, Text};
use std::alloc::{AllocError, Global};

/// Whether a live job bears the mark of a sort with a name, without a walk over jobs. The mark takes memory.
pub(crate) fn is_marked(
    alloc: Global,
    jobs: &JobTable,
    sort: MarkSort,
    name: &Text,
) -> Result<bool, AllocError>
    ensures { IfOk result (λ marked. marked
        ≡ is_borne (⟦<JobMark as Ord>⟧.cmp) job_marks (mark_of sort name.now [] 0) jobs.now) }
{
    let mark = JobMark::new(alloc, sort, name.bytes(), b"", 0)?;
    Ok(jobs.is_borne(&mark))
}
