//! How often jobs bear a mark, by a walk over the jobs that bear it.

use ge_rows::{Job, JobMark, JobTable, Row, job_at};
use std::alloc::{AllocError, Global};

// How often a job bears a mark.
fn times_of(alloc: Global, job: &Job, wanted: &JobMark) -> Result<u64, AllocError> {
    let mut count: u64 = 0;
    for mark in job.marks(alloc)?.as_slice() {
        if *mark == *wanted {
            count = count.saturating_add(1);
        }
    }
    Ok(count)
}

/// How often the jobs of some numbers bear a mark, together.
pub fn times_borne(
    alloc: Global,
    jobs: &JobTable,
    numbers: &[u32],
    wanted: &JobMark,
) -> Result<u64, AllocError> {
    let mut sum: u64 = 0;
    for number in numbers {
        if let Some(job) = job_at(jobs, *number) {
            sum = sum.saturating_add(times_of(alloc, job, wanted)?);
        }
    }
    Ok(sum)
}
