// Jobs that joined an advance reservation.
ghost use Rattle.std.specs.Prelude.{◌≡◌, ◌≤◌};
ghost use Rattle.ge_model_jobs.specs.Starting as starting;

use ge_rows::{JobMark, JobTable, MarkSort, Text};
use std::alloc::Global;

// Whether a job bears the mark of a reservation.
fn is_marked(alloc: Global, jobs: &JobTable, number: u64) -> bool
    requires { 1 ≤ number }
    ensures { result ≡ starting.is_joined jobs.now number }
{
    let mark = JobMark {
        sort: MarkSort::Advance,
        name: Text::new(alloc),
        other: Text::new(alloc),
        number,
    };
    jobs.is_borne(&mark)
}

// Whether a job joined no reservation.
fn has_free_job(jobs: &JobTable) -> bool
    ensures { result ≡ starting.is_joined jobs.now 0 }
{
    for row in jobs.iter() {
        if row.1.job().advance == 0 {
            return true;
        }
    }
    false
}

/// Whether a live job joined an advance reservation, by the table's marks: without memory, and without a walk over jobs. No
/// reservation has the number 0, which stands in a job that joined none.
pub(crate) fn is_joined(alloc: Global, jobs: &JobTable, number: u32) -> bool
    ensures { result ≡ starting.is_joined jobs.now number }
{
    if number == 0 {
        has_free_job(jobs)
    } else {
        is_marked(alloc, jobs, u64::from(number))
    }
}
