// What is asked of one job.
ghost use Rattle.std.specs.Prelude.{◌≡◌};
ghost use Rattle.std.specs.Option.{option_copied};
ghost use Rattle.ge_collections.specs.Keyed.{at_number};
ghost use Rattle.ge_model_jobs.specs.Holds.{is_live_job, hold_of, holds_of as bits_of};

use ge_rows::{Job, JobTable, job_at};

/// A job by its number.
pub fn get(jobs: &JobTable, number: u32) -> Option<&Job>
    ensures { option_copied result ≡ at_number jobs.now number }
{
    job_at(jobs, number)
}

/// Whether a job lives.
pub fn is_live(jobs: &JobTable, number: u32) -> bool
    ensures { result ≡ is_live_job jobs.now number }
{
    get(jobs, number).is_some()
}

/// The hold bits of a job (qhold): user 1, operator 2, system 4; 0 where there is no such job.
pub fn holds_of(jobs: &JobTable, number: u32) -> u8
    ensures { result ≡ bits_of jobs.now number }
{
    match get(jobs, number) {
        None => 0,
        Some(job) => job.hold,
    }
}
