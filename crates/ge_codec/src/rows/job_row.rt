// Jobs as the table of jobs keeps them: their bytes are those of the job.
ghost use Rattle.std.specs.Prelude.{◌≡◌};

use crate::canon::{Canon, Format, Format1};
use ge_model_codec::TakeFault;
use ge_rows::{Job, JobRow, Text};
use std::alloc::{AllocError, Global};

impl Canon for JobRow {
    ghost use Rattle.ge_model_codec.specs.Jobs.{job_code};
    ghost use Rattle.ge_codec.specs.JobLaws.{job_canonical};

    ghost code = { job_code };

    ghost canonical = { job_canonical };

    fn put(&self, out: &mut Text) -> Result<(), AllocError> {
        self.job().put(out)
    }

    #[tactic(auto, using(crate::specs::Passing::fault_passes, crate::specs::Passing::fault_passes_made))]
    fn take(alloc: Global, bytes: &[u8], at: usize) -> Result<(JobRow, usize), TakeFault> {
        let (job, past) = Job::take(alloc, bytes, at)?;
        let row = JobRow::new(alloc, job)?;
        Ok((row, past))
    }
}

impl Format<JobRow> for Format1 {
    ghost use Rattle.ge_model_codec.specs.Jobs.{job_code_1};

    ghost code = { job_code_1 };

    #[tactic(auto, using(crate::specs::Passing::fault_passes, crate::specs::Passing::fault_passes_made))]
    fn take(alloc: Global, bytes: &[u8], at: usize) -> Result<(JobRow, usize), TakeFault> {
        let (job, past) = <Format1 as Format<Job>>::take(alloc, bytes, at)?;
        let row = JobRow::new(alloc, job)?;
        Ok((row, past))
    }
}
