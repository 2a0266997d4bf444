// Hold bits.
ghost use Rattle.std.specs.Prelude.{◌≡◌};
ghost use Rattle.ge_model_jobs.specs.Altering.{with_hold, held, freed, change_job, hold_set};

use ge_rows::{Edit, InRow, Job, JobMark, JobTable};
use std::alloc::{AllocError, Global};

// A job gets these hold bits and no others.
#[derive(Clone, Copy)]
struct Holding {
    bits: u8,
}

impl Edit<Job> for Holding {
    ghost edited = { λ h job. with_hold h.bits job };

    fn lost(&self, alloc: Global, _job: &Job) -> Result<Vec<JobMark>, AllocError> {
        Ok(Vec::new(alloc))
    }

    fn gained(&self, alloc: Global, _job: &Job) -> Result<Vec<JobMark>, AllocError> {
        Ok(Vec::new(alloc))
    }

    fn relabels(&self, _job: &Job) -> bool {
        false
    }

    fn edit(&self, job: &mut Job) {
        job.hold = self.bits;
    }
}

// A job gets hold bits more.
#[derive(Clone, Copy)]
struct Held {
    bits: u8,
}

impl Edit<Job> for Held {
    ghost edited = { λ h job. held h.bits job };

    fn lost(&self, alloc: Global, _job: &Job) -> Result<Vec<JobMark>, AllocError> {
        Ok(Vec::new(alloc))
    }

    fn gained(&self, alloc: Global, _job: &Job) -> Result<Vec<JobMark>, AllocError> {
        Ok(Vec::new(alloc))
    }

    fn relabels(&self, _job: &Job) -> bool {
        false
    }

    fn edit(&self, job: &mut Job) {
        job.hold |= self.bits;
    }
}

// A job loses hold bits.
#[derive(Clone, Copy)]
struct Freed {
    bits: u8,
}

impl Edit<Job> for Freed {
    ghost edited = { λ f job. freed f.bits job };

    fn lost(&self, alloc: Global, _job: &Job) -> Result<Vec<JobMark>, AllocError> {
        Ok(Vec::new(alloc))
    }

    fn gained(&self, alloc: Global, _job: &Job) -> Result<Vec<JobMark>, AllocError> {
        Ok(Vec::new(alloc))
    }

    fn relabels(&self, _job: &Job) -> bool {
        false
    }

    fn edit(&self, job: &mut Job) {
        job.hold &= 255 - self.bits;
    }
}

/// Gives a job these hold bits and no others (qalter, -h).
pub fn set_hold(jobs: &mut JobTable, number: u32, bits: u8)
    ensures { jobs.new ≡ hold_set jobs.old number bits }
{
    let edit = InRow {
        edit: &Holding { bits },
    };
    let _found = jobs.change(&number, &edit);
}

/// Gives a job hold bits more (qhold).
pub fn hold(jobs: &mut JobTable, number: u32, bits: u8)
    ensures { jobs.new ≡ change_job (held bits) jobs.old number }
{
    let edit = InRow {
        edit: &Held { bits },
    };
    let _found = jobs.change(&number, &edit);
}

/// Takes hold bits from a job (qrls).
pub fn release(jobs: &mut JobTable, number: u32, bits: u8)
    ensures { jobs.new ≡ change_job (freed bits) jobs.old number }
{
    let edit = InRow {
        edit: &Freed { bits },
    };
    let _found = jobs.change(&number, &edit);
}
