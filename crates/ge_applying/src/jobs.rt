// Jobs that are submitted, altered, held, released and cleared: qsub, qalter, qhold, qrls, qmod.
ghost use Rattle.std.specs.Prelude.{◌≡◌, OnOk, fold};
ghost use Rattle.ge_model_jobs.specs.Altering.{with_job, alter_job, with_altered, change_job, held, with_held, freed, with_freed};
ghost use Rattle.ge_model_jobs.specs.Ending.{clear_from, with_cleared};

use ge_jobs::{NamedTasks, alter, clear_named, hold, joined, release, submit};
use ge_rows::{Cluster, JobRow, JobTable, Patch, Pick, Table};
use std::alloc::{AllocError, Global};

/// A job comes, and the next one has the number after it.
#[tactic(auto, unfolding(ge_model_jobs::specs::Altering::with_job))]
pub(crate) fn add_job(c: &mut Cluster, job: JobRow) -> Result<(), AllocError>
    ensures { OnOk result (c.new ≡ with_job c.old job) }
{
    let next = job.job().number.saturating_add(1);
    submit(&mut c.jobs, job)?;
    c.next_job = next;
    Ok(())
}

fn alter_all(alloc: Global, jobs: &mut JobTable, altered: &[(u32, Patch)]) -> Result<(), AllocError>
    ensures { OnOk result (jobs.new ≡ fold alter_job jobs.old altered.now) }
{
    for patched in altered {
        alter(alloc, jobs, patched.0, &patched.1)?;
    }
    Ok(())
}

/// Jobs are altered, one after the other.
#[tactic(auto, unfolding(ge_model_jobs::specs::Altering::with_altered))]
pub(crate) fn alter_jobs(
    alloc: Global,
    c: &mut Cluster,
    altered: &[(u32, Patch)],
) -> Result<(), AllocError>
    ensures { OnOk result (c.new ≡ with_altered c.old altered.now) }
{
    alter_all(alloc, &mut c.jobs, altered)?;
    Ok(())
}

fn hold_all(jobs: &mut JobTable, numbers: &[u32], bits: u8)
    ensures { jobs.new ≡ fold (change_job (held bits)) jobs.old numbers.now }
{
    for number in numbers {
        hold(jobs, *number, bits);
    }
}

/// Jobs get hold bits more.
#[tactic(auto, unfolding(ge_model_jobs::specs::Altering::with_held))]
pub(crate) fn hold_jobs(c: &mut Cluster, numbers: &[u32], bits: u8)
    ensures { c.new ≡ with_held c.old numbers.now bits }
{
    hold_all(&mut c.jobs, numbers, bits);
}

fn release_all(jobs: &mut JobTable, numbers: &[u32], bits: u8)
    ensures { jobs.new ≡ fold (change_job (freed bits)) jobs.old numbers.now }
{
    for number in numbers {
        release(jobs, *number, bits);
    }
}

/// Jobs lose hold bits.
#[tactic(auto, unfolding(ge_model_jobs::specs::Altering::with_freed))]
pub(crate) fn release_jobs(c: &mut Cluster, numbers: &[u32], bits: u8)
    ensures { c.new ≡ with_freed c.old numbers.now bits }
{
    release_all(&mut c.jobs, numbers, bits);
}

fn clear_all(
    alloc: Global,
    jobs: &mut JobTable,
    named: &Table<u32, NamedTasks>,
) -> Result<(), AllocError>
    ensures { OnOk result (jobs.new ≡ fold clear_from jobs.old named.now) }
{
    for (number, tasks) in named.iter() {
        clear_named(alloc, jobs, *number, tasks)?;
    }
    Ok(())
}

/// Tasks in error that picks name wait again, job by job.
#[tactic(auto, unfolding(ge_model_jobs::specs::Ending::with_cleared))]
pub(crate) fn clear_jobs(alloc: Global, c: &mut Cluster, picks: &[Pick]) -> Result<(), AllocError>
    ensures { OnOk result (c.new ≡ with_cleared c.old picks.now) }
{
    let named = joined(alloc, picks)?;
    clear_all(alloc, &mut c.jobs, &named)?;
    Ok(())
}
