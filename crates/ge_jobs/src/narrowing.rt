// The tasks of a job that targets name, in place of all tasks that they name.
ghost use Rattle.std.specs.Prelude.{◌≡◌, Bool, IfOk, filter, Some};
ghost use Rattle.std.specs.Option.{option_map};
ghost use Rattle.ge_model_rows.specs.Sets.{meet as meet_of};
ghost use Rattle.ge_model_jobs.specs.Holds.{holding_tasks as holding_of};
ghost use Rattle.ge_model_jobs.specs.Ending.{without_picked, is_named, cleared as cleared_of};

use crate::gathered::{Gathered, part_of};
use crate::holding::holding_tasks;
use crate::picking::NamedTasks;
use ge_rows::{Job, TaskSet};
use std::alloc::{AllocError, Global};

// Those of a job that sets have.
#[tactic(auto, using(crate::proofs::NarrowedJobs::narrowed_part, crate::proofs::NarrowedJobs::narrowed_deleted, crate::proofs::NarrowedJobs::narrowed_named, crate::proofs::NarrowedJobs::narrowed_cleared))]
fn part_in(alloc: Global, all: &Gathered, job: &Job) -> Result<TaskSet, AllocError>
    ensures part { IfOk result (λ part. part ≡ meet_of (holding_of job.now) all.now) }
    ensures deleted { IfOk result (λ part. (force : Bool)
        → without_picked force (Some part) job.now ≡ without_picked force (Some all.now) job.now) }
    ensures named { IfOk result (λ part.
        filter (is_named (Some part)) job.now.running
        ≡ filter (is_named (Some all.now)) job.now.running) }
    ensures cleared { IfOk result (λ part.
        cleared_of (Some part) job.now ≡ cleared_of (Some all.now) job.now) }
{
    let _queued = job.queued.spans();
    let _broken = job.broken.spans();
    job.running.orderly();
    let own = holding_tasks(alloc, job)?;
    let part = part_of(alloc, all, &own)?;
    Ok(part)
}

/// The tasks of a job that targets name, none where they name all: those of its live tasks that they have, and no others. With
/// these a deletion and a clearing do to it what they do with all tasks that the targets name.
pub fn narrowed(alloc: Global, named: &NamedTasks, job: &Job) -> Result<Option<TaskSet>, AllocError>
    ensures part { IfOk result (λ part. part ≡ option_map (meet_of
        (holding_of job.now)) named.now) }
    ensures deleted { IfOk result (λ part. (force : Bool)
        → without_picked force part job.now ≡ without_picked force named.now job.now) }
    ensures named { IfOk result (λ part.
        filter (is_named part) job.now.running ≡ filter (is_named named.now) job.now.running) }
    ensures cleared { IfOk result (λ part. cleared_of part job.now ≡ cleared_of named.now job.now) }
{
    let Some(all) = named.sets() else {
        return Ok(None);
    };
    let part = part_in(alloc, all, job)?;
    Ok(Some(part))
}
