// The targets of qdel and qmod: what refuses them, and the jobs that they name.
ghost use Rattle.std.specs.Prelude.{◌≡◌, ◌++◌, IfOk, OnOk, flat_map};
ghost use Rattle.ge_model_rows.specs.Faults.{after_faults};
ghost use Rattle.ge_model_core.specs.Targets.{target_faults, live_named, named_jobs};
ghost use Rattle.ge_deleting.specs.Counts.{shown};

use crate::living::LiveTasks;
use ge_base::Refusal;
use ge_jobs::{NamedTasks, joined};
use ge_pieces::note;
use ge_rows::{Job, Pick, TaskSet};
use std::alloc::{AllocError, Global};

/// A job, and its live tasks that targets name.
#[derive(Drop)]
pub(crate) struct NamedJob<'a> {
    /// The job.
    pub(crate) job: &'a Job,
    /// The tasks.
    pub(crate) tasks: TaskSet,
}

// What refuses one target.
fn note_target(
    alloc: Global,
    live: &mut LiveTasks,
    pick: &Pick,
    faults: &mut Option<Refusal>,
) -> Result<(), AllocError>
    ensures noted { OnOk result (faults.new
        ≡ after_faults faults.old (target_faults live.old.0 live.old.1 pick.now)) }
    ensures same { live.new ≡ live.old }
{
    let Some(job) = live.asker().job(pick.job) else {
        note(faults, true, Refusal::NoSuchObject);
        return Ok(());
    };
    let none = live.names_none(alloc, pick.job, &pick.tasks)?;
    note(faults, live.asker().is_foreign(job), Refusal::NotPermitted);
    note(faults, none, Refusal::NoSuchObject);
    Ok(())
}

/// Notes what refuses targets: `NoSuchObject` for one that names no live task of a live job, `NotPermitted` for a job that
/// the user may not touch.
pub(crate) fn note_targets(
    alloc: Global,
    live: &mut LiveTasks,
    picks: &[Pick],
    faults: &mut Option<Refusal>,
) -> Result<(), AllocError>
    ensures noted { OnOk result (faults.new
        ≡ after_faults faults.old (flat_map (target_faults live.old.0 live.old.1) picks.now)) }
    ensures same { live.new ≡ live.old }
{
    for pick in picks {
        note_target(alloc, live, pick, faults)?;
    }
    Ok(())
}

// One more job, if it lives, with its live tasks that its targets name.
fn push_named<'a>(
    alloc: Global,
    live: &mut LiveTasks<'a>,
    named: &mut Vec<NamedJob<'a>>,
    number: u32,
    tasks: &NamedTasks,
) -> Result<(), AllocError>
    ensures more { OnOk result (shown named.new.items
        ≡ shown named.old.items ++ live_named live.old.0 (number, tasks.now)) }
    ensures same { live.new ≡ live.old }
{
    let Some(job) = live.asker().job(number) else {
        return Ok(());
    };
    let tasks = live.picked(alloc, number, tasks)?;
    named.push(NamedJob { job, tasks })?;
    Ok(())
}

/// The jobs that targets name, each once, by number, with their live tasks that any of these targets names.
pub(crate) fn jobs_named<'a>(
    alloc: Global,
    live: &mut LiveTasks<'a>,
    picks: &[Pick],
) -> Result<Vec<NamedJob<'a>>, AllocError>
    ensures { IfOk result (λ named. shown named.items ≡ named_jobs live.old.0 picks.now) }
{
    let rows = joined(alloc, picks)?;
    let mut named = Vec::new(alloc);
    for (number, tasks) in rows.iter() {
        push_named(alloc, live, &mut named, *number, tasks)?;
    }
    Ok(named)
}
