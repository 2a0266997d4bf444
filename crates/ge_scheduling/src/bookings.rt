// What a decision books.
ghost use Rattle.std.specs.Prelude.{◌≡◌, ◌++◌, IfOk, OnOk};
ghost use Rattle.ge_collections.specs.Keyed.{at_number};
ghost use Rattle.ge_model_place.specs.Running.{booking_at, booked_by};
ghost use Rattle.ge_model_place.specs.Windows.{base_bookings as base};

use ge_attempts::Setting;
use ge_rows::{Decision, Grant, List, TaskId, job_at};
use ge_timeline::Timeline;
use ge_windows::{base_bookings, booking};
use std::alloc::{AllocError, Global};

/// What running tasks and advance reservations book.
pub(crate) fn first_booked(alloc: Global, at: &Setting<'_>) -> Result<Timeline, AllocError>
    ensures { IfOk result (λ booked. booked
        ≡ base at.now.cluster.now at.now.groups.now at.now.moment) }
{
    let bookings = base_bookings(alloc, at.cluster, at.groups, at.moment)?;
    let booked = Timeline::from_bookings(alloc, bookings)?;
    Ok(booked)
}

fn book_task(
    alloc: Global,
    at: &Setting<'_>,
    booked: &mut Timeline,
    task: TaskId,
    grants: &List<Grant>,
    from: u64,
) -> Result<(), AllocError>
    ensures { OnOk result (booked.new ≡ booked.old
        ++ booking_at at.now.cluster.now at.now.groups.now
        (at_number at.now.cluster.now.jobs task.job) task grants.now from) }
{
    match job_at(&at.cluster.jobs, task.job) {
        Some(job) => {
            let b = booking(
                alloc,
                at.cluster,
                at.groups,
                job,
                task,
                grants.items(),
                from,
            )?;
            booked.add(b)
        }
        None => Ok(()),
    }
}

/// Books what a decision takes: a start from now on, a reservation from its moment on.
pub(crate) fn book(
    alloc: Global,
    at: &Setting<'_>,
    booked: &mut Timeline,
    decision: &Decision,
) -> Result<(), AllocError>
    ensures { OnOk result (booked.new ≡ booked.old
        ++ booked_by at.now.cluster.now at.now.groups.now at.now.moment decision.now) }
{
    match decision {
        Decision::Start(start) => book_task(
            alloc,
            at,
            booked,
            start.task,
            &start.grants,
            at.moment,
        ),
        Decision::Reserve(kept) => book_task(alloc, at, booked, kept.task, &kept.grants, kept.at),
        Decision::Skip(_) => Ok(()),
    }
}
