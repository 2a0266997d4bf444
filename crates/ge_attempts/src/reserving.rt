// Slots that are kept for a task which can't start now.
ghost use Rattle.std.specs.Prelude.{◌≡◌, Some, IfOk, OnOk, All};
ghost use Rattle.ge_attempts.specs.Amounts.{IsInTable};
ghost use Rattle.ge_attempts.specs.Common.{IsAsked};
ghost use Rattle.ge_attempts.specs.Rests.{AreLeft};
ghost use Rattle.ge_attempts.specs.Verdicts.{reserved as reserved_for};

use crate::placing::place_then;
use crate::rests::Room;
use crate::setting::Setting;
use ge_demands::Counted;
use ge_rows::{Decision, Job, List, Reservation, TaskId};
use ge_timeline::Timeline;
use std::alloc::{AllocError, Global};

/// Keeps slots for a task at the first end of a booking at which it can be placed (sched_conf, `max_reservation`). Ends are
/// taken as they rise, each moment once; no instance is looked at where one of the limits that count everywhere has no room.
pub fn reserve(
    alloc: Global,
    at: &Setting<'_>,
    booked: &Timeline,
    room: &mut Room,
    asked: &List<Counted>,
    job: &Job,
    task: TaskId,
) -> Result<Decision, AllocError>
    requires there { IsInTable at.now.cluster.now job.now }
    requires left { AreLeft at.now.cluster.now at.now.groups.now at.now.moment booked.now
        at.now.order.now room.old }
    requires asked { All (IsAsked at.now.cluster.now at.now.groups.now job.now) asked.now }
    ensures decided { IfOk result (λ decision. decision
        ≡ reserved_for at.now.cluster.now at.now.groups.now at.now.order.now at.now.moment
        booked.now (Some job.now) task) }
    ensures left { OnOk result (AreLeft at.now.cluster.now at.now.groups.now at.now.moment
        booked.now at.now.order.now room.new) }
{
    let mut moment = at.moment;
    while let Some(end) = booked.next_end_after(moment) {
        if let Some(grants) = place_then(alloc, at, booked, room, asked, job, end)? {
            return Ok(Decision::Reserve(Reservation {
                task,
                at: end,
                grants,
            }));
        }
        moment = end;
    }
    Ok(Decision::Skip(task))
}
