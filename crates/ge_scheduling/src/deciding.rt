// The decision of one task.
ghost use Rattle.std.specs.Prelude.{◌≡◌, ◌==◌, true, None, Some, IfOk, OnOk};
ghost use Rattle.std.specs.List.{list_all};
ghost use Rattle.ge_collections.specs.Keyed.{at_number};
ghost use Rattle.ge_model_place.specs.Placement.{placement_of};
ghost use Rattle.ge_model_place.specs.Running.{start_with as started};
ghost use Rattle.ge_attempts.specs.Amounts.{IsInTable};
ghost use Rattle.ge_attempts.specs.Counts.{is_over, may_be_reserved};
ghost use Rattle.ge_attempts.specs.Rests.{blocked_in, AreLeft};
ghost use Rattle.ge_attempts.specs.Vacant.{goes_on as has_moment};
ghost use Rattle.ge_attempts.specs.Verdicts.{waiting, decision_by, decision_at};

use ge_attempts::{
    Room, Setting, Tally, asked_limits, goes_on, is_before, is_full, may_reserve, place_at_once,
    place_now, reserve,
};
use ge_limits::LAST_SERIAL;
use ge_rows::{Decision, Grant, Job, List, Start, TaskId, job_at};
use ge_timeline::Timeline;
use ge_windows::window_end_from;
use std::alloc::{AllocError, Global};

// A start, where there is a number left.
fn start_with(task: TaskId, serial: u64, grants: List<Grant>) -> Decision
    ensures { result ≡ started task serial grants }
{
    if serial > LAST_SERIAL {
        Decision::Skip(task)
    } else {
        Decision::Start(Start {
            task,
            serial,
            grants,
        })
    }
}

// Whether too little is left for any job at a place before a window ends.
fn is_blocked(room: &Room, until: u64, place: usize) -> bool
    ensures { result ≡ blocked_in room.now.lefts until place }
{
    match room.lefts.items().get(place) {
        Some(left) => is_before(left.blocked, Some(until)),
        None => false,
    }
}

fn all_blocked(room: &Room, until: u64) -> bool
    ensures { result ≡ list_all (blocked_in room.now.lefts until) room.now.vacant }
{
    room.vacant
        .items()
        .iter()
        .all(|place| is_blocked(room, until, *place))
}

// Whether no instance takes a slot of a job that is sent into no reservation, by what is known of the vacant ones alone.
fn all_refuse(at: &Setting<'_>, _booked: &Timeline, room: &Room, job: &Job) -> bool
    requires goes_on { has_moment at.now.cluster.now at.now.moment ≡ true }
    requires free { (job.now.advance == 0) ≡ true }
    requires there { IsInTable at.now.cluster.now job.now }
    requires left { AreLeft at.now.cluster.now at.now.groups.now at.now.moment _booked.now
        at.now.order.now room.now }
    ensures { result ≡ true → placement_of at.now.cluster.now at.now.groups.now at.now.order.now
        _booked.now job.now at.now.moment ≡ None }
{
    all_blocked(room, window_end_from(at.cluster, job, at.moment))
}

// Whether a job is known to have no placement now before it is weighed.
fn none_takes(at: &Setting<'_>, booked: &Timeline, room: &Room, job: &Job) -> bool
    requires there { IsInTable at.now.cluster.now job.now }
    requires left { AreLeft at.now.cluster.now at.now.groups.now at.now.moment booked.now
        at.now.order.now room.now }
    ensures { result ≡ true → placement_of at.now.cluster.now at.now.groups.now at.now.order.now
        booked.now job.now at.now.moment ≡ None }
{
    if job.advance == 0 && goes_on(at.cluster, at.moment) {
        return all_refuse(at, booked, room, job);
    }
    false
}

// Of a task that can't start now.
fn keep_waiting(
    alloc: Global,
    at: &Setting<'_>,
    booked: &Timeline,
    tally: &Tally,
    room: &mut Room,
    job: &Job,
    task: TaskId,
) -> Result<Decision, AllocError>
    requires there { IsInTable at.now.cluster.now job.now }
    requires left { AreLeft at.now.cluster.now at.now.groups.now at.now.moment booked.now
        at.now.order.now room.old }
    ensures decided { IfOk result (λ decision. decision
        ≡ waiting at.now.cluster.now at.now.groups.now at.now.order.now at.now.moment
        booked.now (may_be_reserved at.now.cluster.now.sched tally.now job.now) (Some job.now) task) }
    ensures left { OnOk result (AreLeft at.now.cluster.now at.now.groups.now at.now.moment
        booked.now at.now.order.now room.new) }
{
    if !may_reserve(&at.cluster.sched, tally, job) {
        return Ok(Decision::Skip(task));
    }
    let asked = asked_limits(alloc, at, job)?;
    reserve(alloc, at, booked, room, &asked, job, task)
}

// Of a task of a job.
fn decision_for(
    alloc: Global,
    at: &Setting<'_>,
    booked: &Timeline,
    tally: &Tally,
    room: &mut Room,
    at_once: bool,
    job: &Job,
    task: TaskId,
) -> Result<Decision, AllocError>
    requires there { IsInTable at.now.cluster.now job.now }
    requires left { AreLeft at.now.cluster.now at.now.groups.now at.now.moment booked.now
        at.now.order.now room.old }
    ensures decided { IfOk result (λ decision. decision
        ≡ decision_by at.now.cluster.now at.now.groups.now at.now.order.now at.now.moment
        booked.now (is_over at.now.cluster.now.sched tally.now job.now.owner)
        (may_be_reserved at.now.cluster.now.sched tally.now job.now) tally.now.serial
        (Some job.now) task) }
    ensures left { OnOk result (AreLeft at.now.cluster.now at.now.groups.now at.now.moment
        booked.now at.now.order.now room.new) }
{
    if is_full(&at.cluster.sched, tally, &job.owner) {
        return Ok(Decision::Skip(task));
    }
    if let Some(grants) = place_at_once(alloc, at, booked, room, at_once, job)? {
        return Ok(start_with(task, tally.serial, grants));
    }
    if none_takes(at, booked, room, job) {
        return keep_waiting(alloc, at, booked, tally, room, job, task);
    }
    let asked = asked_limits(alloc, at, job)?;
    match place_now(alloc, at, booked, room, &asked, job)? {
        Some(grants) => Ok(start_with(task, tally.serial, grants)),
        None => keep_waiting(alloc, at, booked, tally, room, job, task),
    }
}

/// The decision of a task over what is booked, by what is counted of the decisions before: a start, where the job's owner may
/// have one more and it can be placed now; slots kept, where the job asks for that and may; else it waits, as a task does whose
/// job isn't there (sched_conf, `maxujobs`, `max_reservation`). What is left at each instance is lent, so that one with too
/// little isn't looked at. The first place with a slot left may be tried at once, as pays behind a start.
pub(crate) fn decision(
    alloc: Global,
    at: &Setting<'_>,
    booked: &Timeline,
    tally: &Tally,
    room: &mut Room,
    at_once: bool,
    task: TaskId,
) -> Result<Decision, AllocError>
    requires { AreLeft at.now.cluster.now at.now.groups.now at.now.moment booked.now
        at.now.order.now room.old }
    ensures decided { IfOk result (λ decision. decision
        ≡ decision_at at.now.cluster.now at.now.groups.now at.now.order.now at.now.moment
        booked.now tally.now (at_number at.now.cluster.now.jobs task.job) task) }
    ensures left { OnOk result (AreLeft at.now.cluster.now at.now.groups.now at.now.moment
        booked.now at.now.order.now room.new) }
{
    match job_at(&at.cluster.jobs, task.job) {
        Some(job) => decision_for(alloc, at, booked, tally, room, at_once, job, task),
        None => Ok(Decision::Skip(task)),
    }
}
