// One task after the other.
ghost use Rattle.std.specs.Prelude.{◌≡◌, ◌≤◌, [], false, Some, IfOk, OnOk, IsTrue, fold};
ghost use Rattle.ge_model_place.specs.Windows.{base_bookings};
ghost use Rattle.ge_model_place.specs.Running.{decide as with_task};
ghost use Rattle.ge_attempts.specs.KindNotes.{TellKinds};
ghost use Rattle.ge_scheduling.specs.Passing.{passed_by as job_passed, MayNotKeep, Waits, Follows};

use crate::bookings::book;
use crate::deciding::decision;
use crate::noting::{is_noted, note};
use ge_attempts::{
    Room, Setting, Tally, count, first_tally, may_reserve, no_slot_is_left, renew, room_at,
};
use ge_rows::{Decision, List, TaskId, job_at};
use ge_timeline::Timeline;
use std::alloc::{AllocError, Global};
use std::collections::BTreeSet;

/// What is booked and decided so far, what is counted of that, a job whose tasks all wait until something is booked, kinds of
/// jobs of which no task can start any more, and what is left at each instance.
#[derive(Drop)]
pub(crate) struct Progress {
    pub(crate) booked: Timeline,
    pub(crate) decisions: List<Decision>,
    pub(crate) tally: Tally,
    pub(crate) passed: Option<u32>,
    pub(crate) full: BTreeSet<u32>,
    pub(crate) room: Room,
}

/// Before any task is decided: with what running tasks and advance reservations book.
pub(crate) fn begin(
    alloc: Global,
    at: &Setting<'_>,
    booked: Timeline,
) -> Result<Progress, AllocError>
    requires told { TellKinds at.now.cluster.now.jobs at.now.kinds.now.entries }
    requires taken { booked ≡ base_bookings at.now.cluster.now at.now.groups.now at.now.moment }
    ensures booked { IfOk result (λ so_far. so_far.booked
        ≡ base_bookings at.now.cluster.now at.now.groups.now at.now.moment) }
    ensures decisions { IfOk result (λ so_far. so_far.decisions ≡ []) }
    ensures follows { IfOk result (λ so_far. Follows at.now.cluster.now at.now.groups.now
        at.now.order.now at.now.moment at.now.kinds.now.entries so_far.booked so_far.decisions
        so_far.tally so_far.passed so_far.full so_far.room) }
{
    let tally = first_tally(alloc, at.cluster)?;
    let room = room_at(alloc, at, &booked)?;
    Ok(Progress {
        booked,
        decisions: List::new(alloc),
        tally,
        passed: None,
        full: BTreeSet::new(alloc),
        room,
    })
}

fn is_passed(passed: Option<u32>, number: u32) -> bool
    ensures { IsTrue result → passed ≡ Some number }
{
    match passed {
        Some(other) => other == number,
        None => false,
    }
}

fn all_are_kept(at: &Setting<'_>, tally: &Tally) -> bool
    ensures { IsTrue result → at.now.cluster.now.sched.max_reservation ≤ tally.now.reserved }
{
    at.cluster.sched.max_reservation <= tally.reserved
}

// Whether slots may be kept for a task of a job. Once as many tasks have some as may, no job is looked at.
fn may_keep(at: &Setting<'_>, so_far: &Progress, number: u32) -> bool
    ensures { result ≡ false → MayNotKeep at.now.cluster.now so_far.now.tally number }
{
    if all_are_kept(at, &so_far.tally) {
        return false;
    }
    match job_at(&at.cluster.jobs, number) {
        Some(job) => may_reserve(&at.cluster.sched, &so_far.tally, job),
        None => false,
    }
}

// Whether no task of a job may have slots kept, and none can start: no instance has enough left for any job, or the job's kind
// is noted.
fn is_shut(at: &Setting<'_>, so_far: &Progress, number: u32) -> bool
    requires { Follows at.now.cluster.now at.now.groups.now at.now.order.now
        at.now.moment at.now.kinds.now.entries so_far.now.booked so_far.now.decisions
        so_far.now.tally so_far.now.passed so_far.now.full so_far.now.room }
    ensures { IsTrue result → Waits at.now.cluster.now at.now.groups.now at.now.order.now
        at.now.moment so_far.now.booked so_far.now.decisions number }
{
    if may_keep(at, so_far, number) {
        return false;
    }
    if no_slot_is_left(at.cluster, &so_far.room.vacant) {
        return true;
    }
    is_noted(at.kinds, &so_far.full, number)
}

// Whether no task can start any more, and none may have slots kept, since as many have as may.
fn nothing_is_left(at: &Setting<'_>, so_far: &Progress) -> bool
    ensures { IsTrue result → (so_far.now.room.vacant ≡ []) × (at.now.cluster.now.advances ≡ [])
        × (at.now.cluster.now.sched.max_reservation ≤ so_far.now.tally.reserved) }
{
    all_are_kept(at, &so_far.tally) && no_slot_is_left(at.cluster, &so_far.room.vacant)
}

// Whether the tasks of a job are known to wait.
fn waits(at: &Setting<'_>, so_far: &Progress, number: u32) -> bool
    requires { Follows at.now.cluster.now at.now.groups.now at.now.order.now
        at.now.moment at.now.kinds.now.entries so_far.now.booked so_far.now.decisions
        so_far.now.tally so_far.now.passed so_far.now.full so_far.now.room }
    ensures { IsTrue result → Waits at.now.cluster.now at.now.groups.now at.now.order.now
        at.now.moment so_far.now.booked so_far.now.decisions number }
{
    if is_passed(so_far.passed, number) {
        return true;
    }
    if nothing_is_left(at, so_far) {
        return true;
    }
    is_shut(at, so_far, number)
}

fn passed_by(number: u32, decision: &Decision) -> Option<u32>
    ensures { result ≡ job_passed number decision.now }
{
    match decision {
        Decision::Skip(_) => Some(number),
        Decision::Start(_) | Decision::Reserve(_) => None,
    }
}

// Whether the task before started, as most do behind one that does.
fn is_behind_start(decisions: &List<Decision>) -> bool {
    matches!(decisions.items().last(), Some(Decision::Start(_)))
}

// Decides a task whose job isn't known to wait.
fn weigh(
    alloc: Global,
    at: &Setting<'_>,
    so_far: &mut Progress,
    task: TaskId,
) -> Result<(), AllocError>
    requires { Follows at.now.cluster.now at.now.groups.now at.now.order.now
        at.now.moment at.now.kinds.now.entries so_far.old.booked so_far.old.decisions
        so_far.old.tally so_far.old.passed so_far.old.full so_far.old.room }
    ensures decided { OnOk result ((so_far.new.booked, so_far.new.decisions)
        ≡ with_task at.now.cluster.now at.now.groups.now at.now.order.now at.now.moment
        (so_far.old.booked, so_far.old.decisions) task) }
    ensures follows { OnOk result (Follows at.now.cluster.now at.now.groups.now at.now.order.now
        at.now.moment at.now.kinds.now.entries so_far.new.booked so_far.new.decisions
        so_far.new.tally so_far.new.passed so_far.new.full so_far.new.room) }
{
    let at_once = is_behind_start(&so_far.decisions);
    let made = decision(
        alloc,
        at,
        &so_far.booked,
        &so_far.tally,
        &mut so_far.room,
        at_once,
        task,
    )?;
    book(alloc, at, &mut so_far.booked, &made)?;
    count(alloc, at.cluster, &mut so_far.tally, &made)?;
    note(at.cluster, at.kinds, &mut so_far.full, task.job, &made)?;
    renew(alloc, at, &so_far.booked, &mut so_far.room, &made);
    so_far.passed = passed_by(task.job, &made);
    so_far.decisions.push(made)?;
    Ok(())
}

// One more task. One that is known to wait isn't placed.
fn advance(
    alloc: Global,
    at: &Setting<'_>,
    so_far: &mut Progress,
    task: TaskId,
) -> Result<(), AllocError>
    requires { Follows at.now.cluster.now at.now.groups.now at.now.order.now
        at.now.moment at.now.kinds.now.entries so_far.old.booked so_far.old.decisions
        so_far.old.tally so_far.old.passed so_far.old.full so_far.old.room }
    ensures decided { OnOk result ((so_far.new.booked, so_far.new.decisions)
        ≡ with_task at.now.cluster.now at.now.groups.now at.now.order.now at.now.moment
        (so_far.old.booked, so_far.old.decisions) task) }
    ensures follows { OnOk result (Follows at.now.cluster.now at.now.groups.now at.now.order.now
        at.now.moment at.now.kinds.now.entries so_far.new.booked so_far.new.decisions
        so_far.new.tally so_far.new.passed so_far.new.full so_far.new.room) }
{
    if waits(at, so_far, task.job) {
        so_far.decisions.push(Decision::Skip(task))?;
        return Ok(());
    }
    weigh(alloc, at, so_far, task)
}

/// Decides all tasks, in their order.
pub(crate) fn advance_all(
    alloc: Global,
    at: &Setting<'_>,
    start: Progress,
    order: &[TaskId],
) -> Result<Progress, AllocError>
    requires { Follows at.now.cluster.now at.now.groups.now at.now.order.now
        at.now.moment at.now.kinds.now.entries start.booked start.decisions
        start.tally start.passed start.full start.room }
    ensures decided { IfOk result (λ so_far. (so_far.booked, so_far.decisions)
        ≡ fold (with_task at.now.cluster.now at.now.groups.now at.now.order.now at.now.moment)
        (start.booked, start.decisions) order.now) }
    ensures follows { IfOk result (λ so_far. Follows at.now.cluster.now at.now.groups.now
        at.now.order.now at.now.moment at.now.kinds.now.entries so_far.booked so_far.decisions
        so_far.tally so_far.passed so_far.full so_far.room) }
{
    let mut so_far = start;
    for task in order {
        advance(alloc, at, &mut so_far, *task)?;
    }
    Ok(so_far)
}
