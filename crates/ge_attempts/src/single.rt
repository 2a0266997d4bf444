// The start of a task of a job without a parallel environment, which takes one slot.
ghost use Rattle.std.specs.Prelude.{◌≡◌, ◌<◌, ◌==◌, true, None, Some, cond, ◌∷◌, [], length, slice_index_or, IfOk, IfSome, All};
ghost use Rattle.ge_model_place.specs.Placement.{are_admissible, placement_of};
ghost use Rattle.ge_model_place.specs.Runs.{one_slot};
ghost use Rattle.ge_model_place.specs.Windows.{window_end_from as window_end};
ghost use Rattle.ge_model_rows.specs.HostRows.{InstanceId as Instance};
ghost use Rattle.ge_attempts.specs.Amounts.{IsInTable};
ghost use Rattle.ge_attempts.specs.Common.{IsAsked};
ghost use Rattle.ge_attempts.specs.Rests.{IsLeftAt, AreLeft};
ghost use Rattle.ge_attempts.specs.Vacant.{goes_on as has_moment};

use crate::rests::{Left, Room, are_short, is_before};
use crate::setting::{Setting, place_among};
use ge_demands::Counted;
use ge_rows::{Grant, InstanceId, Job, List};
use ge_timeline::Timeline;
use ge_windows::window_end_from;
use std::alloc::{AllocError, Global};

// The instance at a place, alone.
fn one_at<'a>(order: &'a [InstanceId], place: usize) -> &'a [InstanceId]
    requires { place < length order.now }
    ensures { (d : Instance) → result.now ≡ slice_index_or order.now place d ∷ [] }
{
    let (_, behind) = order.split_at(place);
    let (one, _) = behind.split_at(1);
    one
}

// The grant of a slot at an instance, where that takes one.
fn grant_at(
    alloc: Global,
    at: &Setting<'_>,
    booked: &Timeline,
    job: &Job,
    _instance: &InstanceId,
    one: &[InstanceId],
) -> Result<Option<List<Grant>>, AllocError>
    requires single { job.now.request.pe ≡ None }
    requires one { one.now ≡ _instance.now ∷ [] }
    ensures { IfOk result (λ grants. grants ≡ cond (are_admissible at.now.cluster.now
        at.now.groups.now job.now booked.now at.now.moment (one_slot _instance.now))
        (Some (one_slot _instance.now)) None) }
{
    let grants = place_among(alloc, at, one, booked, job, at.moment)?;
    Ok(grants)
}

// The grant of a slot at an instance, where that takes one. It isn't asked where something is short there.
fn take_at(
    alloc: Global,
    at: &Setting<'_>,
    booked: &Timeline,
    left: &Left,
    until: u64,
    asked: &List<Counted>,
    job: &Job,
    instance: &InstanceId,
    one: &[InstanceId],
) -> Result<Option<List<Grant>>, AllocError>
    requires goes_on { has_moment at.now.cluster.now at.now.moment ≡ true }
    requires free { (job.now.advance == 0) ≡ true }
    requires there { IsInTable at.now.cluster.now job.now }
    requires single { job.now.request.pe ≡ None }
    requires left { IsLeftAt at.now.cluster.now at.now.groups.now at.now.moment booked.now
        instance.now left.now }
    requires ends { until ≡ window_end at.now.cluster.now job.now at.now.moment }
    requires asked { All (IsAsked at.now.cluster.now at.now.groups.now job.now) asked.now }
    requires one { one.now ≡ instance.now ∷ [] }
    ensures { IfOk result (λ grants. grants ≡ cond (are_admissible at.now.cluster.now
        at.now.groups.now job.now booked.now at.now.moment (one_slot instance.now))
        (Some (one_slot instance.now)) None) }
{
    if is_before(left.blocked, Some(until)) {
        return Ok(None);
    }
    if are_short(asked.items(), left.rests.items()) {
        return Ok(None);
    }
    let grants = grant_at(alloc, at, booked, job, instance, one)?;
    Ok(grants)
}

/// The grant of a slot at the first instance that takes one now. Each is asked by itself, and only where nothing is short, so
/// that one that refuses makes none behind it be asked. Those with too little left for any job aren't looked at.
pub(crate) fn place_alone(
    alloc: Global,
    at: &Setting<'_>,
    booked: &Timeline,
    room: &Room,
    asked: &List<Counted>,
    job: &Job,
) -> Result<Option<List<Grant>>, AllocError>
    requires goes_on { has_moment at.now.cluster.now at.now.moment ≡ true }
    requires free { (job.now.advance == 0) ≡ true }
    requires there { IsInTable at.now.cluster.now job.now }
    requires single { job.now.request.pe ≡ None }
    requires left { AreLeft at.now.cluster.now at.now.groups.now at.now.moment booked.now
        at.now.order.now room.now }
    requires asked { All (IsAsked at.now.cluster.now at.now.groups.now job.now) asked.now }
    ensures { IfOk result (λ grants. grants
        ≡ placement_of at.now.cluster.now at.now.groups.now at.now.order.now booked.now job.now
        at.now.moment) }
{
    let order = at.order;
    let lefts = room.lefts.items();
    let until = window_end_from(at.cluster, job, at.moment);
    for place in room.vacant.items() {
        let instance = &order[*place];
        let left = &lefts[*place];
        let one = one_at(order, *place);
        if let Some(grants) = take_at(alloc, at, booked, left, until, asked, job, instance, one)? {
            return Ok(Some(grants));
        }
    }
    Ok(None)
}

/// The grant of a slot at the first place with a slot left, where that takes one; where none is given, nothing is known.
pub(crate) fn place_first(
    alloc: Global,
    at: &Setting<'_>,
    booked: &Timeline,
    room: &Room,
    job: &Job,
) -> Result<Option<List<Grant>>, AllocError>
    requires goes_on { has_moment at.now.cluster.now at.now.moment ≡ true }
    requires free { (job.now.advance == 0) ≡ true }
    requires there { IsInTable at.now.cluster.now job.now }
    requires single { job.now.request.pe ≡ None }
    requires left { AreLeft at.now.cluster.now at.now.groups.now at.now.moment booked.now
        at.now.order.now room.now }
    ensures { IfOk result (λ grants. IfSome grants (λ given. Some given
        ≡ placement_of at.now.cluster.now at.now.groups.now at.now.order.now booked.now job.now
        at.now.moment)) }
{
    let places = room.vacant.items();
    if places.is_empty() {
        return Ok(None);
    }
    let place = places[0];
    let instance = &at.order[place];
    let one = one_at(at.order, place);
    let grants = grant_at(alloc, at, booked, job, instance, one)?;
    Ok(grants)
}
