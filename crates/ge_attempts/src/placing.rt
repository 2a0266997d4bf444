// Where a task is placed, now and later. What a look at numbers alone rules out isn't tried.
ghost use Rattle.std.specs.Prelude.{◌≡◌, ◌==◌, true, Some, IfOk, IfSome, OnOk, All};
ghost use Rattle.ge_model_place.specs.Placement.{placement_of};
ghost use Rattle.ge_attempts.specs.Amounts.{IsInTable};
ghost use Rattle.ge_attempts.specs.Common.{IsAsked};
ghost use Rattle.ge_attempts.specs.Rests.{AreLeft};
ghost use Rattle.ge_attempts.specs.Vacant.{goes_on as has_moment};

use crate::asking::is_refused;
use crate::finding::has_candidate;
use crate::rests::Room;
use crate::setting::{Setting, place_among};
use crate::single::{place_alone, place_first};
use crate::thinning::place_on_hosts;
use crate::vacancy::goes_on;
use ge_demands::Counted;
use ge_rows::{Grant, Job, List};
use ge_timeline::Timeline;
use std::alloc::{AllocError, Global};

// The grants of a task that may take slots at several instances and starts now. Nothing is looked for where none may take one.
fn place_together(
    alloc: Global,
    at: &Setting<'_>,
    booked: &Timeline,
    room: &mut Room,
    asked: &List<Counted>,
    job: &Job,
) -> Result<Option<List<Grant>>, AllocError>
    requires goes_on { has_moment at.now.cluster.now at.now.moment ≡ true }
    requires free { (job.now.advance == 0) ≡ true }
    requires there { IsInTable at.now.cluster.now job.now }
    requires left { AreLeft at.now.cluster.now at.now.groups.now at.now.moment booked.now
        at.now.order.now room.old }
    requires asked { All (IsAsked at.now.cluster.now at.now.groups.now job.now) asked.now }
    ensures placed { IfOk result (λ grants. grants
        ≡ placement_of at.now.cluster.now at.now.groups.now at.now.order.now booked.now job.now
        at.now.moment) }
    ensures left { OnOk result (AreLeft at.now.cluster.now at.now.groups.now at.now.moment
        booked.now at.now.order.now room.new) }
{
    if !has_candidate(at, booked, room, asked, job) {
        return Ok(None);
    }
    let moment = at.moment;
    let grants = place_on_hosts(alloc, at, booked, room, asked, job, moment)?;
    Ok(grants)
}

// The grants of a task of a job that is sent into no reservation and starts now.
fn place_left(
    alloc: Global,
    at: &Setting<'_>,
    booked: &Timeline,
    room: &mut Room,
    asked: &List<Counted>,
    job: &Job,
) -> Result<Option<List<Grant>>, AllocError>
    requires goes_on { has_moment at.now.cluster.now at.now.moment ≡ true }
    requires free { (job.now.advance == 0) ≡ true }
    requires there { IsInTable at.now.cluster.now job.now }
    requires left { AreLeft at.now.cluster.now at.now.groups.now at.now.moment booked.now
        at.now.order.now room.old }
    requires asked { All (IsAsked at.now.cluster.now at.now.groups.now job.now) asked.now }
    ensures placed { IfOk result (λ grants. grants
        ≡ placement_of at.now.cluster.now at.now.groups.now at.now.order.now booked.now job.now
        at.now.moment) }
    ensures left { OnOk result (AreLeft at.now.cluster.now at.now.groups.now at.now.moment
        booked.now at.now.order.now room.new) }
{
    match &job.request.pe {
        None => {
            let grants = place_alone(alloc, at, booked, room, asked, job)?;
            Ok(grants)
        }
        Some(_) => {
            let grants = place_together(alloc, at, booked, room, asked, job)?;
            Ok(grants)
        }
    }
}

/// The grants of a task of a job at the first place with a slot left, where it is asked for at once what takes one slot; where
/// none are given, nothing is known. Tasks that start one behind the other mostly start there, and no more is asked of them.
pub fn place_at_once(
    alloc: Global,
    at: &Setting<'_>,
    booked: &Timeline,
    room: &Room,
    at_once: bool,
    job: &Job,
) -> Result<Option<List<Grant>>, AllocError>
    requires there { IsInTable at.now.cluster.now job.now }
    requires left { AreLeft at.now.cluster.now at.now.groups.now at.now.moment booked.now
        at.now.order.now room.now }
    ensures { IfOk result (λ grants. IfSome grants (λ given. Some given
        ≡ placement_of at.now.cluster.now at.now.groups.now at.now.order.now booked.now job.now
        at.now.moment)) }
{
    match &job.request.pe {
        None => {
            if at_once && job.advance == 0 && goes_on(at.cluster, at.moment) {
                let grants = place_first(alloc, at, booked, room, job)?;
                return Ok(grants);
            }
            Ok(None)
        }
        Some(_) => Ok(None),
    }
}

/// The grants of a task of a job that starts now. Nothing is looked for where a limit that counts everywhere has no room.
pub fn place_now(
    alloc: Global,
    at: &Setting<'_>,
    booked: &Timeline,
    room: &mut Room,
    asked: &List<Counted>,
    job: &Job,
) -> Result<Option<List<Grant>>, AllocError>
    requires there { IsInTable at.now.cluster.now job.now }
    requires left { AreLeft at.now.cluster.now at.now.groups.now at.now.moment booked.now
        at.now.order.now room.old }
    requires asked { All (IsAsked at.now.cluster.now at.now.groups.now job.now) asked.now }
    ensures placed { IfOk result (λ grants. grants
        ≡ placement_of at.now.cluster.now at.now.groups.now at.now.order.now booked.now job.now
        at.now.moment) }
    ensures left { OnOk result (AreLeft at.now.cluster.now at.now.groups.now at.now.moment
        booked.now at.now.order.now room.new) }
{
    if is_refused(at, booked, asked, job, at.moment) {
        return Ok(None);
    }
    if job.advance == 0 && goes_on(at.cluster, at.moment) {
        let grants = place_left(alloc, at, booked, room, asked, job)?;
        return Ok(grants);
    }
    let grants = place_among(alloc, at, at.order, booked, job, at.moment)?;
    Ok(grants)
}

/// The grants of a task of a job that starts at a later moment.
pub(crate) fn place_then(
    alloc: Global,
    at: &Setting<'_>,
    booked: &Timeline,
    room: &mut Room,
    asked: &List<Counted>,
    job: &Job,
    moment: u64,
) -> Result<Option<List<Grant>>, AllocError>
    requires there { IsInTable at.now.cluster.now job.now }
    requires left { AreLeft at.now.cluster.now at.now.groups.now at.now.moment booked.now
        at.now.order.now room.old }
    requires asked { All (IsAsked at.now.cluster.now at.now.groups.now job.now) asked.now }
    ensures placed { IfOk result (λ grants. grants
        ≡ placement_of at.now.cluster.now at.now.groups.now at.now.order.now booked.now job.now
        moment) }
    ensures left { OnOk result (AreLeft at.now.cluster.now at.now.groups.now at.now.moment
        booked.now at.now.order.now room.new) }
{
    if is_refused(at, booked, asked, job, moment) {
        return Ok(None);
    }
    if job.advance == 0 && goes_on(at.cluster, moment) {
        let grants = place_on_hosts(alloc, at, booked, room, asked, job, moment)?;
        return Ok(grants);
    }
    let grants = place_among(alloc, at, at.order, booked, job, moment)?;
    Ok(grants)
}
