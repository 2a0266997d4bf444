// Whether an instance may take a slot now.
ghost use Rattle.std.specs.Prelude.{◌≡◌, ℕ, ◌≤◌, ◌<◌, ◌==◌, true, false, length, slice_index_or, IsTrue, All};
ghost use Rattle.ge_model_place.specs.Placement.{are_admissible, placement_of};
ghost use Rattle.ge_model_place.specs.Runs.{one_slot};
ghost use Rattle.ge_model_rows.specs.HostRows.{InstanceId as Instance};
ghost use Rattle.ge_attempts.specs.Amounts.{IsInTable};
ghost use Rattle.ge_attempts.specs.Common.{IsAsked};
ghost use Rattle.ge_attempts.specs.Rests.{IsLeft, AreLeft};
ghost use Rattle.ge_attempts.specs.Vacant.{goes_on as has_moment};

use crate::rests::{Rest, Room, are_short};
use crate::setting::Setting;
use ge_demands::Counted;
use ge_opening::is_open_knowing;
use ge_rows::{InstanceId, Job, List};
use ge_timeline::Timeline;

// Whether an instance may take a slot of a job now: what is asked is left there, and it is open.
fn may_take(
    at: &Setting<'_>,
    _booked: &Timeline,
    rests: &List<Rest>,
    asked: &List<Counted>,
    job: &Job,
    instance: &InstanceId,
) -> bool
    requires goes_on { has_moment at.now.cluster.now at.now.moment ≡ true }
    requires free { (job.now.advance == 0) ≡ true }
    requires there { IsInTable at.now.cluster.now job.now }
    requires left { All (IsLeft at.now.cluster.now at.now.groups.now at.now.moment _booked.now
        instance.now) rests.now }
    requires asked { All (IsAsked at.now.cluster.now at.now.groups.now job.now) asked.now }
    ensures { result ≡ false → are_admissible at.now.cluster.now
        at.now.groups.now job.now _booked.now at.now.moment (one_slot instance.now) ≡ false }
{
    if are_short(asked.items(), rests.items()) {
        return false;
    }
    is_open_knowing(at.cluster, at.groups, at.global, at.forced, job, instance)
}

/// Whether some instance may take a slot of a job now.
pub(crate) fn has_candidate(
    at: &Setting<'_>,
    booked: &Timeline,
    room: &Room,
    asked: &List<Counted>,
    job: &Job,
) -> bool
    requires goes_on { has_moment at.now.cluster.now at.now.moment ≡ true }
    requires free { (job.now.advance == 0) ≡ true }
    requires there { IsInTable at.now.cluster.now job.now }
    requires left { AreLeft at.now.cluster.now at.now.groups.now at.now.moment booked.now
        at.now.order.now room.now }
    requires asked { All (IsAsked at.now.cluster.now at.now.groups.now job.now) asked.now }
    ensures { result ≡ false → (k : ℕ) (d : Instance) → k < length at.now.order.now
        → are_admissible at.now.cluster.now at.now.groups.now job.now booked.now at.now.moment
        (one_slot (slice_index_or at.now.order.now k d)) ≡ false }
{
    let order = at.order;
    let lefts = room.lefts.items();
    for place in room.vacant.items() {
        let instance = &order[*place];
        let left = &lefts[*place].rests;
        if may_take(at, booked, left, asked, job, instance) {
            return true;
        }
    }
    false
}
