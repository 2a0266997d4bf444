// Instances that have a slot left.
ghost use Rattle.std.specs.Prelude.{◌≡◌, ◌++◌, ◌&&◌, ◌∷◌, [], IfOk, IsTrue, OnOk, filter};
ghost use Rattle.ge_model_rows.specs.Pieces.{is_empty};
ghost use Rattle.std.specs.Option.{option_copied};
ghost use Rattle.ge_model_place.specs.Bookings.{forever};
ghost use Rattle.ge_model_place.specs.Windows.{no_later_than};
ghost use Rattle.ge_attempts.specs.Vacant.{goes_on as has_moment, slots_of, is_used_up as used_up, is_occupied as occupied_by, is_vacant};

use crate::setting::Setting;
use ge_bookings::FOREVER;
use ge_demands::capacity;
use ge_rows::{Advance, Cluster, InstanceId, LimitId, List, Text, Twin};
use ge_timeline::Timeline;
use std::alloc::{AllocError, Global};

fn end_of_all(advance: Option<&Advance>) -> u64
    ensures { result ≡ no_later_than (option_copied advance.entry) forever }
{
    match advance {
        Some(advance) => FOREVER.min(advance.until),
        None => FOREVER,
    }
}

/// Whether the window of a task that starts now has a moment.
pub fn goes_on(cluster: &Cluster, now: u64) -> bool
    ensures { result ≡ has_moment cluster.now now }
{
    now < end_of_all(cluster.advances.get(&0))
}

/// The slots of an instance as a limit.
pub(crate) fn slots_at(alloc: Global, instance: &InstanceId) -> Result<LimitId, AllocError>
    ensures { IfOk result (λ limit. limit ≡ slots_of instance.now) }
{
    let at = instance.twin(alloc)?;
    let name = Text::from_bytes(alloc, b"slots")?;
    Ok(LimitId::Instance(at, name))
}

fn is_used_up(
    alloc: Global,
    at: &Setting<'_>,
    booked: &Timeline,
    limit: &LimitId,
) -> Result<bool, AllocError>
    ensures { IfOk result (λ used. used
        ≡ used_up at.now.cluster.now at.now.groups.now at.now.moment booked.now limit.now) }
{
    let there = capacity(alloc, at.cluster, at.groups, limit)?;
    Ok(there <= booked.greatest(limit, at.moment, at.moment.saturating_add(1)))
}

// Whether all slots of an instance are booked now.
fn is_occupied(
    alloc: Global,
    at: &Setting<'_>,
    booked: &Timeline,
    instance: &InstanceId,
) -> Result<bool, AllocError>
    ensures { IfOk result (λ occupied. occupied
        ≡ occupied_by at.now.cluster.now at.now.groups.now at.now.moment booked.now instance.now) }
{
    let limit = slots_at(alloc, instance)?;
    let used = is_used_up(alloc, at, booked, &limit)?;
    Ok(goes_on(at.cluster, at.moment) && used)
}

fn add_vacant(
    alloc: Global,
    at: &Setting<'_>,
    booked: &Timeline,
    vacant: &mut List<InstanceId>,
    instance: &InstanceId,
) -> Result<(), AllocError>
    ensures { OnOk result (vacant.new ≡ vacant.old
        ++ filter (is_vacant at.now.cluster.now at.now.groups.now at.now.moment booked.now)
        (instance.now ∷ [])) }
{
    if is_occupied(alloc, at, booked, instance)? {
        return Ok(());
    }
    let instance = instance.twin(alloc)?;
    vacant.push(instance)
}

/// The instances without those all of whose slots are booked now.
pub fn vacant_instances(
    alloc: Global,
    at: &Setting<'_>,
    booked: &Timeline,
) -> Result<List<InstanceId>, AllocError>
    ensures { IfOk result (λ vacant. vacant
        ≡ filter (is_vacant at.now.cluster.now at.now.groups.now at.now.moment booked.now)
        at.now.order.now) }
{
    let mut vacant = List::new(alloc);
    for instance in at.order {
        add_vacant(alloc, at, booked, &mut vacant, instance)?;
    }
    Ok(vacant)
}

/// Whether no task can start: no instance is vacant, and there is no reservation that a job may be sent into.
pub fn no_slot_is_left<T>(cluster: &Cluster, vacant: &List<T>) -> bool
    ensures value { result ≡ (is_empty vacant.now && is_empty cluster.now.advances) }
    ensures none { IsTrue result → (vacant.now ≡ []) × (cluster.now.advances ≡ []) }
{
    vacant.is_empty() && cluster.advances.is_empty()
}
