//! What the slots given so far ask of each limit.
ghost use Rattle.std.specs.Prelude.{◌≡◌, ◌+◌, ◌<◌, min, nat_le, true, false, IfOk, OnOk};
ghost use Rattle.std.specs.List.{list_all};
ghost use Rattle.ge_model_place.specs.Limits.{greatest_demand};
ghost use Rattle.ge_model_place.specs.Placement.{everywhere};
ghost use Rattle.ge_place.specs.Spots.{room_as, rooms_as};
ghost use Rattle.ge_place.specs.Sums.{asked_with as asked_with_one, has_room_for, takes_by, takes_seen, rooms_seen, AsksMore};

use crate::seeing::Spot;
use crate::spots::{Bound, Sight};
use crate::sums::Sums;
use std::alloc::{AllocError, Global};

// What one more slot asks of a limit together with those before; what is asked once doesn't grow.
fn asked_with(before: &Sums, since: &Sums, bound: &Bound) -> u64
    ensures { result
        ≡ min (asked_with_one before.now since.now (room_as bound.now).counted) greatest_demand }
{
    if bound.once {
        return bound.amount;
    }
    let first = before.sum_of(&bound.limit);
    let second = since.sum_of(&bound.limit);
    first.saturating_add(second).saturating_add(bound.amount)
}

// Whether a capacity has room for a demand beside what is booked.
fn has_room(capacity: u128, booked: u128, demand: u64) -> bool
    ensures { result ≡ nat_le (booked + demand) capacity }
{
    booked <= capacity && u128::from(demand) <= capacity - booked
}

fn fits(before: &Sums, since: &Sums, bound: &Bound) -> bool
    ensures { result ≡ has_room_for before.now since.now (room_as bound.now) }
{
    has_room(bound.capacity, bound.peak, asked_with(before, since, bound))
}

fn all_fit(before: &Sums, since: &Sums, bounds: &[Bound]) -> bool
    ensures { result
        ≡ list_all (λ bound. has_room_for before.now since.now (room_as bound)) bounds.now }
{
    bounds.iter().all(|bound| fits(before, since, bound))
}

// What a slot asks of each limit of an instance is added.
fn ask_all(sums: &mut Sums, bounds: &[Bound]) -> Result<(), AllocError>
    ensures { OnOk result (AsksMore (rooms_as bounds.now) sums.old sums.new) }
{
    for bound in bounds {
        sums.ask(&bound.limit, bound.amount)?;
    }
    Ok(())
}

// Whether one more slot is taken by what was seen.
fn is_taken_there(sight: &Sight, before: &Sums, since: &Sums) -> bool
    ensures { result ≡ takes_seen before.now since.now sight.now }
{
    match sight {
        Sight::Closed => false,
        Sight::Open(bounds) => all_fit(before, since, bounds.as_slice()),
    }
}

// Whether one more slot is taken by what was seen. What it asks is added then.
fn takes_there(sight: &Sight, before: &Sums, since: &mut Sums) -> Result<bool, AllocError>
    ensures takes { IfOk result (λ takes. takes ≡ takes_seen before.now since.old sight.now) }
    ensures asks { IfOk result (λ takes. takes ≡ true
        → AsksMore (rooms_seen sight.now) since.old since.new) }
    ensures none { IfOk result (λ takes. takes ≡ false → since.new ≡ since.old) }
{
    match sight {
        Sight::Closed => Ok(false),
        Sight::Open(bounds) => {
            if !all_fit(before, since, bounds.as_slice()) {
                return Ok(false);
            }
            ask_all(since, bounds.as_slice())?;
            Ok(true)
        }
    }
}

/// Whether an instance takes one more slot. What it asks is added then.
pub(crate) fn takes(
    alloc: Global,
    before: &Sums,
    since: &mut Sums,
    spot: &mut Spot<'_>,
) -> Result<bool, AllocError>
    ensures same { OnOk result (spot.new ≡ spot.old) }
    ensures takes { IfOk result (λ takes. takes
        ≡ takes_by everywhere before.now since.old spot.old) }
    ensures asks { IfOk result (λ takes. takes ≡ true
        → AsksMore spot.old.rooms since.old since.new) }
    ensures none { IfOk result (λ takes. takes ≡ false → since.new ≡ since.old) }
{
    let sight = spot.sight(alloc)?;
    let taken = takes_there(&sight, before, since)?;
    spot.keep(sight);
    Ok(taken)
}

// Whether an instance takes one more slot, behind which none is tried: so nothing is added.
fn takes_last(
    alloc: Global,
    before: &Sums,
    since: &Sums,
    spot: &mut Spot<'_>,
) -> Result<bool, AllocError>
    ensures same { OnOk result (spot.new ≡ spot.old) }
    ensures takes { IfOk result (λ takes. takes
        ≡ takes_by everywhere before.now since.now spot.old) }
{
    let sight = spot.sight(alloc)?;
    let taken = is_taken_there(&sight, before, since);
    spot.keep(sight);
    Ok(taken)
}

/// Whether an instance takes the next of so many slots that are left to try. What it asks is added then, where one is left
/// behind it.
pub(crate) fn takes_next(
    alloc: Global,
    before: &Sums,
    since: &mut Sums,
    spot: &mut Spot<'_>,
    left: u32,
) -> Result<bool, AllocError>
    ensures same { OnOk result (spot.new ≡ spot.old) }
    ensures takes { IfOk result (λ takes. takes
        ≡ takes_by everywhere before.now since.old spot.old) }
    ensures asks { IfOk result (λ takes. takes ≡ true → 1 < left
        → AsksMore spot.old.rooms since.old since.new) }
    ensures none { IfOk result (λ takes. takes ≡ false → since.new ≡ since.old) }
{
    if left > 1 {
        let taken = takes(alloc, before, since, spot)?;
        return Ok(taken);
    }
    let taken = takes_last(alloc, before, since, spot)?;
    Ok(taken)
}
