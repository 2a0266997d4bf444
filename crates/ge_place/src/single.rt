//! One slot anywhere: a job without a parallel environment.
ghost use Rattle.std.specs.Prelude.{◌≡◌, ◌<◌, ◌&&◌, IfOk, Some};
ghost use Rattle.std.specs.List.{list_all, find};
ghost use Rattle.std.specs.Option.{option_copied, option_map};
ghost use Rattle.ge_capacities.specs.Counts.{counted_as};
ghost use Rattle.ge_model_place.specs.Placement.{room_of};
ghost use Rattle.ge_model_place.specs.Runs.{one_slot};
ghost use Rattle.ge_place.specs.Spots.{rooms_at};
ghost use Rattle.ge_place.specs.Singles.{has_room_alone, takes_first};

use crate::searching::Search;
use crate::spots::may_start;
use ge_demands::{Counted, counted_limits};
use ge_rows::{Grant, InstanceId, List, Twin};
use std::alloc::{AllocError, Global};

// Whether a limit has room for one slot where none is given.
fn fits_alone(search: &Search<'_>, counts: &Counted) -> bool
    requires { search.now.from < search.now.until }
    ensures { result ≡ has_room_alone
        (room_of search.now.booked.now search.now.from search.now.until (counted_as counts.now)) }
{
    match counts.capacity.checked_sub(u128::from(counts.amount)) {
        Some(room) => !search
            .booked
            .is_above(&counts.limit, search.from, search.until, room),
        None => false,
    }
}

// Nothing is looked for behind a limit that has no room.
fn all_fit_alone(search: &Search<'_>, limits: &[Counted]) -> bool
    requires { search.now.from < search.now.until }
    ensures { result ≡ list_all (λ counts. has_room_alone
        (room_of search.now.booked.now search.now.from search.now.until (counted_as counts)))
        limits.now }
{
    limits.iter().all(|counts| fits_alone(search, counts))
}

fn has_room_at(alloc: Global, search: &Search<'_>, at: &InstanceId) -> Result<bool, AllocError>
    ensures { IfOk result (λ has. has ≡ list_all has_room_alone (rooms_at search.now at.now)) }
{
    if search.until <= search.from {
        return Ok(true);
    }
    let limits = counted_limits(alloc, search.cluster, search.groups, search.job, at)?;
    Ok(all_fit_alone(search, limits.as_slice()))
}

fn takes_alone(alloc: Global, search: &Search<'_>, at: &InstanceId) -> Result<bool, AllocError>
    ensures { IfOk result (λ takes. takes ≡ takes_first search.now at.now) }
{
    if !may_start(search, at) {
        return Ok(false);
    }
    let has = has_room_at(alloc, search, at)?;
    Ok(has)
}

// The first instance that takes a slot. Those behind it aren't looked at.
fn first_taking<'a>(
    alloc: Global,
    search: &Search<'_>,
    order: &'a [InstanceId],
) -> Result<Option<&'a InstanceId>, AllocError>
    ensures { IfOk result (λ found. option_copied found ≡ find (takes_first search.now) order.now) }
{
    for at in order {
        if takes_alone(alloc, search, at)? {
            return Ok(Some(at));
        }
    }
    Ok(None)
}

fn one_grant(alloc: Global, at: &InstanceId) -> Result<List<Grant>, AllocError>
    ensures { IfOk result (λ grants. grants ≡ one_slot at.now) }
{
    let at = at.twin(alloc)?;
    let mut grants = List::new(alloc);
    grants.push(Grant { at, slots: 1 })?;
    Ok(grants)
}

/// One slot at the first instance that takes it.
pub(crate) fn single_slot(
    alloc: Global,
    search: &Search<'_>,
    order: &[InstanceId],
) -> Result<Option<List<Grant>>, AllocError>
    ensures { IfOk result (λ grants. grants
        ≡ option_map one_slot (find (takes_first search.now) order.now)) }
{
    match first_taking(alloc, search, order)? {
        None => Ok(None),
        Some(at) => {
            let grants = one_grant(alloc, at)?;
            Ok(Some(grants))
        }
    }
}
