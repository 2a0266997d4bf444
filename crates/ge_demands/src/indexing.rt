//! What many grants ask of each limit: the places of the demands are kept under their limits.

ghost use Rattle.std.specs.Prelude.{◌≡◌, [], IfOk, OnOk, fold};
ghost use Rattle.std.specs.Map.{lookup};
ghost use Rattle.ge_model_place.specs.Bookings.{same_limit};
ghost use Rattle.ge_model_place.specs.Limits.{with_demand, with_grant};
ghost use Rattle.ge_capacities.specs.Counts.{all_counted, counted_as};
ghost use Rattle.ge_capacities.specs.Found.{AreKept};

use crate::demanding::add_at;
use ge_capacities::{Counted, counted_limits};
use ge_rows::{Cluster, Demand, Grant, Groups, Job, LimitId, Twin};
use std::alloc::{AllocError, Global};
use std::collections::BTreeMap;

#[tactic(auto, using(crate::proofs::Placed::same_lookup))]
fn place_in(places: &BTreeMap<LimitId, usize>, limit: &LimitId) -> Option<usize>
    ensures { result ≡ lookup (same_limit limit.now) places.now.entries }
{
    places.get(limit).copied()
}

#[tactic(auto, using(crate::proofs::Placed::still_kept, crate::proofs::Placed::kept_more))]
fn add_kept(
    alloc: Global,
    places: &mut BTreeMap<LimitId, usize>,
    demands: &mut Vec<Demand>,
    slots: u32,
    counted: Counted,
) -> Result<(), AllocError>
    requires { AreKept places.old.entries demands.old.items }
    ensures kept { OnOk result (AreKept places.new.entries demands.new.items) }
    ensures more { OnOk result (demands.new.items
        ≡ with_demand slots demands.old.items (counted_as counted)) }
{
    match place_in(places, &counted.limit) {
        Some(place) => add_at(demands, Some(place), slots, counted),
        None => {
            let limit = counted.limit.twin(alloc)?;
            places.insert(limit, demands.len())?;
            add_at(demands, None, slots, counted)
        }
    }
}

fn add_all_kept(
    alloc: Global,
    places: &mut BTreeMap<LimitId, usize>,
    demands: &mut Vec<Demand>,
    slots: u32,
    limits: Vec<Counted>,
) -> Result<(), AllocError>
    requires { AreKept places.old.entries demands.old.items }
    ensures kept { OnOk result (AreKept places.new.entries demands.new.items) }
    ensures more { OnOk result (demands.new.items
        ≡ fold (with_demand slots) demands.old.items (all_counted limits.items)) }
{
    for counted in limits {
        add_kept(alloc, places, demands, slots, counted)?;
    }
    Ok(())
}

fn add_grant_kept(
    alloc: Global,
    cluster: &Cluster,
    groups: &Groups,
    job: &Job,
    places: &mut BTreeMap<LimitId, usize>,
    demands: &mut Vec<Demand>,
    grant: &Grant,
) -> Result<(), AllocError>
    requires { AreKept places.old.entries demands.old.items }
    ensures kept { OnOk result (AreKept places.new.entries demands.new.items) }
    ensures more { OnOk result (demands.new.items
        ≡ with_grant cluster.now groups.now job.now demands.old.items grant.now) }
{
    if grant.slots == 0 {
        return Ok(());
    }
    let limits = counted_limits(alloc, cluster, groups, job, &grant.at)?;
    add_all_kept(alloc, places, demands, grant.slots, limits)
}

/// What many grants ask of each limit.
pub(crate) fn demands_of_many(
    alloc: Global,
    cluster: &Cluster,
    groups: &Groups,
    job: &Job,
    grants: &[Grant],
) -> Result<Vec<Demand>, AllocError>
    ensures { IfOk result (λ demands. demands.items
        ≡ fold (with_grant cluster.now groups.now job.now) [] grants.now) }
{
    let mut places = BTreeMap::new(alloc);
    let mut demands = Vec::new(alloc);
    for grant in grants {
        add_grant_kept(
            alloc,
            cluster,
            groups,
            job,
            &mut places,
            &mut demands,
            grant,
        )?;
    }
    Ok(demands)
}
