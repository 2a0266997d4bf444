//! What grants ask of each limit.

ghost use Rattle.std.specs.Prelude.{◌≡◌, ◌∷◌, [], IfOk, OnOk, fold, position, map};
ghost use Rattle.ge_model_place.specs.Bookings.{same_limit};
ghost use Rattle.ge_model_place.specs.Limits.{counted_at, demand_for, demands_of, with_demand, with_grant, with_more};
ghost use Rattle.ge_capacities.specs.Counts.{all_counted, counted_as};

use crate::indexing::demands_of_many;
use ge_bookings::is_same_limit;
use ge_capacities::{Counted, counted_limits};
use ge_rows::{Cluster, Demand, Grant, Groups, InstanceId, Job, LimitId, List};
use std::alloc::{AllocError, Global};

// The greatest demand on one limit.
const GREATEST: u128 = 18_446_744_073_709_551_615;

// Up to so many grants, a look through their demands takes less than an index.
const FEW_GRANTS: usize = 12;

// What a further grant mostly comes to that no earlier one did: the slots of its instance, and a value of its host. With room
// for them the demands, which are large, aren't moved.
const MOSTLY_NEW: usize = 2;

// What slots ask of a limit, cut at the greatest demand.
fn amount_for(slots: u32, counted: &Counted) -> u128
    ensures { result ≡ (demand_for slots (counted_as counted.now)).amount }
{
    if counted.once {
        u128::from(counted.amount)
    } else {
        u128::from(u64::from(slots).saturating_mul(counted.amount))
    }
}

// The demand of slots on a limit, which is made where it is put.
#[inline(always)]
#[tactic(auto, using(crate::proofs::Demanded::demand_is))]
fn demand_of(slots: u32, counted: Counted) -> Demand
    ensures { result ≡ demand_for slots (counted_as counted) }
{
    let amount = amount_for(slots, &counted);
    let Counted {
        limit,
        capacity: _,
        amount: _,
        once: _,
    } = counted;
    Demand { limit, amount }
}

// What more slots ask of the same limit; what is asked once is there already.
fn add_more(demand: &mut Demand, slots: u32, counted: &Counted)
    ensures { demand.new ≡ with_more slots (counted_as counted.now) demand.old }
{
    if !counted.once {
        demand.amount = demand
            .amount
            .saturating_add(amount_for(slots, counted))
            .min(GREATEST);
    }
}

// The place of the demand on a limit.
fn place_among(demands: &[Demand], limit: &LimitId) -> Option<usize>
    ensures { result ≡ position (λ demand. same_limit demand.limit limit.now) demands.now }
{
    demands
        .iter()
        .position(|demand| is_same_limit(&demand.limit, limit))
}

// What slots ask of a limit, where the place of the demand on it is known.
pub(crate) fn add_at(
    demands: &mut Vec<Demand>,
    place: Option<usize>,
    slots: u32,
    counted: Counted,
) -> Result<(), AllocError>
    requires { place ≡ position (λ demand. same_limit demand.limit counted.limit) demands.old.items }
    ensures { OnOk result (demands.new.items ≡ with_demand slots demands.old.items (counted_as counted)) }
{
    match place {
        Some(place) => {
            add_more(&mut demands[place], slots, &counted);
            Ok(())
        }
        None => {
            demands.push(demand_of(slots, counted))?;
            Ok(())
        }
    }
}

fn add_all(demands: &mut Vec<Demand>, slots: u32, limits: Vec<Counted>) -> Result<(), AllocError>
    ensures { OnOk result (demands.new.items
        ≡ fold (with_demand slots) demands.old.items (all_counted limits.items)) }
{
    for counted in limits {
        let place = place_among(demands.as_slice(), &counted.limit);
        add_at(demands, place, slots, counted)?;
    }
    Ok(())
}

fn add_grant(
    alloc: Global,
    cluster: &Cluster,
    groups: &Groups,
    job: &Job,
    demands: &mut Vec<Demand>,
    grant: &Grant,
) -> Result<(), AllocError>
    ensures { OnOk result (demands.new.items
        ≡ with_grant cluster.now groups.now job.now demands.old.items grant.now) }
{
    if grant.slots == 0 {
        return Ok(());
    }
    let limits = counted_limits(alloc, cluster, groups, job, &grant.at)?;
    add_all(demands, grant.slots, limits)
}

fn add_grants(
    alloc: Global,
    cluster: &Cluster,
    groups: &Groups,
    job: &Job,
    demands: &mut Vec<Demand>,
    grants: &[Grant],
) -> Result<(), AllocError>
    ensures { OnOk result (demands.new.items
        ≡ fold (with_grant cluster.now groups.now job.now) demands.old.items grants.now) }
{
    for grant in grants {
        add_grant(alloc, cluster, groups, job, demands, grant)?;
    }
    Ok(())
}

// What slots ask of each of these limits, with room for more demands.
fn demands_on_each(
    alloc: Global,
    slots: u32,
    limits: Vec<Counted>,
    more: usize,
) -> Result<Vec<Demand>, AllocError>
    ensures { IfOk result (λ demands. demands.items
        ≡ map (demand_for slots) (all_counted limits.items)) }
{
    let mut demands = Vec::with_capacity(alloc, limits.len().saturating_add(more))?;
    for counted in limits {
        demands.push(demand_of(slots, counted))?;
    }
    Ok(demands)
}

// What slots at one instance ask. The limits that they count for are there once each, so no place is looked for.
fn demands_at(
    alloc: Global,
    cluster: &Cluster,
    groups: &Groups,
    job: &Job,
    slots: u32,
    at: &InstanceId,
    more: usize,
) -> Result<Vec<Demand>, AllocError>
    ensures { IfOk result (λ demands. demands.items
        ≡ fold (with_demand slots) [] (counted_at cluster.now groups.now job.now at.now)) }
{
    let limits = counted_limits(alloc, cluster, groups, job, at)?;
    let demands = demands_on_each(alloc, slots, limits, more)?;
    Ok(demands)
}

fn demands_of_first(
    alloc: Global,
    cluster: &Cluster,
    groups: &Groups,
    job: &Job,
    grant: &Grant,
    more: usize,
) -> Result<Vec<Demand>, AllocError>
    ensures { IfOk result (λ demands. demands.items
        ≡ with_grant cluster.now groups.now job.now [] grant.now) }
{
    if grant.slots == 0 {
        return Ok(Vec::new(alloc));
    }
    demands_at(alloc, cluster, groups, job, grant.slots, &grant.at, more)
}

// Most tasks have one grant.
fn demands_of_few(
    alloc: Global,
    cluster: &Cluster,
    groups: &Groups,
    job: &Job,
    grants: &[Grant],
) -> Result<Vec<Demand>, AllocError>
    ensures { IfOk result (λ demands. demands.items
        ≡ fold (with_grant cluster.now groups.now job.now) [] grants.now) }
{
    match grants {
        [] => Ok(Vec::new(alloc)),
        [first, rest @ ..] => {
            let more = rest.len().saturating_mul(MOSTLY_NEW);
            let mut demands = demands_of_first(alloc, cluster, groups, job, first, more)?;
            add_grants(alloc, cluster, groups, job, &mut demands, rest)?;
            Ok(demands)
        }
    }
}

/// What grants of a job ask of each limit, each limit once, in the order in which the grants come to it: the job's amount for
/// each slot, or once where the complex says so, cut at 2^64 - 1. A grant of no slots asks nothing (complex, consumable).
///
/// The first of few grants has a demand on each limit that it counts for; those of the others are looked for among the demands.
/// The demands of many grants are found by an index.
#[tactic(auto, unfolding(ge_model_place::specs::Limits::demands_of))]
pub fn demands(
    alloc: Global,
    cluster: &Cluster,
    groups: &Groups,
    job: &Job,
    grants: &[Grant],
) -> Result<List<Demand>, AllocError>
    ensures { IfOk result (λ demands. demands
        ≡ demands_of cluster.now groups.now job.now grants.now) }
{
    let demands = if grants.len() <= FEW_GRANTS {
        demands_of_few(alloc, cluster, groups, job, grants)?
    } else {
        demands_of_many(alloc, cluster, groups, job, grants)?
    };
    Ok(List::from_vec(demands))
}
