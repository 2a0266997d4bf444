//! Placements.
ghost use Rattle.std.specs.Prelude.{◌≡◌, IfOk, codes, map};
ghost use Rattle.std.specs.Option.{option_copied};
ghost use Rattle.ge_collections.specs.Keyed.{at_text};
ghost use Rattle.ge_model_place.specs.InstanceOrder as ordered;
ghost use Rattle.ge_model_place.specs.Placement as placed;
ghost use Rattle.ge_opening.specs.Forced.{is_any_forced};
ghost use Rattle.ge_place.specs.Spots.{cell_in, cells_with, no_slots_at};

use crate::granting::granted;
use crate::searching::Search;
use crate::seeing::{Spot, all_spots};
use crate::single::single_slot;
use crate::spreading::spread;
use ge_opening::{any_forced, instance_order};
use ge_rows::{
    Allocation, Cluster, Grant, Groups, HostRow, InstanceId, Job, List, PeRequest, TaskId, job_at,
};
use ge_site::global_host;
use ge_timeline::Timeline;
use ge_windows::{is_in_time, window_end_from};
use std::alloc::{AllocError, Global};

// The grants of these instances by a rule.
fn grant_by(
    alloc: Global,
    spots: &mut Vec<Spot<'_>>,
    request: &PeRequest,
    rule: Allocation,
) -> Result<Option<List<Grant>>, AllocError>
    ensures { IfOk result (λ grants. grants ≡ placed.granted request.now.low
        (placed.spread rule request.now.high
        (cells_with spots.old.items (no_slots_at spots.old.items)))) }
{
    let given = spread(alloc, spots, rule, request.high)?;
    granted(alloc, spots.as_slice(), &given, request.low)
}

// The grants by a rule.
fn place_by(
    alloc: Global,
    search: &Search<'_>,
    order: &[InstanceId],
    request: &PeRequest,
    rule: Allocation,
) -> Result<Option<List<Grant>>, AllocError>
    ensures { IfOk result (λ grants. grants ≡ placed.granted request.now.low
        (placed.spread rule request.now.high (map (cell_in search.now) order.now))) }
{
    let mut spots = all_spots(alloc, search, order)?;
    let grants = grant_by(alloc, &mut spots, request, rule)?;
    Ok(grants)
}

// The grants by the rule of a PE, where that is there.
fn place_parallel(
    alloc: Global,
    search: &Search<'_>,
    order: &[InstanceId],
    request: &PeRequest,
) -> Result<Option<List<Grant>>, AllocError>
    ensures { IfOk result (λ grants. grants
        ≡ placed.placed_with (map (cell_in search.now) order.now) request.now
        (at_text search.now.cluster.now.pes request.now.name)) }
{
    match search.cluster.pes.get(&request.name) {
        None => Ok(None),
        Some(pe) => place_by(alloc, search, order, request, pe.rule),
    }
}

// The grants of a search.
fn place_in(
    alloc: Global,
    search: &Search<'_>,
    order: &[InstanceId],
) -> Result<Option<List<Grant>>, AllocError>
    ensures { IfOk result (λ grants. grants ≡ placed.placed_by search.now.cluster.now
        (map (cell_in search.now) order.now) search.now.job.now.request.pe) }
{
    match &search.job.request.pe {
        None => {
            let grants = single_slot(alloc, search, order)?;
            Ok(grants)
        }
        Some(request) => {
            let grants = place_parallel(alloc, search, order, request)?;
            Ok(grants)
        }
    }
}

/// The grants of a task of a job, as [`place_job`] tells. The row of the host `global` is handed in, and whether any complex is
/// `FORCED` ([`any_forced`]), so that a run finds both out once.
#[tactic(auto, unfolding(ge_model_place::specs::Placement::placement_of))]
pub fn place_job_knowing(
    alloc: Global,
    cluster: &Cluster,
    groups: &Groups,
    global: Option<&HostRow>,
    forced: bool,
    order: &[InstanceId],
    booked: &Timeline,
    job: &Job,
    from: u64,
) -> Result<Option<List<Grant>>, AllocError>
    requires global { option_copied global ≡ at_text cluster.now.hosts (codes "global") }
    requires forced { forced ≡ is_any_forced cluster.now }
    ensures { IfOk result (λ grants. grants ≡
        placed.placement_of cluster.now groups.now order.now booked.now job.now from) }
{
    let until = window_end_from(cluster, job, from);
    let in_time = is_in_time(cluster, job, from);
    let search = Search {
        cluster,
        groups,
        booked,
        job,
        from,
        until,
        in_time,
        global,
        forced,
    };
    let grants = place_in(alloc, &search, order)?;
    Ok(grants)
}

/// The grants of a task of a job from a moment on, over what is booked; None where no number of slots that it asks for is there.
/// The order is that in which instances are tried. A job without a parallel environment asks for one slot anywhere, one with an
/// environment for the slots of a range, by its rule (qsub `-pe`; sge_pe `allocation_rule`).
pub fn place_job(
    alloc: Global,
    cluster: &Cluster,
    groups: &Groups,
    order: &[InstanceId],
    booked: &Timeline,
    job: &Job,
    from: u64,
) -> Result<Option<List<Grant>>, AllocError>
    ensures { IfOk result (λ grants. grants ≡
        placed.placement_of cluster.now groups.now order.now booked.now job.now from) }
{
    let global = global_host(alloc, cluster)?;
    let forced = any_forced(cluster);
    let grants = place_job_knowing(
        alloc, cluster, groups, global, forced, order, booked, job, from,
    )?;
    Ok(grants)
}

/// The grants of a task of the table's jobs from a moment on, over what is booked, in the cluster's order of instances. None too
/// where no such job is there.
#[tactic(auto, unfolding(ge_model_place::specs::Placement::placement))]
pub fn place(
    alloc: Global,
    cluster: &Cluster,
    groups: &Groups,
    booked: &Timeline,
    task: TaskId,
    from: u64,
) -> Result<Option<List<Grant>>, AllocError>
    ensures { IfOk result (λ grants. grants ≡
        placed.placement cluster.now groups.now (ordered.instance_order cluster.now groups.now)
        booked.now task from) }
{
    match job_at(&cluster.jobs, task.job) {
        None => Ok(None),
        Some(job) => {
            let order = instance_order(alloc, cluster, groups)?;
            let grants = place_job(alloc, cluster, groups, order.items(), booked, job, from)?;
            Ok(grants)
        }
    }
}
