// What stays the same during a run.
ghost use Rattle.std.specs.Prelude.{◌≡◌, codes, IfOk};
ghost use Rattle.std.specs.Option.{option_copied};
ghost use Rattle.ge_collections.specs.Keyed.{at_text};
ghost use Rattle.ge_model_place.specs.Placement.{placement_of};
ghost use Rattle.ge_opening.specs.Forced.{is_any_forced};

use crate::holding::Holders;
use crate::kinds::Kinds;
use ge_place::place_job_knowing;
use ge_rows::{Cluster, Grant, Groups, HostRow, InstanceId, Job, List};
use ge_timeline::Timeline;
use std::alloc::{AllocError, Global};

/// What stays the same during a run: its cluster, the groups spelled out, the instances in the order in which they are tried,
/// where each value of hosts is, what tells the kinds of jobs, its moment, in seconds, the row of the host `global`, and whether
/// any complex is `FORCED`.
#[derive(Clone, Copy)]
pub struct Setting<'a> {
    pub cluster: &'a Cluster,
    pub groups: &'a Groups,
    pub order: &'a [InstanceId],
    pub holders: &'a Holders,
    pub kinds: &'a Kinds,
    pub moment: u64,
    pub global: Option<&'a HostRow>,
    pub forced: bool,
    ghost global_is: { option_copied global ≡ at_text cluster.now.hosts (codes "global") },
    ghost forced_is: { forced ≡ is_any_forced cluster.now },
}

/// The grants of a task of a job among some instances, from a moment on.
pub(crate) fn place_among(
    alloc: Global,
    at: &Setting<'_>,
    order: &[InstanceId],
    booked: &Timeline,
    job: &Job,
    from: u64,
) -> Result<Option<List<Grant>>, AllocError>
    ensures { IfOk result (λ grants. grants ≡ placement_of at.now.cluster.now at.now.groups.now
        order.now booked.now job.now from) }
{
    let (global, forced) = (at.global, at.forced);
    let grants = place_job_knowing(
        alloc, at.cluster, at.groups, global, forced, order, booked, job, from,
    )?;
    Ok(grants)
}
