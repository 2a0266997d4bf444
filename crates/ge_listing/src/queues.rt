//! The queue instances.

ghost use Rattle.std.specs.Prelude.{◌≡◌, IfOk, map};
ghost use Rattle.ge_model_report.specs.QueueLines.{queues_listing};
ghost use Rattle.ge_listing.specs.Taken.{line_with, slots_taken};

use crate::lines::line_of;
use crate::taking::{Taken, taken_at, taken_by_all};
use ge_rows::{Cluster, Groups, InstanceId, List, Text};
use ge_site::{expand, instances};
use ge_windows::base_bookings;
use std::alloc::{AllocError, Global};

fn lines_of(
    alloc: Global,
    cluster: &Cluster,
    groups: &Groups,
    taken: &Taken,
    instances: &[InstanceId],
) -> Result<List<Text>, AllocError>
    ensures { IfOk result (λ lines. lines
        ≡ map (λ at. line_with cluster.now groups.now (slots_taken taken.now.entries at) at)
        instances.now) }
{
    let mut lines = List::new(alloc);
    for at in instances {
        lines.push(line_of(alloc, cluster, groups, taken_at(taken, at), at)?)?;
    }
    Ok(lines)
}

/// The queue instances at a moment in seconds, by name of queue, then of host: `qstat -f`. See the manual page qstat.
///
/// The columns are the instance as `queue@host`, its slots as those that running tasks and advance reservations take, a
/// slash and all that it has, the load that its host reported last, as the complex of the load formula is printed, or `-`,
/// and its state, `a` where a load threshold is reached, else `-`.
pub fn list_queues(alloc: Global, cluster: &Cluster, now: u64) -> Result<List<Text>, AllocError>
    ensures { IfOk result (λ lines. lines ≡ queues_listing cluster.now now) }
{
    let groups = expand(alloc, cluster)?;
    let bookings = base_bookings(alloc, cluster, &groups, now)?;
    let taken = taken_by_all(alloc, bookings.items(), now)?;
    let instances = instances(alloc, cluster, &groups)?;
    let lines = lines_of(alloc, cluster, &groups, &taken, instances.items())?;
    Ok(lines)
}
