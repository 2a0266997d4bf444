// What a run stands on before its first decision, whatever the order of its tasks.
ghost use Rattle.std.specs.Prelude.{◌≡◌, IfOk, IsTrue, not};
ghost use Rattle.std.specs.List.{list_any};
ghost use Rattle.ge_scheduling.specs.Bases.{IsBasis, AllWait, asks_to_keep, is_shut, may_keep};

use crate::bookings::first_booked;
use ge_attempts::{Setting, kinds_of, no_slot_is_left, vacant_instances};
use ge_opening::{any_forced, instance_order};
use ge_rows::{Cluster, Groups, InstanceId, JobTable, List};
use ge_site::{expand, global_host};
use ge_timeline::Timeline;
use std::alloc::{AllocError, Global};
use std::collections::BTreeMap;

/// What a run stands on before its first decision, whatever the order of its tasks: its moment, in seconds, the groups spelled
/// out, the instances in the order in which they are tried, what is booked by then, and the instances that have a slot left.
#[derive(Drop)]
pub struct Basis {
    pub(crate) moment: u64,
    pub(crate) groups: Groups,
    pub(crate) order: List<InstanceId>,
    pub(crate) booked: Timeline,
    pub(crate) vacant: List<InstanceId>,
}

/// What a run of a cluster at a moment stands on, in seconds (sched_conf).
///
/// # Errors
///
/// Where there is no memory for it.
pub fn basis_of(alloc: Global, cluster: &Cluster, now: u64) -> Result<Basis, AllocError>
    ensures is { IfOk result (λ basis. IsBasis cluster.now basis) }
    ensures moment { IfOk result (λ basis. basis.moment ≡ now) }
{
    let groups = expand(alloc, cluster)?;
    let order = instance_order(alloc, cluster, &groups)?;
    let (holders, none) = (BTreeMap::new(alloc), BTreeMap::new(alloc));
    let at = Setting {
        cluster,
        groups: &groups,
        order: order.items(),
        holders: &holders,
        kinds: kinds_of(cluster, &none),
        moment: now,
        global: global_host(alloc, cluster)?,
        forced: any_forced(cluster),
    };
    let booked = first_booked(alloc, &at)?;
    let vacant = vacant_instances(alloc, &at, &booked)?;
    Ok(Basis {
        moment: now,
        groups,
        order,
        booked,
        vacant,
    })
}

// Whether some job asks for slots to be kept for it.
fn one_asks(jobs: &JobTable) -> bool
    ensures { result ≡ list_any asks_to_keep jobs.now }
{
    for (_number, row) in jobs.iter() {
        if row.job().reserve {
            return true;
        }
    }
    false
}

/// Whether no task may have slots kept where so many have some: as many have as may, or no job asks for it.
pub(crate) fn none_is_kept(cluster: &Cluster, reserved: u64) -> bool
    ensures { result ≡ not (may_keep cluster.now reserved) }
{
    cluster.sched.max_reservation <= reserved || !one_asks(&cluster.jobs)
}

/// Whether each task waits in a run on this basis, in whatever order the tasks are: no instance has a slot left, there is no
/// reservation that a job may be sent into, and no task may have slots kept (sched_conf, `max_reservation` 0; or no job was
/// submitted with `-R y`, qsub). A run that is known to be so needs no order.
pub fn all_wait(cluster: &Cluster, basis: &Basis) -> bool
    requires { IsBasis cluster.now basis.now }
    ensures shut { result ≡ is_shut cluster.now basis.now }
    ensures waits { IsTrue result → AllWait cluster.now basis.now.moment }
{
    no_slot_is_left(cluster, &basis.vacant) && none_is_kept(cluster, 0)
}
