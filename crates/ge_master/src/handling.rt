// Handling a batch over a journal.
ghost use Rattle.std.specs.Prelude.{◌≡◌, ◌≤◌, false, OnOk};
ghost use Rattle.ge_model_core.specs.Plan.{plan_of};
ghost use Rattle.ge_spool.specs.Settled.{HasRoom, is_dead};
ghost use Rattle.ge_master.specs.Areas.{areas_of};
ghost use Rattle.ge_master.specs.Handling.{HandlesBatch};
ghost use Rattle.ge_master.specs.Storing.{StopsAs, OnUnwritten};

use crate::Stop;
use crate::staging::stage_all;
use crate::storing::store;
use ge_keeping::KeepFault;
use ge_outside::Disk;
use ge_rows::{Cluster, Event, List, Reply};
use ge_spool::Spool;
use std::alloc::Global;

fn stop_of(fault: KeepFault) -> Stop
    ensures { StopsAs fault result }
{
    match fault {
        KeepFault::Disk => Stop::Disk,
        KeepFault::Full(place) => Stop::Full(place),
        KeepFault::Memory => Stop::Spent,
        KeepFault::Dead => Stop::Dead,
    }
}

/// Handles events over a journal that lives, and notes whether one of them asks the master to stop. After a stop the cluster
/// is given up.
pub(crate) fn handle<D: Disk>(
    alloc: Global,
    spool: &mut Spool,
    cluster: &mut Cluster,
    stopping: &mut bool,
    a: &mut D,
    b: &mut D,
    events: &[Event],
) -> Result<List<Reply>, Stop>
    requires alive { is_dead spool.old ≡ false }
    requires room { HasRoom spool.old (D.told a.old) (D.told b.old) }
    ensures handled { HandlesBatch plan_of
        (record { spool = spool.old; cluster = cluster.old; stopping = stopping.old })
        (record { spool = spool.new; cluster = cluster.new; stopping = stopping.new })
        events.now result
        (areas_of D.told D.syncs D.disk_faults a.old b.old)
        (areas_of D.told D.syncs D.disk_faults a.new b.new) }
    ensures untouched { OnUnwritten result ((a.new ≡ a.old) × (b.new ≡ b.old)) }
    ensures room { OnOk result (HasRoom spool.new (D.told a.new) (D.told b.new)) }
    ensures alive { OnOk result (is_dead spool.new ≡ false) }
    ensures syncs_a { D.syncs a.old ≤ D.syncs a.new }
    ensures syncs_b { D.syncs b.old ≤ D.syncs b.new }
    ensures faults_a { D.disk_faults a.old ≤ D.disk_faults a.new }
    ensures faults_b { D.disk_faults b.old ≤ D.disk_faults b.new }
{
    let Ok(staged) = stage_all(alloc, cluster, events) else {
        return Err(Stop::Spent);
    };
    if staged.body.is_empty() {
        *stopping |= staged.stop;
        return Ok(staged.replies);
    }
    match store(alloc, spool, cluster, a, b, &staged.body) {
        Ok(()) => {
            *stopping |= staged.stop;
            Ok(staged.replies)
        }
        Err(fault) => Err(stop_of(fault)),
    }
}
