// A master is opened again, beside its world.
ghost use Rattle.std.specs.Prelude.{◌≡◌, ◌≤◌, false, IfOk, OnErr};
ghost use Rattle.ge_master.specs.Areas.{areas_of};
ghost use Rattle.ge_master.specs.Masters.{HasLength, is_gone, is_stopping};
ghost use Rattle.ge_master.specs.OpeningMasters.{OpensMaster};
ghost use Rattle.ge_world_master.specs.Moving.{ReopensIn};

use crate::worlds::catch_up;
use ge_master::Master;
use ge_model_world::{Arrival, World};
use ge_outside::Disk;
use ge_spool::OpenFault;
use std::alloc::Global;

/// A master is opened again that stopped while it handled what came, with the world beside it: where the areas stand for the world's
/// cluster or for that after the event's entry, the world takes the stop with its change or without, as the areas tell. After a fault
/// the world is as it was.
pub fn reopen_in<D: Disk>(
    alloc: Global,
    a: &mut D,
    b: &mut D,
    w: &mut World,
    x: &Arrival,
) -> Result<Master, OpenFault>
    ensures opens { OpensMaster result
        (areas_of D.told D.syncs D.disk_faults a.old b.old)
        (areas_of D.told D.syncs D.disk_faults a.new b.new) }
    ensures ok { IfOk result (λ m. ReopensIn m w.old w.new x.now
        (areas_of D.told D.syncs D.disk_faults a.old b.old)
        (areas_of D.told D.syncs D.disk_faults a.new b.new)) }
    ensures err { OnErr result (w.new ≡ w.old) }
    ensures length { IfOk result (λ m. HasLength m (D.told a.new) (D.told b.new)) }
    ensures lives { IfOk result (λ m. is_gone m ≡ false) }
    ensures going { IfOk result (λ m. is_stopping m ≡ false) }
    ensures syncs_a { D.syncs a.old ≤ D.syncs a.new }
    ensures syncs_b { D.syncs b.old ≤ D.syncs b.new }
    ensures faults_a { D.disk_faults a.old ≤ D.disk_faults a.new }
    ensures faults_b { D.disk_faults b.old ≤ D.disk_faults b.new }
{
    match Master::open(alloc, a, b) {
        Ok(m) => match catch_up(alloc, w, x, m.cluster()) {
            Ok(()) => Ok(m),
            Err(_) => Err(OpenFault::Memory),
        },
        Err(fault) => Err(fault),
    }
}
