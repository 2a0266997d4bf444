// A master handles what comes to it, beside its world.
ghost use Rattle.std.specs.Prelude.{◌≡◌, ◌≤◌, true, false, Err, OnErr};
ghost use Rattle.ge_master.specs.Areas.{areas_of};
ghost use Rattle.ge_master.specs.Masters.{HasLength, cluster_of, is_gone, parts_of};
ghost use Rattle.ge_master.specs.Storing.{OnUnwritten};
ghost use Rattle.ge_master.specs.declared.faults.Stop.TheVariants.{Dead};
ghost use Rattle.ge_world_master.specs.Moving.{HandlesIn, LeavesMaster};

use crate::worlds::foresee;
use ge_base::{Refusal, code};
use ge_laws::plans_never_want_memory;
use ge_master::{Master, Stop};
use ge_model_world::{Arrival, World};
use ge_outside::Disk;
use ge_rows::Reply;
use std::alloc::Global;

/// A master handles what comes to it, with the world beside it whose cluster it has: the world takes the step where the reply is
/// that of the event's plan, and stays as it was where the reply tells of want of memory, and after a `Stop`. Each `Stop` comes for
/// the master's own reasons, and the master is then gone; but what has no event is answered `Spent`, as want of memory in the world
/// is, and a master that lived then lives, and nothing has changed.
pub fn handle_in<D: Disk>(
    alloc: Global,
    m: &mut Master,
    a: &mut D,
    b: &mut D,
    w: &mut World,
    x: &Arrival,
) -> Result<Reply, Stop>
    requires { HasLength m.old (D.told a.old) (D.told b.old) }
    ensures handled { is_gone m.old ≡ false → cluster_of m.old ≡ w.old.cluster
        → HandlesIn result w.old w.new x.now (parts_of m.old) (parts_of m.new)
        (areas_of D.told D.syncs D.disk_faults a.old b.old)
        (areas_of D.told D.syncs D.disk_faults a.new b.new) }
    ensures gone { is_gone m.old ≡ true → result ≡ Err Dead }
    ensures leaves { LeavesMaster result m.old m.new }
    ensures same { OnErr result (w.new ≡ w.old) }
    ensures untouched { OnUnwritten result ((a.new ≡ a.old) × (b.new ≡ b.old)) }
    ensures length { HasLength m.new (D.told a.new) (D.told b.new) }
    ensures syncs_a { D.syncs a.old ≤ D.syncs a.new }
    ensures syncs_b { D.syncs b.old ≤ D.syncs b.new }
    ensures faults_a { D.disk_faults a.old ≤ D.disk_faults a.new }
    ensures faults_b { D.disk_faults b.old ≤ D.disk_faults b.new }
{
    if m.dead() {
        return Err(Stop::Dead);
    }
    let Ok(Some((event, next))) = foresee(alloc, w, x) else {
        return Err(Stop::Spent);
    };
    plans_never_want_memory();
    match m.handle(a, b, &event) {
        Ok(reply) => {
            if reply.code == code(Refusal::NoMemory) {
                return Ok(reply);
            }
            *w = next;
            Ok(reply)
        }
        Err(stop) => Err(stop),
    }
}
