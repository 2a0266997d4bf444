// Connections one after the other.
ghost use Rattle.std.specs.Prelude.{◌≡◌, ◌⊎◌, ◌≤◌, ◌||◌, nat_le, false, OnOk, IfErr};
ghost use Rattle.ge_model_core.specs.Plan.{plan_of};
ghost use Rattle.ge_model_program.specs.Doors.{OnDoor};
ghost use Rattle.ge_outside.specs.Faults.{Rose};
ghost use Rattle.ge_master.specs.Areas.{HasFailed, areas_of};
ghost use Rattle.ge_master.specs.Homes.{IsHome};
ghost use Rattle.ge_master.specs.Masters.{HasLength, parts_of, is_gone, is_stopping};
ghost use Rattle.ge_serve.specs.Serves.{is_memory, FaultBlames, OneServed, NoneAccepted, OneKept, Serves};

use crate::statuses::{DONE, ServeFault, status_of};
use crate::{LinkEnd, serve_link};
use ge_master::Master;
use ge_outside::{Clock, Disk, Door};
use std::alloc::Global;

fn wants_memory(end: LinkEnd) -> bool
    ensures { result ≡ is_memory end }
{
    match end {
        LinkEnd::Done => false,
        LinkEnd::Stopped => false,
        LinkEnd::Read => false,
        LinkEnd::Write => false,
        LinkEnd::Frame(_) => false,
        LinkEnd::Long => false,
        LinkEnd::Memory => true,
    }
}

// Accepts the next connection, serves it and gives it back, but where memory ran out.
fn serve_next<D: Disk, L: Door, C: Clock>(
    alloc: Global,
    m: &mut Master,
    a: &mut D,
    b: &mut D,
    door: &mut L,
    clock: &mut C,
) -> Result<(), ServeFault>
    requires lives { is_gone m.old ≡ false }
    requires going { is_stopping m.old ≡ false }
    requires length { HasLength m.old (D.told a.old) (D.told b.old) }
    ensures served { OnOk result (
        OnDoor (L.coming door.old) (L.closed door.old) (C.answers clock.old)
        (λ coming closed answers.
        OneServed plan_of (parts_of m.old) (parts_of m.new)
        (areas_of D.told D.syncs D.disk_faults a.old b.old)
        (areas_of D.told D.syncs D.disk_faults a.new b.new)
        coming closed answers (L.coming door.new) (L.closed door.new) (C.answers clock.new))) }
    ensures unserved { IfErr result (λ fault.
        OnDoor (L.coming door.old) (L.closed door.old) (C.answers clock.old)
        (λ coming closed answers.
        NoneAccepted (parts_of m.old) (parts_of m.new)
        (areas_of D.told D.syncs D.disk_faults a.old b.old)
        (areas_of D.told D.syncs D.disk_faults a.new b.new)
        coming closed answers (L.coming door.new) (L.closed door.new) (C.answers clock.new) fault
        ⊎ OneKept plan_of (parts_of m.old)
        (areas_of D.told D.syncs D.disk_faults a.old b.old)
        (areas_of D.told D.syncs D.disk_faults a.new b.new)
        coming closed answers (L.coming door.new) (L.closed door.new) fault)) }
    ensures home { OnOk result (IsHome (parts_of m.old)
        (areas_of D.told D.syncs D.disk_faults a.old b.old)
        → IsHome (parts_of m.new) (areas_of D.told D.syncs D.disk_faults a.new b.new)) }
    ensures lives { OnOk result (is_gone m.new ≡ false) }
    ensures length { HasLength m.new (D.told a.new) (D.told b.new) }
    ensures blames { IfErr result (λ fault. FaultBlames fault
        (HasFailed (areas_of D.told D.syncs D.disk_faults a.old b.old)
        (areas_of D.told D.syncs D.disk_faults a.new b.new))
        (Rose (L.door_faults door.old) (L.door_faults door.new))) }
    ensures faults_a { D.disk_faults a.old ≤ D.disk_faults a.new }
    ensures faults_b { D.disk_faults b.old ≤ D.disk_faults b.new }
    ensures doors { L.door_faults door.old ≤ L.door_faults door.new }
{
    let mut link = match door.accept() {
        Ok(link) => link,
        Err(_) => return Err(ServeFault::Door),
    };
    let end = match serve_link(alloc, m, a, b, &mut link, clock) {
        Ok(end) => end,
        Err(stop) => return Err(ServeFault::Stopped(stop)),
    };
    if wants_memory(end) {
        return Err(ServeFault::Memory);
    }
    match door.close(link) {
        Ok(()) => {}
        Err(_) => return Err(ServeFault::Door),
    }
    Ok(())
}

// Whether no further connection is accepted: the master stops, or as many were served as were to be.
fn is_over(m: &Master, served: u32, count: u32) -> bool
    ensures { result ≡ (is_stopping m.now || nat_le count served) }
{
    m.stopping() || count <= served
}

/// Serves so many connections of a door one after the other, or fewer where a `qconf -km` is accepted: after that none is
/// accepted. Each is given back when it has ended, however that was, but where memory ran out, which ends all.
///
/// The status is 0 where that is done, 5 where an area has no room for what the frame in hand changes, 8 where an area failed,
/// 9 where the door failed, and 10 where there is no memory. The connections that were given back, in order, lead from the
/// cluster that the master held to one that is left, and at each exit every pair of what a stop may leave of the areas stands
/// for that; where one was accepted and not given back, for what [`serve_link`] may leave that began with it.
pub fn serve<D: Disk, L: Door, C: Clock>(
    alloc: Global,
    m: &mut Master,
    a: &mut D,
    b: &mut D,
    door: &mut L,
    clock: &mut C,
    count: u32,
) -> u8
    requires lives { is_gone m.old ≡ false }
    requires going { is_stopping m.old ≡ false }
    requires length { HasLength m.old (D.told a.old) (D.told b.old) }
    ensures serves { Serves result count (parts_of m.old) (parts_of m.new)
        (areas_of D.told D.syncs D.disk_faults a.old b.old)
        (areas_of D.told D.syncs D.disk_faults a.new b.new)
        (L.coming door.old) (L.coming door.new) (L.closed door.old) (L.closed door.new)
        (C.answers clock.old) (C.answers clock.new)
        (L.door_faults door.old) (L.door_faults door.new) }
    ensures length { HasLength m.new (D.told a.new) (D.told b.new) }
    ensures faults_a { D.disk_faults a.old ≤ D.disk_faults a.new }
    ensures faults_b { D.disk_faults b.old ≤ D.disk_faults b.new }
    ensures doors { L.door_faults door.old ≤ L.door_faults door.new }
{
    let mut served = 0;
    'links: loop {
        if is_over(m, served, count) {
            return DONE;
        }
        match serve_next(alloc, m, a, b, door, clock) {
            Ok(()) => {}
            Err(fault) => return status_of(&fault),
        }
        served += 1;
    }
}
