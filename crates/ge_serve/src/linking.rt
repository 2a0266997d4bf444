// One connection.
ghost use Rattle.std.specs.Prelude.{◌≡◌, ◌≤◌, true, false, Err, OnOk};
ghost use Rattle.std.specs.Result.{is_err};
ghost use Rattle.ge_model_core.specs.Plan.{plan_of};
ghost use Rattle.ge_model_program.specs.Links.{OnTold};
ghost use Rattle.ge_outside.specs.Faults.{Rose};
ghost use Rattle.ge_master.specs.Areas.{HasFailed, areas_of};
ghost use Rattle.ge_master.specs.Homes.{IsHome};
ghost use Rattle.ge_master.specs.Masters.{HasLength, parts_of, is_gone, is_stopping};
ghost use Rattle.ge_master.specs.declared.faults.Stop.TheVariants.{Dead};
ghost use Rattle.ge_serve.specs.Ends.{end_of_fault, LinkEndsAs, LinkBlames};

use crate::LinkEnd;
use crate::answering::answer_frame;
use ge_master::{Master, Stop};
use ge_outside::{Clock, Disk, Link};
use ge_wire::{WireFault, read_frame, write_reply};
use std::alloc::Global;

// The end of a connection of which no frame was read.
fn end_of(fault: WireFault) -> LinkEnd
    ensures { result ≡ end_of_fault fault }
{
    match fault {
        WireFault::Read => LinkEnd::Read,
        WireFault::Write => LinkEnd::Write,
        WireFault::Frame(place) => LinkEnd::Frame(place),
        WireFault::Long => LinkEnd::Long,
        WireFault::NoMemory => LinkEnd::Memory,
    }
}

/// Answers the frames of a connection in order, each with a reply frame, under the moments that the clock gives: before a
/// frame's event a scheduling run of root is handled where the interval is over, in one batch with it and without a reply. A
/// clock that goes back is taken as standing still.
///
/// The end is `Done` where the bytes end at a frame's end, `Frame` with the place where bytes stand that begin no frame,
/// `Long` where 2^40 bytes were read, and `Stopped` where an accepted `qconf -km` was answered. `Read` and `Write` come
/// only where a read of the connection or a write to it failed, and `Memory` where there was none. At each of these the
/// master goes on, and at each exit a stop leaves the cluster after the frames whose replies were written whole, or that
/// with the events in hand. A `Stop` is the master's: at `Full` an area has no room for what the frame in hand changes, and
/// would end at the place. One that is dead answers `Dead` at once. The master must not have been asked to stop.
pub fn serve_link<D: Disk, N: Link, C: Clock>(
    alloc: Global,
    m: &mut Master,
    a: &mut D,
    b: &mut D,
    link: &mut N,
    clock: &mut C,
) -> Result<LinkEnd, Stop>
    requires going { is_stopping m.old ≡ false }
    requires length { HasLength m.old (D.told a.old) (D.told b.old) }
    ensures ends { OnTold (N.rest link.old) (C.answers clock.old) (λ bytes answers.
        LinkEndsAs plan_of (parts_of m.old) (parts_of m.new)
        (areas_of D.told D.syncs D.disk_faults a.old b.old)
        (areas_of D.told D.syncs D.disk_faults a.new b.new)
        bytes answers (N.written link.old) (N.written link.new) (C.answers clock.new) result) }
    ensures home { IsHome (parts_of m.old) (areas_of D.told D.syncs D.disk_faults a.old b.old)
        → OnOk result (IsHome (parts_of m.new)
        (areas_of D.told D.syncs D.disk_faults a.new b.new)) }
    ensures blames { LinkBlames result
        (Rose (N.read_faults link.old) (N.read_faults link.new))
        (Rose (N.write_faults link.old) (N.write_faults link.new))
        (HasFailed (areas_of D.told D.syncs D.disk_faults a.old b.old)
        (areas_of D.told D.syncs D.disk_faults a.new b.new))
        (is_gone m.old ≡ true) }
    ensures gone { is_gone m.old ≡ true → (result ≡ Err Dead) × (m.new ≡ m.old)
        × (a.new ≡ a.old) × (b.new ≡ b.old) × (link.new ≡ link.old) × (clock.new ≡ clock.old) }
    ensures goes { is_gone m.new ≡ is_err result }
    ensures length { HasLength m.new (D.told a.new) (D.told b.new) }
    ensures faults_a { D.disk_faults a.old ≤ D.disk_faults a.new }
    ensures faults_b { D.disk_faults b.old ≤ D.disk_faults b.new }
{
    if m.dead() {
        return Err(Stop::Dead);
    }
    let mut place = 0u64;
    'frames: loop {
        let payload = match read_frame(alloc, link, &mut place) {
            Ok(Some(payload)) => payload,
            Ok(None) => return Ok(LinkEnd::Done),
            Err(fault) => return Ok(end_of(fault)),
        };
        let reply = match answer_frame(alloc, m, a, b, clock, &payload) {
            Ok(Some(reply)) => reply,
            Ok(None) => return Ok(LinkEnd::Memory),
            Err(stop) => return Err(stop),
        };
        match write_reply(link, &reply) {
            Ok(()) => {}
            Err(_) => return Ok(LinkEnd::Write),
        }
        if m.stopping() {
            return Ok(LinkEnd::Stopped);
        }
    }
}
