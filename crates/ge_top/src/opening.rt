// A run that opens the two areas.
ghost use Rattle.std.specs.Prelude.{◌<◌};
ghost use Rattle.ge_model_program.specs.View.{view_of};
ghost use Rattle.ge_model_program.specs.Replaying.{ReplaysAreas};
ghost use Rattle.ge_model_program.specs.Showing.{ShowsAreas};
ghost use Rattle.ge_serve.specs.Areas.{areas_of};
ghost use Rattle.ge_top.specs.ServingAreas.{ServesAreas};

use crate::replaying::replay;
use crate::showing::show;
use crate::statuses::status_of_fault;
use ge_outside::{Clock, Disk, Door, Sink, Source};
use ge_serve::{Master, serve};
use std::alloc::Global;

/// Opens the two areas and replays a script over them.
pub(crate) fn replay_areas<S: Source, K: Sink, D: Disk>(
    alloc: Global,
    input: &mut S,
    output: &mut K,
    a: &mut D,
    b: &mut D,
    batch: u32,
) -> u8
    requires { 0 < batch }
    ensures { ReplaysAreas batch result (S.rest input.old) (S.rest input.new)
        (S.read_faults input.old) (S.read_faults input.new)
        (view_of K.written K.write_faults D.told D.disk_faults D.syncs output.old a.old b.old)
        (view_of K.written K.write_faults D.told D.disk_faults D.syncs output.new a.new b.new) }
{
    match Master::open(alloc, a, b) {
        Ok(mut master) => replay(alloc, &mut master, input, output, a, b, batch),
        Err(fault) => status_of_fault(&fault),
    }
}

/// Opens the two areas and writes what they hold.
pub(crate) fn show_areas<K: Sink, D: Disk>(
    alloc: Global,
    output: &mut K,
    a: &mut D,
    b: &mut D,
) -> u8
    ensures { ShowsAreas result
        (view_of K.written K.write_faults D.told D.disk_faults D.syncs output.old a.old b.old)
        (view_of K.written K.write_faults D.told D.disk_faults D.syncs output.new a.new b.new) }
{
    match Master::open(alloc, a, b) {
        Ok(master) => show(alloc, &master, output),
        Err(fault) => status_of_fault(&fault),
    }
}

/// Opens the two areas and serves connections of a door over them.
pub(crate) fn serve_areas<D: Disk, L: Door, C: Clock>(
    alloc: Global,
    a: &mut D,
    b: &mut D,
    door: &mut L,
    clock: &mut C,
    count: u32,
) -> u8
    ensures { ServesAreas count result
        (areas_of D.told D.syncs D.disk_faults a.old b.old)
        (areas_of D.told D.syncs D.disk_faults a.new b.new)
        (L.coming door.old) (L.coming door.new) (L.closed door.old) (L.closed door.new)
        (C.answers clock.old) (C.answers clock.new)
        (L.door_faults door.old) (L.door_faults door.new) }
{
    match Master::open(alloc, a, b) {
        Ok(mut master) => serve(alloc, &mut master, a, b, door, clock, count),
        Err(fault) => status_of_fault(&fault),
    }
}
