// One request and its reply, over one connection.
ghost use Rattle.std.specs.Prelude.{◌≡◌, ◌<◌, ◌≤◌, length, IfOk, OnOk};
ghost use Rattle.ge_limits.specs.Limits.{text_bytes};
ghost use Rattle.ge_outside.specs.Faults.{Rose};
ghost use Rattle.ge_outside.specs.Streams.{Gains};
ghost use Rattle.ge_model_wire.specs.Frames.{request_frame};
ghost use Rattle.ge_wire.specs.Asked.{TalksAs, Blames, Asked, DoorBlames};

use crate::endings::AskFault;
use crate::faults::WireFault;
use crate::replies::read_reply;
use crate::writing::write_frame;
use ge_outside::{Door, Link};
use ge_rows::Text;
use std::alloc::Global;

// Writes the request on a connection and reads the reply.
fn talk<N: Link>(alloc: Global, link: &mut N, payload: &Text) -> Result<Text, WireFault>
    requires some { 0 < length payload.now }
    requires fits { length payload.now ≤ text_bytes }
    ensures wrote { OnOk result (Gains (N.written link.old) (N.written link.new)
        (request_frame payload.now)) }
    ensures reads { TalksAs (N.rest link.old) result }
    ensures later_reads { N.read_faults link.old ≤ N.read_faults link.new }
    ensures later_writes { N.write_faults link.old ≤ N.write_faults link.new }
    ensures blames { Blames result (Rose (N.read_faults link.old) (N.read_faults link.new)) (Rose
        (N.write_faults link.old) (N.write_faults link.new)) }
{
    match write_frame(link, payload) {
        Ok(()) => {}
        Err(_) => return Err(WireFault::Write),
    }
    read_reply(alloc, link)
}

/// Accepts one connection, writes the request, reads the reply, and gives the connection back, whatever became of it.
pub(crate) fn ask_link<L: Door>(
    alloc: Global,
    door: &mut L,
    payload: &Text,
) -> Result<Text, AskFault>
    requires some { 0 < length payload.now }
    requires fits { length payload.now ≤ text_bytes }
    ensures asked { IfOk result (λ text. Asked (L.coming door.old) (L.coming door.new)
        (L.closed door.old) (L.closed door.new) payload.now text) }
    ensures blames { DoorBlames result (Rose (L.door_faults door.old) (L.door_faults door.new))
        (Rose (L.link_faults door.old) (L.link_faults door.new)) (L.coming door.old) }
{
    let mut link = match door.accept() {
        Ok(link) => link,
        Err(_) => return Err(AskFault::Connection),
    };
    let answer = talk(alloc, &mut link, payload);
    if door.close(link).is_err() {
        return Err(AskFault::Connection);
    }
    match answer {
        Ok(text) => Ok(text),
        Err(WireFault::NoMemory) => Err(AskFault::Memory),
        Err(WireFault::Read) => Err(AskFault::Connection),
        Err(WireFault::Write) => Err(AskFault::Connection),
        Err(WireFault::Frame(_)) => Err(AskFault::Connection),
        Err(WireFault::Long) => Err(AskFault::Connection),
    }
}
