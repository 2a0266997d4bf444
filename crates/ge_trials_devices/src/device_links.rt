//! A connection in memory.
ghost use Rattle.std.specs.Prelude.{◌≡◌, ◌+◌, OnOk};

use ge_outside::{Door, Failed, Link, MemDoor, MemLink, Sink, Source};
use ge_rows::Text;
use ge_trials_rows::{append_closed, at_bar, failing};
use std::alloc::{AllocError, Global};

// A read of a link that answers leaves the sum of its counts of faults, since it leaves the side
// of writing.
fn read_link<L: Link>(link: &mut L, buf: &mut [u8]) -> Result<usize, Failed>
    ensures { OnOk result (L.read_faults link.new + L.write_faults link.new ≡ L.read_faults link.old + L.write_faults link.old) }
{
    link.read(buf)
}

// And so does a write.
fn write_link<L: Link>(link: &mut L, piece: &[u8]) -> Result<usize, Failed>
    ensures { OnOk result (L.read_faults link.new + L.write_faults link.new ≡ L.read_faults link.old + L.write_faults link.old) }
{
    link.write(piece)
}

// A link may be let go.
fn let_go<L: Link>(_link: L) {}

// A door with one link that holds these bytes and fails at one call.
fn door_of(alloc: Global, call: &[u8], bytes: &[u8]) -> Result<MemDoor, AllocError> {
    let mut links = Vec::new(alloc);
    links.push(MemLink::new(alloc, bytes.to_vec(alloc)?, failing(alloc, call)?))?;
    Ok(MemDoor::new(alloc, links, Vec::new(alloc)))
}

// A call's count of bytes, or that it failed.
fn append_count(
    alloc: Global,
    line: &mut Text,
    answer: Result<usize, Failed>,
) -> Result<(), AllocError> {
    match answer {
        Ok(count) => line.append(count.to_string(alloc)?.as_bytes())?,
        Err(Failed) => line.append(b"failed")?,
    }
    line.append(b", ")
}

// A read and a write of a link, what is left to read, and whether a call has failed.
fn used(alloc: Global, link: &mut MemLink, piece: &[u8]) -> Result<Text, AllocError> {
    let mut line = Text::new(alloc);
    append_count(alloc, &mut line, read_link(link, &mut [0; 4]))?;
    append_count(alloc, &mut line, write_link(link, piece))?;
    line.append(link.unread())?;
    line.append(if link.has_failed() {
        b" left, faulty, "
    } else {
        b" left, "
    })?;
    Ok(line)
}

// Whether another link comes.
fn append_next(line: &mut Text, door: &mut MemDoor) -> Result<(), AllocError> {
    match door.accept() {
        Ok(_) => line.append(b", another"),
        Err(Failed) => line.append(b", no other"),
    }
}

/// A row `link CALL|BYTES|BYTES`: a link comes, is used and is closed. The call fails, the first
/// bytes are there, and the others are written.
pub(crate) fn told(alloc: Global, given: &[u8]) -> Result<Text, AllocError> {
    let (call, rest) = at_bar(given);
    let (bytes, piece) = at_bar(rest);
    let_go(MemLink::new(alloc, Vec::new(alloc), Vec::new(alloc)));
    let mut door = door_of(alloc, call, bytes)?;
    let Ok(mut link) = door.accept() else {
        return Text::from_bytes(alloc, b"no link");
    };
    let mut line = used(alloc, &mut link, piece)?;
    line.append(if door.close(link).is_ok() {
        b"closed "
    } else {
        b"open "
    })?;
    append_closed(&mut line, &door)?;
    append_next(&mut line, &mut door)?;
    Ok(line)
}
