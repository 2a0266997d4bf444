// Reading an area: its header first, and then the records of the one that counts.
ghost use Rattle.std.specs.Prelude.{◌≡◌, ◌==◌, ◌+◌, ◌^◌, ◌<◌, ◌≤◌, ℕ, true, false, List, length, IfOk, MatchOption};
ghost use Rattle.ge_model_journal.specs.Area.{head_of, is_format, is_bad_generation, is_bad_length, number4, records_from, end_from};
ghost use Rattle.ge_model_journal.specs.Journal.{choice};
ghost use Rattle.ge_outside.specs.Faults.{HasCause};
ghost use Rattle.ge_spool.specs.Reads.{ReadsRecords, IsHeadOf, FitsHead, GoesOn};

use crate::OpenFault;
use ge_collections::{List, Text};
use ge_model_journal::{Choice, Head, Header};
use ge_outside::{Disk, Failed};
use std::alloc::Global;

// Whether a gate is open: every byte but 1 closes it, since a stop may leave any.
fn is_open_gate(gate: u8) -> bool
    ensures { result ≡ (gate == 1) }
{
    gate == 1
}

// Whether there is such a format.
fn is_format(format: u8) -> bool
    ensures { result ≡ is_format format }
{
    format == 1 || format == 2
}

// Whether no area has such a generation: in format 1 the greatest number ends all compactions.
fn is_bad_generation(format: u8, generation: u64) -> bool
    ensures value { result ≡ is_bad_generation format generation }
    ensures goes_on { result ≡ false → GoesOn format generation }
{
    generation == 0 || (format == 1 && generation == u64::MAX)
}

// What the first bytes of an area of this length say.
fn head_in(size: u64, header: &[u8; 18]) -> Head
    ensures value { result ≡ head_of size header.now }
    ensures fits { FitsHead size result }
{
    let [
        gate,
        format,
        g0,
        g1,
        g2,
        g3,
        g4,
        g5,
        g6,
        g7,
        n0,
        n1,
        n2,
        n3,
        n4,
        n5,
        n6,
        n7,
    ] = *header;
    if size < 19 || !is_open_gate(gate) {
        return Head::Closed;
    }
    if !is_format(format) {
        return Head::Faulty(1);
    }
    let generation = u64::from_be_bytes([g0, g1, g2, g3, g4, g5, g6, g7]);
    if is_bad_generation(format, generation) {
        return Head::Faulty(2);
    }
    let snapshot = u64::from_be_bytes([n0, n1, n2, n3, n4, n5, n6, n7]);
    if size - 18 < snapshot {
        return Head::Overlong(generation);
    }
    Head::Sound(Header {
        format,
        generation,
        size: snapshot,
    })
}

/// Which area counts, by the headers of both.
pub fn choose(a: Head, b: Head) -> Choice
    ensures { result ≡ choice a b }
{
    match a {
        Head::Faulty(place) => Choice::Wrong(0, place),
        Head::Overlong(_) => Choice::Wrong(0, 10),
        Head::Closed => match b {
            Head::Faulty(place) => Choice::Wrong(1, place),
            Head::Overlong(_) => Choice::Wrong(1, 10),
            Head::Closed => Choice::Neither,
            Head::Sound(header) => Choice::Chosen(true, header),
        },
        Head::Sound(header) => match b {
            Head::Faulty(place) => Choice::Wrong(1, place),
            Head::Overlong(other) if header.generation == other => Choice::Wrong(1, 2),
            Head::Overlong(_) => Choice::Wrong(1, 10),
            Head::Closed => Choice::Chosen(false, header),
            Head::Sound(other) if header.generation == other.generation => Choice::Wrong(1, 2),
            Head::Sound(other) if other.generation < header.generation => {
                Choice::Chosen(false, header)
            }
            Head::Sound(other) => Choice::Chosen(true, other),
        },
    }
}

// The length of the record whose length field begins these bytes, if it is one.
fn body_length(bytes: &[u8]) -> Option<usize>
    ensures { MatchOption result (is_bad_length bytes.now ≡ true)
        (λ size. (is_bad_length bytes.now ≡ false) × (size ≡ number4 bytes.now 0) × (4 + size ≤ length bytes.now)) }
{
    let [n0, n1, n2, n3, ..] = bytes else {
        return None;
    };
    let size = u32::from_be_bytes([*n0, *n1, *n2, *n3]) as usize;
    if size == 0 || bytes.len() - 4 < size {
        return None;
    }
    Some(size)
}

/// The records in bytes that begin at a place, with the place of the gate that ends their list.
pub fn read_records(
    alloc: Global,
    area: u8,
    bytes: &[u8],
    start: u64,
) -> Result<(List<Text>, u64), OpenFault>
    requires { start + length bytes.now ≤ 2 ^ 63 }
    ensures read { ReadsRecords result area (records_from (length bytes.now) start bytes.now) }
    ensures end { IfOk result (λ read. start ≤ read.1) }
    ensures fits { IfOk result (λ read. read.1 < start + length bytes.now) }
    ensures count { IfOk result (λ read. start + length read.0 ≤ read.1) }
    ensures places { IfOk result (λ read. read.1 ≡ end_from start read.0) }
{
    let mut records = List::new(alloc);
    let mut rest = bytes;
    let mut place = start;
    while let Some((gate, after)) = rest.split_first() {
        if !is_open_gate(*gate) {
            return Ok((records, place));
        }
        let Some(size) = body_length(after) else {
            return Err(OpenFault::Frame(area, place + 1));
        };
        let (_, behind) = after.split_at(4);
        let (body, others) = behind.split_at(size);
        let record = Text::from_bytes(alloc, body)?;
        records.push(record)?;
        place = place + 5 + size as u64;
        rest = others;
    }
    Err(OpenFault::Frame(area, place))
}

/// Reads the length and the header of an area.
pub fn look<D: Disk>(disk: &mut D) -> Result<(u64, Head), Failed>
    ensures head { IfOk result (λ look. IsHeadOf (D.told disk.old) look.0 look.1) }
    ensures fits { IfOk result (λ look. FitsHead look.0 look.1) }
    ensures bound { IfOk result (λ look. look.0 ≤ 2 ^ 63) }
    ensures told { D.told disk.new ≡ D.told disk.old }
    ensures syncs { D.syncs disk.new ≡ D.syncs disk.old }
    ensures cause { HasCause (D.disk_faults disk.old) (D.disk_faults disk.new) result }
{
    let size = disk.len()?;
    let mut header = [0; 18];
    let count = disk.read_at(0, &mut header)?;
    if size < 19 || count < 18 {
        return Ok((size, Head::Closed));
    }
    let head = head_in(size, &header);
    Ok((size, head))
}
