//! Areas of a journal that are opened.

use crate::journals::append_areas;
use ge_outside::MemDisk;
use ge_pieces::digits_worth;
use ge_rows::Text;
use ge_spool::{OpenFault, Raw, Spool};
use ge_trials_rows::{append_hex, area_of, at_bar, bytes_of};
use std::alloc::{AllocError, Global};

// Whether the areas hold what they held before.
fn stand(alloc: Global, a: &MemDisk, b: &MemDisk, given: &[u8]) -> Result<bool, AllocError> {
    let (of_a, of_b) = at_bar(given);
    let of_a = bytes_of(alloc, of_a)?;
    let of_b = bytes_of(alloc, of_b)?;
    Ok(a.bytes() == of_a.as_slice() && b.bytes() == of_b.as_slice())
}

// The area and the place of a fault, or what else opening answers.
fn fault(alloc: Global, opened: Result<(Spool, Raw), OpenFault>) -> Result<Text, AllocError> {
    match opened {
        Ok(_) => Text::from_bytes(alloc, b"open"),
        Err(OpenFault::Frame(area, place)) => {
            Text::from_bytes(alloc, format!(in alloc; "{area} {place}")?.as_bytes())
        }
        Err(OpenFault::Disk) => Text::from_bytes(alloc, b"disk"),
        Err(_) => Err(AllocError),
    }
}

/// A row `blames CALL|AREA|AREA`: what opening two areas blames, where it leaves them as they
/// were, on disks that both fail at this call.
pub(crate) fn blamed(alloc: Global, given: &[u8]) -> Result<Text, AllocError> {
    let (fails, areas) = at_bar(given);
    let (of_a, of_b) = at_bar(areas);
    let fails = digits_worth(fails);
    let mut a = area_of(alloc, of_a, fails)?;
    let mut b = area_of(alloc, of_b, fails)?;
    let opened = Spool::open(alloc, &mut a, &mut b);
    if stand(alloc, &a, &b, areas)? {
        fault(alloc, opened)
    } else {
        Text::from_bytes(alloc, b"changed")
    }
}

// The format, the generation and the area that count, the snapshot and the records in brackets.
fn held(alloc: Global, raw: &Raw) -> Result<Text, AllocError> {
    let numbers = format!(in alloc; "{} {} {} [", raw.format, raw.generation, raw.area)?;
    let mut line = Text::from_bytes(alloc, numbers.as_bytes())?;
    append_hex(alloc, &mut line, raw.snapshot.bytes())?;
    line.append(b"]")?;
    for record in raw.records.items() {
        line.append(b"[")?;
        append_hex(alloc, &mut line, record.bytes())?;
        line.append(b"]")?;
    }
    Ok(line)
}

/// The format, the generation and the records of a journal, and where it ends.
pub(crate) fn stands_at(alloc: Global, spool: &Spool) -> Result<String, AllocError> {
    let (format, generation) = (spool.format(), spool.generation());
    let (records, end) = (spool.records(), spool.end());
    format!(in alloc; " {format} {generation} {records} to {end}")
}

// What opening reads, where the journal then stands, and the areas after it.
fn opened(alloc: Global, a: &mut MemDisk, b: &mut MemDisk) -> Result<Text, AllocError> {
    let Ok((spool, raw)) = Spool::open(alloc, a, b) else {
        return Text::from_bytes(alloc, b"a fault");
    };
    let mut line = held(alloc, &raw)?;
    line.append(stands_at(alloc, &spool)?.as_bytes())?;
    append_areas(alloc, &mut line, a, b)?;
    Ok(line)
}

/// A row `opens AREA|AREA`: what opening reads, where the journal then stands, the areas after
/// it, and whether what that left is opened alike.
pub(crate) fn opened_twice(alloc: Global, given: &[u8]) -> Result<Text, AllocError> {
    let (of_a, of_b) = at_bar(given);
    let mut a = area_of(alloc, of_a, 0)?;
    let mut b = area_of(alloc, of_b, 0)?;
    let mut line = opened(alloc, &mut a, &mut b)?;
    let again = opened(alloc, &mut a, &mut b)?;
    let is_same = line.bytes() == again.bytes();
    line.append(if is_same { b", twice" } else { b", once" })?;
    Ok(line)
}

/// A row `counts CALL|AREA|CALL|AREA`: the area that counts, of disks that each fail at their
/// call.
pub(crate) fn counted(alloc: Global, given: &[u8]) -> Result<Text, AllocError> {
    let (fails_a, rest) = at_bar(given);
    let (of_a, rest) = at_bar(rest);
    let (fails_b, of_b) = at_bar(rest);
    let mut a = area_of(alloc, of_a, digits_worth(fails_a))?;
    let mut b = area_of(alloc, of_b, digits_worth(fails_b))?;
    match Spool::open(alloc, &mut a, &mut b) {
        Ok((_, raw)) => Text::from_bytes(alloc, raw.area.to_string(alloc)?.as_bytes()),
        Err(_) => Text::from_bytes(alloc, b"a fault"),
    }
}
