// Records gathered for one write.
ghost use Rattle.std.specs.Prelude.{◌≡◌, ◌⊎◌, ◌↔◌, ◌+◌, ◌^◌, ◌<◌, ◌≤◌, ◌∷◌, ◌++◌, [], true, false, length, take, drop, IfOk, OnOk, IsTrue};
ghost use Rattle.ge_limits.specs.Limits.{area_bytes};
ghost use Rattle.std.specs.Int.{bytes_high_first};
ghost use Rattle.ge_acctlog.specs.Records.{HasGathered, StopsGathering, log_end};

use crate::LogStop;
use crate::bodies::bytes_of;
use ge_limits::AREA_BYTES;
use ge_rows::Line;
use std::alloc::{AllocError, Global};

/// Behind so many bytes of records no other is gathered.
const ROOM: usize = 8_388_608;

// The first lines, so many of them, and the others.
fn first_of(lines: &[Line], each: usize) -> (&[Line], &[Line])
    ensures first { result.0.now ≡ take each lines.now }
    ensures others { result.1.now ≡ drop each lines.now }
{
    if lines.len() <= each {
        (lines, &[])
    } else {
        lines.split_at(each)
    }
}

// Puts a record behind others: an open gate, the length of its body, and the body.
fn put_record(records: &mut Vec<u8>, body: &[u8]) -> Result<(), AllocError>
    requires { length body.now < 2 ^ 32 }
    ensures { OnOk result (records.new.items
        ≡ records.old.items ++ 1 ∷ [] ++ bytes_high_first 4 (length body.now) ++ body.now) }
{
    let field = (body.len() as u32).to_be_bytes();
    records.push(1)?;
    records.extend_from_slice(&field)?;
    records.extend_from_slice(body)?;
    Ok(())
}

/// Puts a gate that isn't open behind records.
pub(crate) fn put_gate(records: &mut Vec<u8>) -> Result<(), AllocError>
    ensures { OnOk result (records.new.items ≡ records.old.items ++ 0 ∷ []) }
{
    records.push(0)?;
    Ok(())
}

// Whether another record is looked for behind these, of the lines that are left.
fn goes_on(rest: &[Line], records: &Vec<u8>) -> bool
    ensures on { result ≡ true → 0 < length rest.now }
    ensures small { result ≡ true → length records.now.items < 2 ^ 23 }
    ensures off { result ≡ false → (length rest.now ≡ 0) ⊎ (0 < length records.now.items) }
{
    if rest.is_empty() {
        return false;
    }
    records.len() < ROOM
}

// Where the log would end with one more record behind these.
fn end_with(end: u64, records: &Vec<u8>, body: &[u8]) -> u64
    requires bound { end ≤ 2 ^ 62 }
    requires small { length records.now.items < 2 ^ 23 }
    ensures { result ≡ end + 6 + length records.now.items + length body.now }
{
    end + 6 + records.len() as u64 + body.len() as u64
}

// Whether no record was gathered, and the log would end past the limit behind the first.
fn is_full(records: &Vec<u8>, behind: u64) -> bool
    ensures { IsTrue result ↔ ((area_bytes < behind) × (length records.now.items ≡ 0)) }
{
    behind > AREA_BYTES && records.is_empty()
}

/// The first of these lines as records of so many each, for a list that ends at a place, and how many lines they are: as many records
/// as there is room for in one write, but no fewer than one. What is full tells where the log would end behind the first.
pub(crate) fn gather(
    alloc: Global,
    end: u64,
    lines: &[Line],
    each: usize,
) -> Result<(Vec<u8>, usize), LogStop>
    requires some { 0 < length lines.now }
    requires each { 0 < each }
    requires bound { end ≤ 2 ^ 62 }
    ensures gathered { IfOk result (λ p. HasGathered each end lines.now p.0.items p.1) }
    ensures room { IfOk result (λ p. end + length p.0.items + 1 ≤ area_bytes) }
    ensures long { IfOk result (λ p. p.1 ≤ length p.0.items) }
    ensures wrote { IfOk result (λ p. 0 < p.1) }
    ensures few { IfOk result (λ p. p.1 ≤ length lines.now) }
    ensures stops { StopsGathering result (log_end each end lines.now 1) }
{
    let mut records = Vec::new(alloc);
    let mut rest = lines;
    'records: while goes_on(rest, &records) {
        let (first, others) = first_of(rest, each);
        let body = bytes_of(alloc, first)?;
        let text = body.bytes();
        let behind = end_with(end, &records, text);
        if is_full(&records, behind) {
            return Err(LogStop::Full(behind));
        }
        if behind > AREA_BYTES {
            return Ok((records, lines.len() - rest.len()));
        }
        put_record(&mut records, text)?;
        rest = others;
    }
    Ok((records, lines.len() - rest.len()))
}
