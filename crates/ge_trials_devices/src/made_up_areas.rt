//! Areas of made-up bytes are opened: the call returns, and answers the same twice.

use ge_outside::MemDisk;
use ge_pieces::digits_worth;
use ge_rows::Text;
use ge_spool::{OpenFault, Raw, Spool};
use std::alloc::{AllocError, Global};

// The next of a run of numbers.
fn advanced(state: u64) -> u64 {
    state
        .wrapping_mul(6_364_136_223_846_793_005)
        .wrapping_add(1_442_695_040_888_963_407)
}

// Up to 100 bytes: any ones, or more often small ones, so that many areas are open.
fn made_up(alloc: Global, start: u64) -> Result<Vec<u8>, AllocError> {
    let mut state = advanced(start);
    let size = (state >> 33) % 101;
    let mut bytes = Vec::new(alloc);
    for place in 0..size {
        state = advanced(state);
        let drawn = (state >> 40) % 16;
        let byte = if start % 4 == 0 || drawn == 2 {
            (state >> 48) % 256
        } else if drawn == 1 || place < 2 && drawn > 0 {
            1
        } else {
            0
        };
        bytes.push(byte as u8)?;
    }
    Ok(bytes)
}

// A disk of made-up bytes.
fn made_up_disk(alloc: Global, start: u64) -> Result<MemDisk, AllocError> {
    Ok(MemDisk::new(alloc, made_up(alloc, start)?, Vec::new(alloc)))
}

type Opened = Result<(Spool, Raw), OpenFault>;

// Whether two openings answer the same: what is held, or the same place of the same area.
fn is_same(first: &Opened, second: &Opened) -> bool {
    match (first, second) {
        (Ok((_, raw)), Ok((_, other))) => {
            raw.format == other.format
                && raw.generation == other.generation
                && raw.area == other.area
                && raw.snapshot == other.snapshot
                && raw.records == other.records
        }
        (Err(OpenFault::Frame(area, place)), Err(OpenFault::Frame(other_area, other_place))) => {
            area == other_area && place == other_place
        }
        _ => false,
    }
}

// Whether two areas are opened alike again, and made again.
fn is_answered_alike(alloc: Global, start: u64) -> Result<bool, AllocError> {
    let mut a = made_up_disk(alloc, start)?;
    let mut b = made_up_disk(alloc, start ^ 12_345)?;
    let first = Spool::open(alloc, &mut a, &mut b);
    let again = Spool::open(alloc, &mut a, &mut b);
    let mut a = made_up_disk(alloc, start)?;
    let mut b = made_up_disk(alloc, start ^ 12_345)?;
    let second = Spool::open(alloc, &mut a, &mut b);
    Ok(is_same(&first, &again) && is_same(&first, &second))
}

fn is_opened(alloc: Global, start: u64) -> Result<bool, AllocError> {
    let mut a = made_up_disk(alloc, start)?;
    let mut b = made_up_disk(alloc, start ^ 12_345)?;
    Ok(Spool::open(alloc, &mut a, &mut b).is_ok())
}

/// A row `made_up NUMBER`: how many of so many pairs of areas are answered in two ways, and
/// whether a tenth to nine tenths of them are open.
pub(crate) fn answered(alloc: Global, given: &[u8]) -> Result<Text, AllocError> {
    let many = digits_worth(given).min(1_000_000);
    let (mut differ, mut opened) = (0u64, 0u64);
    for start in 0..many {
        if !is_answered_alike(alloc, start)? {
            differ = differ.saturating_add(1);
        }
        if is_opened(alloc, start)? {
            opened = opened.saturating_add(1);
        }
    }
    let are_some = opened > many / 10 && opened < many / 10 * 9;
    let word: &str = if are_some { "some" } else { "few or many" };
    let line = format!(in alloc; "{differ} differ, {word} open")?;
    Text::from_bytes(alloc, line.as_bytes())
}
